ghost use Rattle.std.specs.Prelude.{◌≡◌};
ghost use Rattle.firing.specs.Faults.{with_place, in_rule, working_fault, refused_body};

use host::types::Cause;
use meaning::refusal::{Refusal, WorkingFault};

/// A fault with its place: which working of which body fact, counted from 1.
// Kept as a type of its own, a required form: by `From` the host's fault becomes the working's.
#[derive(Clone, Copy)]
pub struct At<F> {
    pub fact: u8,
    pub working: u8,
    pub fault: F,
}

/// The fault of a body with the number of its rule.
// Kept as a type of its own, a required form: by `From` the working's fault becomes the run's.
#[derive(Clone, Copy)]
pub struct OfRule {
    pub rule: u8,
    pub fault: WorkingFault,
}

/// A result, its fault with its place.
pub fn with_place<T, F>(fact: u8, working: u8, r: Result<T, F>) -> Result<T, At<F>>
    ensures value { result ≡ with_place fact working r }
{
    r.map_err(|fault| At {
        fact,
        working,
        fault,
    })
}

/// A result, its fault with the number of its rule.
pub fn of_rule<T>(rule: u8, r: Result<T, WorkingFault>) -> Result<T, OfRule>
    ensures value { result ≡ in_rule rule r }
{
    r.map_err(|fault| OfRule { rule, fault })
}

/// The host's cause at its place is what a working cannot be done for.
impl From<At<Cause>> for WorkingFault {
    ghost from_gives = { λ x y. y ≡ working_fault x };

    fn from(at: At<Cause>) -> WorkingFault {
        WorkingFault {
            fact: at.fact,
            working: at.working,
            cause: at.fault,
        }
    }
}

/// A body of a rule that cannot be worked out is what the call is refused for.
impl From<OfRule> for Refusal {
    ghost from_gives = { λ x y. y ≡ refused_body x };

    fn from(of: OfRule) -> Refusal {
        Refusal::Body {
            rule: of.rule,
            fault: of.fault,
        }
    }
}
