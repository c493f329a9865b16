ghost use Rattle.std.specs.Prelude.{◌≡◌};
ghost use Rattle.meaning.specs.Refusals.{refusal_numbers, rule_of_site};

use host::types::Cause;

/// Why a body cannot be worked out: which working of which body fact, counted from 1, and the
/// host's own cause.
#[derive(Clone, Copy, PartialEq, Eq, Debug)]
pub struct WorkingFault {
    pub fact: u8,
    pub working: u8,
    pub cause: Cause,
}

/// What wanted a row or a place on the roll: a hand-in, or the firing of a rule.
// Kept as an enum of its own: `NoRow(None)` would not say that it was a hand-in that found no row.
#[derive(Clone, Copy, PartialEq, Eq, Debug)]
pub enum Site {
    HandIn,
    Rule(u8),
}

/// Why a call on a run is refused; the variant nearest the top decides.
#[derive(Clone, Copy, PartialEq, Eq, Debug)]
pub enum Refusal {
    Failed,
    OutOfRange,
    NotDeclared,
    UnusedFilled,
    NotAValue,
    Body { rule: u8, fault: WorkingFault },
    NoRow(Site),
    RollFull(Site),
}

/// A refusal as numbers: its own, the rule or 0, body fact, working and cause or 0.
// Kept as numbers, 0 for none: the line that is printed has five of them, and so will the call from C.
#[derive(Clone, Copy, PartialEq, Eq, Debug)]
pub struct Numbers {
    pub number: u8,
    pub rule: u8,
    pub fact: u8,
    pub working: u8,
    pub cause: u8,
}

const NONE: Numbers = Numbers {
    number: 0,
    rule: 0,
    fact: 0,
    working: 0,
    cause: 0,
};

impl From<Refusal> for Numbers {
    ghost from_gives = { λ refusal numbers. numbers ≡ refusal_numbers refusal };

    /// The number that a refusal goes by, with what is returned beside it.
    fn from(refusal: Refusal) -> Numbers {
        match refusal {
            Refusal::Failed => Numbers { number: 1, ..NONE },
            Refusal::OutOfRange => Numbers { number: 5, ..NONE },
            Refusal::NotDeclared => Numbers { number: 7, ..NONE },
            Refusal::UnusedFilled => Numbers { number: 8, ..NONE },
            Refusal::NotAValue => Numbers { number: 12, ..NONE },
            Refusal::Body { rule, fault } => Numbers {
                number: 13,
                rule,
                fact: fault.fact,
                working: fault.working,
                cause: fault.cause.into(),
            },
            Refusal::NoRow(site) => Numbers {
                number: 14,
                rule: site.rule(),
                ..NONE
            },
            Refusal::RollFull(site) => Numbers {
                number: 15,
                rule: site.rule(),
                ..NONE
            },
        }
    }
}

impl Site {
    // The number of the rule, 0 for a hand-in.
    fn rule(self) -> u8
        ensures value { result ≡ rule_of_site self }
    {
        match self {
            Site::HandIn => 0,
            Site::Rule(number) => number,
        }
    }
}
