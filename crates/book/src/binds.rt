ghost use Rattle.std.specs.Prelude.{◌≡◌};
ghost use Rattle.rules.specs.Rules.{binds, bound, guard_bound, working_bound, fact_bound};

use host::types::Working;
use records::parts::{Guard, Head, Operand};
use rules::BodyFact;

// Whether some head has the variable.
fn binds(heads: &[Head], variable: u8) -> bool
    ensures value { result ≡ binds heads.now variable }
{
    heads.iter().any(|head| head.operands.contains(&Operand::Variable(variable)))
}

/// Whether the operand is a constant, or a variable that some head binds.
pub(crate) fn bound(heads: &[Head], operand: Operand) -> bool
    ensures value { result ≡ bound heads.now operand }
{
    match operand {
        Operand::Constant(_) => true,
        Operand::Variable(variable) => binds(heads, variable),
    }
}

/// Whether both operands of a guard are bound.
pub(crate) fn guard_bound(heads: &[Head], guard: Guard) -> bool
    ensures value { result ≡ guard_bound heads.now guard }
{
    bound(heads, guard.left) && bound(heads, guard.right)
}

fn working_bound(heads: &[Head], working: Working<Operand>) -> bool
    ensures value { result ≡ working_bound heads.now working }
{
    // Kept as a match: it hands on no closure that has to be shown callable.
    match working {
        Working::Copy(a) => bound(heads, a),
        Working::Sum(a, b) | Working::Difference(a, b) => bound(heads, a) && bound(heads, b),
    }
}

/// Whether every operand of a body fact is bound.
pub(crate) fn fact_bound(heads: &[Head], fact: BodyFact) -> bool
    ensures value { result ≡ fact_bound heads.now fact }
{
    fact.workings
        .iter()
        .all(|working| working_bound(heads, *working))
}
