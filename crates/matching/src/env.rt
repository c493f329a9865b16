ghost use Rattle.std.specs.Prelude.{◌≡◌, if◌then◌else◌, Some, None, is_ok, OnErr, slice_index_or};
ghost use Rattle.host.specs.Numbers.{eqZ};
ghost use Rattle.meaning.specs.Enumeration.{seen, agreed_one, agreed, worth};

use facts::{Value, Values};
use records::parts::Operand;

/// How many variables a rule may have.
pub const VARIABLES: usize = 12;

/// The number of each variable that is bound so far.
pub type Env = [Option<Value>; VARIABLES];

/// No variable is bound.
pub const UNBOUND: Env = [None; VARIABLES];

/// An operand is another number.
#[derive(Clone, Copy, PartialEq, Eq, Debug)]
pub struct Differs;

/// The number of a variable, if it is bound.
pub fn number_of(env: Env, variable: u8) -> Option<Value>
    ensures value { result ≡ slice_index_or env variable None }
{
    env.get(variable as usize).copied().flatten()
}

/// Binds a variable to a number; refused where it is another one already, and then nothing changes.
pub fn bind(variable: u8, number: Value, env: &mut Env) -> Result<(), Differs>
    ensures value { seen (slice_index_or env.old variable None) variable number env.old ≡ (if is_ok result then Some env.new else None) }
    ensures refused { OnErr result (env.new ≡ env.old) }
{
    // Kept as a change in place: by value, as an `Option<Env>`, the depot week takes half as long again.
    let at = variable as usize;
    if at >= env.len() {
        return Ok(());
    }
    match env[at] {
        None => {
            env[at] = Some(number);
            Ok(())
        }
        Some(known) => same(known, number),
    }
}

/// Makes an operand a number; refused where it is another one, and then nothing changes.
pub fn agree_one(operand: Operand, number: Value, env: &mut Env) -> Result<(), Differs>
    ensures value { agreed_one operand number env.old ≡ (if is_ok result then Some env.new else None) }
    ensures refused { OnErr result (env.new ≡ env.old) }
{
    match operand {
        Operand::Constant(known) => same(known, number),
        Operand::Variable(variable) => bind(variable, number, env),
    }
}

// Refused where two numbers differ.
fn same(known: Value, number: Value) -> Result<(), Differs>
    ensures value { is_ok result ≡ eqZ known number }
{
    if known == number {
        Ok(())
    } else {
        Err(Differs)
    }
}

/// The bindings in which the operands are these values, if they can be.
pub fn agreed(operands: [Operand; 3], values: Values, env: Env) -> Option<Env>
    ensures value { result ≡ agreed operands values env }
{
    let mut bound = env;
    for (operand, value) in operands.iter().zip(&values) {
        agree_one(*operand, *value, &mut bound).ok()?;
    }
    Some(bound)
}

/// The number of an operand; 0 for a variable that is not bound.
pub fn worth(env: Env, operand: Operand) -> Value
    ensures value { result ≡ worth env operand }
{
    match operand {
        Operand::Constant(number) => number,
        Operand::Variable(variable) => number_of(env, variable).unwrap_or(0),
    }
}
