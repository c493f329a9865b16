ghost use Rattle.std.specs.Prelude.{◌≡◌, ◌+◌, ◌≤◌, length};
ghost use Rattle.meaning.specs.Firing.{put, written, body_of};
ghost use Rattle.firing.specs.Body.{value_at, listed_or};

use crate::faults::with_place;
use facts::Value;
use few::Few;
use host::host::Host;
use host::types::Working;
use matching::env::{Env, worth};
use meaning::refusal::WorkingFault;
use meaning::written::Written;
use records::parts::Operand;
use rules::BodyFact;

// How many facts a body has at most.
const BODY_FACTS: usize = 4;

/// A blank fact, for the places of a body that is not worked out yet.
pub const BLANK: Written = Written {
    kind: 0,
    values: [0; 3],
};

/// The body facts in their order, worked out, or the first fault.
// Kept as parameters, here and below: the definitions take the host's answers and the bindings one by one.
pub fn body<H: Host>(
    host: &H,
    env: Env,
    facts: &[BodyFact],
) -> Result<Few<Written, 4>, WorkingFault>
    ensures value { length facts.now ≤ 4 → listed_or result ≡ body_of (H.Host.works host.now) env facts.now 1 }
{
    let mut done = Few::none(BLANK);
    for (place, fact) in facts.iter().enumerate() {
        if place >= BODY_FACTS {
            return Ok(done);
        }
        let one = worked_out(host, env, *fact, number_at(place))?;
        let Ok(()) = done.push(one) else {
            return Ok(done);
        };
    }
    Ok(done)
}

// The number of the body fact at a place: facts are numbered from 1.
fn number_at(place: usize) -> u8
    requires few { place ≤ 4 }
    ensures value { result ≡ place + 1 }
{
    place as u8 + 1
}

/// A body fact of a number, worked out position by position, or its first fault.
pub fn worked_out<H: Host>(
    host: &H,
    env: Env,
    fact: BodyFact,
    number: u8,
) -> Result<Written, WorkingFault>
    ensures value { result ≡ written (H.Host.works host.now) env fact number }
{
    // Kept as three calls: a loop would number the positions and write the values by index, no plainer.
    let first = value_at(host, env, fact.arity, number, 1, fact.workings[0])?;
    let second = value_at(host, env, fact.arity, number, 2, fact.workings[1])?;
    let third = value_at(host, env, fact.arity, number, 3, fact.workings[2])?;
    Ok(Written {
        kind: fact.kind,
        values: [first, second, third],
    })
}

// The value of the working at a place; an unused place is not put to the host, and holds 0.
fn value_at<H: Host>(
    host: &H,
    env: Env,
    arity: u8,
    number: u8,
    place: u8,
    working: Working<Operand>,
) -> Result<Value, WorkingFault>
    ensures value { result ≡ value_at (H.Host.works host.now) env arity number place working }
{
    if arity < place {
        return Ok(0);
    }
    Ok(with_place(number, place, host.work(put(env, working)))?)
}

// A working with its operands' numbers.
fn put(env: Env, working: Working<Operand>) -> Working<Value>
    ensures value { result ≡ put env working }
{
    // Kept as a match: it hands on no closure that has to be shown callable.
    match working {
        Working::Copy(a) => Working::Copy(worth(env, a)),
        Working::Sum(a, b) => Working::Sum(worth(env, a), worth(env, b)),
        Working::Difference(a, b) => Working::Difference(worth(env, a), worth(env, b)),
    }
}
