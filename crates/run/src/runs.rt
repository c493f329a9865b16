ghost use Rattle.std.specs.Prelude.{◌≡◌, ◌<◌};
ghost use Rattle.meaning.specs.Calls.{RunsTo};
ghost use Rattle.tally.specs.declared.answers.Answer.TheVariants as answer;
ghost use Rattle.tally.specs.declared.calls.Call.TheVariants as call;
ghost use Rattle.run.specs.Runs.{setup, state, Standing, Does};
ghost use Rattle.run.specs.Counting.{answers_fired, ended_so};

use crate::run::Run;
use host::host::Host;
use meaning::answers::{Ending, Ran, Stepped};
use meaning::refusal::Refusal;
use order::order::Order;
use store::Store;

impl<S: Store, H: Host, O: Order> Run<S, H, O> {
    /// Steps until n firings are made or a step answers otherwise than fired; answers the firings
    /// made, a failing one counted, and how it ended. It ends for every n, since each firing takes a
    /// place of the roll.
    pub fn run(&mut self, n: u32) -> Ran
        ensures does { Does S.Store H.Host O.Order self.old (call.Run n) self.new (answer.Run result) }
        ensures runs { Standing S.Store self.old → RunsTo (setup S.Store H.Host O.Order self.old) (state S.Store self.old) n (state S.Store self.new) result }
    {
        for fired in 0..n {
            let stepped = self.step();
            if !has_fired(stepped) {
                return ended(fired, stepped);
            }
        }
        Ran {
            firings: n,
            ending: Ending::Count,
        }
    }
}

// Whether a step answered fired.
fn has_fired(stepped: Result<Stepped, Refusal>) -> bool
    ensures value { result ≡ answers_fired stepped }
{
    matches!(stepped, Ok(Stepped::Fired))
}

// The answer of a run in which so many steps fired and the last one answered otherwise; a firing that
// fails counts.
fn ended(fired: u32, stepped: Result<Stepped, Refusal>) -> Ran
    requires room { fired < 4294967295 }
    ensures value { result ≡ ended_so fired stepped }
{
    match stepped {
        Ok(Stepped::Failed) => Ran {
            firings: fired + 1,
            ending: Ending::Failed,
        },
        Ok(_) => Ran {
            firings: fired,
            ending: Ending::Final,
        },
        Err(refusal) => Ran {
            firings: fired,
            ending: Ending::Refused(refusal),
        },
    }
}
