ghost use Rattle.std.specs.Prelude.{◌≡◌};
ghost use Rattle.std.specs.Result.{result_err};
ghost use Rattle.meaning.specs.Calls.{LooksTo};
ghost use Rattle.meaning.specs.Firing.{fire};
ghost use Rattle.tally.specs.declared.answers.Answer.TheVariants as answer;
ghost use Rattle.tally.specs.declared.calls.Call.TheVariants as call;
ghost use Rattle.run.specs.Clearing.{Fireable};
ghost use Rattle.run.specs.Runs.{setup, state, Standing, Does};

use crate::clear::clear_firing;
use crate::run::Run;
use crate::steps::numbered;
use host::host::Host;
use meaning::answers::Sight;
use meaning::refusal::Refusal;
use meaning::roll::Firing;
use order::order::Order;
use store::Store;

impl<S: Store, H: Host, O: Order> Run<S, H, O> {
    /// Final when nothing waits, else the due instance, with the refusal of its firing if it would be
    /// refused.
    pub fn look(&self) -> Result<Sight, Refusal>
        ensures does { Does S.Store H.Host O.Order self.now call.Look self.now (answer.Look result) }
        ensures looks { Standing S.Store self.now → LooksTo (setup S.Store H.Host O.Order self.now) (state S.Store self.now) result }
    {
        if self.failed {
            return Err(Refusal::Failed);
        }
        match self.due() {
            None => Ok(Sight::Final),
            Some(due) => {
                let ids = due.ids;
                let firing = Firing {
                    rule: due.rule,
                    ids,
                };
                Ok(Sight::Due {
                    rule: due.rule,
                    ids,
                    refusal: self.refusal_of(firing),
                })
            }
        }
    }

    // Why the firing of an instance would be refused, if it would.
    fn refusal_of(&self, firing: Firing) -> Option<Refusal>
        ensures value { Standing S.Store self.now → Fireable (setup S.Store H.Host O.Order self.now) (state S.Store self.now) firing → result ≡ result_err (fire (setup S.Store H.Host O.Order self.now) (state S.Store self.now) firing.rule firing.ids) }
    {
        let rule = numbered(self.book.rules(), firing.rule)?;
        let rolled = self.roll.len();
        clear_firing(&self.store, &self.host, rolled, rule, firing).err()
    }
}
