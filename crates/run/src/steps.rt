ghost use Rattle.std.specs.Prelude.{◌≡◌, ◌-◌, ◌<◌, ◌≤◌, map, length, if◌then◌else◌, MatchOption};
ghost use Rattle.rules.specs.Rules.{rule_of};
ghost use Rattle.meaning.specs.Calls.{StepsTo};
ghost use Rattle.meaning.specs.Enumeration.{due_of};
ghost use Rattle.meaning.specs.Firing.{rule_at};
ghost use Rattle.meaning.specs.declared.answers.Stepped.TheVariants as stepped;
ghost use Rattle.run.specs.Clearing.{Fireable, FiresTo};
ghost use Rattle.tally.specs.declared.answers.Answer.TheVariants as answer;
ghost use Rattle.tally.specs.declared.calls.Call.TheVariants as call;
ghost use Rattle.run.specs.Runs.{setup, state, Standing, Does};

use crate::change::change_store;
use crate::clear::clear_firing;
use crate::run::Run;
use host::host::Host;
use matching::grounds::Grounds;
use meaning::answers::Stepped;
use meaning::due::Due;
use meaning::refusal::Refusal;
use meaning::roll::{Entry, Firing};
use order::order::Order;
use rules::Rule;
use search::due::due_instance;
use store::Store;

impl<S: Store, H: Host, O: Order> Run<S, H, O> {
    /// Fires the due instance, if any; refused, it changes nothing, and the instance stays due.
    pub fn step(&mut self) -> Result<Stepped, Refusal>
        ensures steps { Standing S.Store self.old → StepsTo (setup S.Store H.Host O.Order self.old) (state S.Store self.old) (state S.Store self.new) result }
        ensures does { Does S.Store H.Host O.Order self.old call.Step self.new (answer.Step result) }
    {
        if self.failed {
            return Err(Refusal::Failed);
        }
        match self.due() {
            None => Ok(Stepped::Final),
            Some(due) => {
                let ids = due.ids;
                self.fire(Firing {
                    rule: due.rule,
                    ids,
                })
            }
        }
    }

    // The due instance.
    pub(crate) fn due(&self) -> Option<Due<O::Rank>>
        ensures value { Standing S.Store self.now → result ≡ due_of (setup S.Store H.Host O.Order self.now) (state S.Store self.now) }
    {
        let roll = self.roll.as_slice();
        let grounds = Grounds {
            store: &self.store,
            host: &self.host,
            order: &self.order,
            roll,
        };
        due_instance(&grounds, &self.book)
    }

    // Fires an instance, or says why it is refused.
    pub(crate) fn fire(&mut self, firing: Firing) -> Result<Stepped, Refusal>
        ensures kept { setup S.Store H.Host O.Order self.new ≡ setup S.Store H.Host O.Order self.old }
        ensures standing { Standing S.Store self.old → Fireable (setup S.Store H.Host O.Order self.old) (state S.Store self.old) firing → Standing S.Store self.new }
        ensures fires { Standing S.Store self.old → Fireable (setup S.Store H.Host O.Order self.old) (state S.Store self.old) firing → FiresTo (setup S.Store H.Host O.Order self.old) (state S.Store self.old) firing (state S.Store self.new) result }
    {
        let Some(rule) = numbered(self.book.rules(), firing.rule) else {
            return Ok(Stepped::Final);
        };
        let rolled = self.roll.len();
        let body = clear_firing(&self.store, &self.host, rolled, rule, firing)?;
        let fails = rule.fails;
        change_store(
            &mut self.store,
            rule,
            firing.ids,
            body.as_slice(),
            self.next,
        );
        self.roll.push_reserved(Entry::Fired(firing));
        self.next += body.len() as u32;
        self.failed = fails;
        Ok(answer(fails))
    }
}

// The rule of a number, counted from 1.
pub(crate) fn numbered(rules: &[Rule], number: u8) -> Option<&Rule>
    ensures value { MatchOption result ((0 < number → number ≤ length rules.now → ⊥)) (λ rule. rule_of rule.now ≡ rule_at (map rule_of rules.now) number) }
{
    rules.get((number as usize).checked_sub(1)?)
}

fn answer(fails: bool) -> Stepped
    ensures value { result ≡ (if fails then stepped.Failed else stepped.Fired) }
{
    if fails {
        Stepped::Failed
    } else {
        Stepped::Fired
    }
}
