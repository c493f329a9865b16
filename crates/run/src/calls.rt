ghost use Rattle.std.specs.Prelude.{◌≡◌, ◌<◌, not, length, take, vec_len, OnOk};
ghost use Rattle.facts.specs.Positions.{all};
ghost use Rattle.rules.specs.Results.{told};
ghost use Rattle.store.specs.Store.{find};
ghost use Rattle.meaning.specs.Calls.{HandsIn};
ghost use Rattle.meaning.specs.Firing.{hand_in};
ghost use Rattle.tally.specs.declared.answers.Answer.TheVariants as answer;
ghost use Rattle.tally.specs.declared.calls.Call.TheVariants as call;
ghost use Rattle.run.specs.Runs.{setup, state, Standing, Does};

use crate::run::Run;
use facts::positions::unused_clear;
use facts::{Fact, Id, KINDS, Kind, Value, Values};
use host::host::Host;
use meaning::refusal::{Refusal, Site};
use meaning::roll::{Entry, ROLL_PLACES};
use order::order::Order;
use store::Store;

impl<S: Store, H: Host, O: Order> Run<S, H, O> {
    /// The live fact of an id, or its absence.
    pub fn read(&self, id: Id) -> Option<Fact>
        ensures value { Standing S.Store self.now → result ≡ find id (state S.Store self.now).facts }
        ensures does { Does S.Store H.Host O.Order self.now (call.Read id) self.now (answer.Read result) }
    {
        self.store.read(id)
    }

    /// What has been done so far: each hand-in accepted and each firing, in their order.
    pub fn roll(&self) -> &[Entry]
        ensures value { result.now ≡ (state S.Store self.now).roll }
    {
        self.roll.as_slice()
    }

    /// The id that the next fact will have; every live id is below it.
    pub fn next_id(&self) -> Id
        ensures value { result ≡ (state S.Store self.now).next }
    {
        self.next
    }

    /// Whether a rule with fail has fired.
    pub fn has_failed(&self) -> bool
        ensures value { result ≡ (state S.Store self.now).failed }
    {
        self.failed
    }

    /// Hands a fact in, and answers its id; refused, it changes nothing.
    pub fn hand_in(&mut self, kind: Kind, values: Values) -> Result<Id, Refusal>
        ensures hands_in { Standing S.Store self.old → HandsIn (setup S.Store H.Host O.Order self.old) (state S.Store self.old) kind values (state S.Store self.new) result }
        ensures does { Does S.Store H.Host O.Order self.old (call.HandIn kind values) self.new (answer.HandIn result) }
    {
        self.admit(kind, values)?;
        let id = self.next;
        let fact = Fact { id, kind, values };
        let _added = self.store.add(fact);
        self.roll.push_reserved(Entry::HandedIn(fact));
        self.next = id + 1;
        Ok(id)
    }

    // Whether a fact may be handed in.
    fn admit(&self, kind: Kind, values: Values) -> Result<(), Refusal>
        ensures place { OnOk result (vec_len self.now.roll < 1024) }
        ensures row { Standing S.Store self.now → OnOk result (length (S.Store.live self.now.store) < S.Store.rows self.now.store) }
        ensures value { Standing S.Store self.now → result ≡ told (hand_in (setup S.Store H.Host O.Order self.now) (state S.Store self.now) kind values) }
    {
        if self.failed {
            return Err(Refusal::Failed);
        }
        if kind as usize >= KINDS {
            return Err(Refusal::OutOfRange);
        }
        let arity = self.book.arity(kind).ok_or(Refusal::NotDeclared)?;
        if !unused_clear(arity, &values) {
            return Err(Refusal::UnusedFilled);
        }
        if !used_are_values(&self.host, arity, &values) {
            return Err(Refusal::NotAValue);
        }
        if self.store.count() >= self.store.rows() {
            return Err(Refusal::NoRow(Site::HandIn));
        }
        if self.roll.len() >= ROLL_PLACES {
            return Err(Refusal::RollFull(Site::HandIn));
        }
        Ok(())
    }
}

// Whether the used values are the host's.
fn used_are_values<H: Host>(host: &H, arity: u8, values: &[Value]) -> bool
    ensures value { result ≡ all (H.Host.value host.now) (take arity values.now) }
{
    values
        .iter()
        .take(arity as usize)
        .all(|value| host.is_value(*value))
}
