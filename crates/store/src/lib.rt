//! Stores: where a run keeps its live facts.
//!
//! A store means its rows, a number up to 4,096 that never changes, and the list of its live facts
//! in rising id. `Store` is the interface; each store that keeps it stands in a file of its own. The
//! crate stands on `facts`; a run stands on any store.
#![tactic(auto)]

ghost use Rattle.std.specs.Prelude.{◌≡◌, ℕ, ◌≤◌, List, [], length, is_ok};
ghost use Rattle.facts.specs.declared.Fact.{Fact as LiveFact};
ghost use Rattle.store.specs.Store.{find, without, next_of, Rising, Added, AtLeast};

pub mod flat;
pub mod laws;

use facts::{Fact, Id, Kind};

/// How many rows a store has at most.
pub const MOST_ROWS: usize = 4096;

/// No row is free.
#[derive(Clone, Copy, PartialEq, Eq, Debug)]
pub struct NoRow;

/// A list of live facts in rising id, in a fixed number of rows.
///
/// `sound` is what a store keeps true of itself from the first `clear` on, and what its answers
/// stand on: nothing where it stands alone, its tie to the store below where it stands on one.
/// A question changes nothing, nor does a refusal, and no call changes `rows`.
pub trait Store {
    ghost sound: { Self → Type 0 };

    ghost rows: { Self → ℕ };

    ghost live: { Self → List LiveFact };

    /// Empties the list.
    fn clear(&mut self)
        ensures sound { sound self.new }
        ensures live { live self.new ≡ [] }
        ensures rows { rows self.new ≡ rows self.old };

    /// Puts a fact at the end of the list, under an id above every live one.
    fn add(&mut self, fact: Fact) -> Result<(), NoRow>
        ensures sound { sound self.old → sound self.new }
        ensures live { sound self.old → Added fact (live self.old) (rows self.old) (is_ok result) (live self.new) }
        ensures rows { rows self.new ≡ rows self.old };

    /// Removes the fact with that id and gives it, or says that there is none.
    fn take(&mut self, id: Id) -> Option<Fact>
        ensures sound { sound self.old → sound self.new }
        ensures value { sound self.old → result ≡ find id (live self.old) }
        ensures live { sound self.old → live self.new ≡ without id (live self.old) }
        ensures rows { rows self.new ≡ rows self.old };

    /// The fact with that id, or its absence.
    fn read(&self, id: Id) -> Option<Fact>
        ensures value { sound self.now → result ≡ find id (live self.now) };

    /// The smallest live id of that kind at or above `from`, or its absence.
    fn next(&self, kind: Kind, from: Id) -> Option<Id>
        ensures value { sound self.now → result ≡ next_of kind from (live self.now) }
        ensures bound { AtLeast from result };

    /// How many facts there is room for in all.
    fn rows(&self) -> usize
        ensures value { result ≡ rows self.now };

    /// How many facts are live.
    fn count(&self) -> usize
        ensures value { sound self.now → result ≡ length (live self.now) };

    ghost rising: { (s : Self) → sound s → Rising (live s) };

    ghost within: { (s : Self) → sound s → length (live s) ≤ rows s };

    ghost few: { (s : Self) → rows s ≤ 4096 };
}
