//! The flat store: its live facts stand side by side in rising id. One is looked for at the last place where
//! it can stand, and else by halves from the first such place on.
//!
//! The memory is the caller's: given when the store is made, given back by `into_rows`. The store
//! claims none of its own.
ghost use Rattle.std.specs.Prelude.{◌≡◌, ◌≤◌, min, true, [], vec_len, vec_capacity, nat_lt};
ghost use Rattle.store.specs.Store.{rises};
ghost use Rattle.store.specs.Rises.{rising_from_test};
ghost use Rattle.std.proofs.Common.{rules, arith};

mod places;

use super::{MOST_ROWS, NoRow, Store};
use facts::{Fact, Id, Kind};
use places::{may_follow, next_in, spot_of};

/// A store over facts that stand side by side.
#[derive(Drop)]
pub struct Flat {
    facts: Vec<Fact>,
    rows: usize,
    ghost few: { rows ≤ 4096 },
    ghost within: { vec_len facts ≤ rows },
    ghost room: { rows ≤ vec_capacity facts },
    ghost rising: { rises facts.items ≡ true },
}

impl Flat {
    /// An empty store in the rows given, of more than 4,096 the first so many.
    pub fn new(rows: Vec<Fact>) -> Flat
        ensures rows { result.rows ≡ min (vec_len rows) 4096 }
        ensures live { result.facts.items ≡ [] }
    {
        let most = rows.len().min(MOST_ROWS);
        let mut facts = rows;
        facts.clear();
        Flat { facts, rows: most }
    }

    /// Gives the memory back: room for all the rows, and in it the facts that were live.
    pub fn into_rows(self) -> Vec<Fact>
        ensures live { result.items ≡ self.facts.items }
        ensures rows { self.rows ≤ vec_capacity result }
    {
        let Flat { facts, rows: _ } = self;
        facts
    }

    // Whether a row is free.
    fn has_row(&self) -> bool
        ensures { result ≡ nat_lt (vec_len self.now.facts) self.now.rows }
    {
        self.facts.len() < self.rows
    }
}

impl Store for Flat {
    ghost sound = { λ _. Unit {0} };

    ghost rows = { λ s. s.rows };

    ghost live = { λ s. s.facts.items };

    ghost rising = { λ s _. rising_from_test _ s.rising };

    ghost within = { first_of (Prim.search rules, Prim.grind (arith, Self.row.coded.inj)) };

    ghost few = { first_of (Prim.search rules, Prim.grind (arith, Self.row.coded.inj)) };

    fn clear(&mut self) {
        self.facts.clear();
    }

    fn add(&mut self, fact: Fact) -> Result<(), NoRow> {
        if !self.has_row() || !may_follow(&self.facts, fact) {
            return Err(NoRow);
        }
        self.facts.push_reserved(fact);
        Ok(())
    }

    fn take(&mut self, id: Id) -> Option<Fact> {
        let at = spot_of(&self.facts, id)?;
        Some(self.facts.remove(at))
    }

    fn read(&self, id: Id) -> Option<Fact> {
        let at = spot_of(&self.facts, id)?;
        Some(self.facts[at])
    }

    fn next(&self, kind: Kind, from: Id) -> Option<Id> {
        next_in(&self.facts, kind, from)
    }

    fn rows(&self) -> usize {
        self.rows
    }

    fn count(&self) -> usize {
        self.facts.len()
    }
}
