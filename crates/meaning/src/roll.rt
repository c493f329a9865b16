use facts::{Fact, Id};
use std::fmt;

/// How many entries a roll has room for.
pub const ROLL_PLACES: usize = 1024;

/// A firing: the rule's number, counted from 1, and the ids in head order, 0 where there is no head.
// Kept as four ids, 0 where there is no head: fixed memory, and so a firing is printed.
#[derive(Clone, Copy, PartialEq, Eq, Debug)]
pub struct Firing {
    pub rule: u8,
    pub ids: [Id; 4],
}

/// A firing as it is printed: the rule and the four ids.
impl fmt::Display for Firing {
    fn fmt<W: fmt::Write>(&self, f: &mut fmt::Formatter<W>) -> fmt::Result {
        let Firing { rule, ids } = *self;
        let [a, b, c, d] = ids;
        write!(f, "{rule} {a} {b} {c} {d}")
    }
}

/// What the roll records: each hand-in that was accepted, and each firing.
#[derive(Clone, Copy, PartialEq, Eq, Debug)]
pub enum Entry {
    HandedIn(Fact),
    Fired(Firing),
}
