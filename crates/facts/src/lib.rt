//! Facts: what a store holds, what a rule matches and what a firing writes.
//!
//! A fact is an id, a kind and three values; which positions are in use is a matter of its
//! kind's arity, and the others hold 0. Nothing stands below this crate; nearly every other one cites it.
#![tactic(auto)]

mod display;
pub mod positions;

/// What a fact goes by: given out from 1 upward and never used again.
pub type Id = u32;

/// The number of a fact kind, 0 to 31 where it is declared.
pub type Kind = u8;

/// A signed 32-bit whole number.
pub type Value = i32;

/// How many values a fact holds.
pub const VALUES: usize = 3;

/// The values of a fact, in the order of their positions.
pub type Values = [Value; VALUES];

/// How many kinds there are at most; their numbers lie below this.
pub const KINDS: usize = 32;

/// An id, a kind, and a value for each position.
#[derive(Clone, Copy, PartialEq, Eq, Debug)]
pub struct Fact {
    pub id: Id,
    pub kind: Kind,
    pub values: Values,
}

/// A blank fact, for the rows of a store before facts stand in them.
pub const BLANK: Fact = Fact {
    id: 0,
    kind: 0,
    values: [0; VALUES],
};
