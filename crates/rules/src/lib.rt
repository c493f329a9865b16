//! Rules: heads, guards, body facts or fail, and what a rank is made from.
//!
//! The plain types, and what makes a rule closed (`specs/Rules.antt`). Below stand the records of
//! the week file, whose parts a rule is made of; above, the draft that makes rules and the search
//! that matches them.
#![tactic(auto)]

use facts::Kind;
use few::Few;
use host::types::Working;
use records::parts::{Guard, Head, Operand};

/// A fact that a firing writes; the workings below its arity are in use.
#[derive(Clone, Copy)]
pub struct BodyFact {
    pub kind: Kind,
    // Kept as an arity beside three workings: a fact has three values, and each is worked out at its place.
    pub arity: u8,
    pub workings: [Working<Operand>; 3],
}

/// A rule: its heads, its guards, the facts that it writes or that it fails, and its rank.
#[derive(Drop)]
pub struct Rule {
    pub heads: Few<Head, 4>,
    pub guards: Few<Guard, 8>,
    pub facts: Few<BodyFact, 4>,
    // Kept as a flag beside the facts: a record is defined to add a fact to any rule, one that fails too.
    pub fails: bool,
    pub band: u8,
    pub rank: Operand,
}
