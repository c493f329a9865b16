//! The tally: what a run holds and has answered, from its setup and the list of its calls alone.
//!
//! `calls` and `answers` are the calls of a run and their answers as plain data. The definitions are
//! under `specs/`: `Tally` says what a list of calls comes to, `Account` what holds of every run
//! whatever came before, and `Derivation` that its roll is one of the published semantics. Below stands
//! the meaning of each single call; above, the run, each call of which is held to all three.
#![tactic(auto)]

pub mod answers;
pub mod calls;
