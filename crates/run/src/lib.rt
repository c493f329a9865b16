//! The run: a book at work over a store, a host and an order; one text for all of them.
//!
//! A run means its setup (book, rows, the host's answers and the order's ranks), which never
//! changes, and its state (live facts, roll, next id, whether failed), which each call changes as the
//! tally says. Below stand the tally, the search and the firing; above, any list of calls and the
//! report.
#![tactic(auto)]

pub mod calls;
pub mod change;
pub mod choice;
pub mod chosen;
pub mod clear;
pub mod looks;
pub mod open;
pub mod run;
pub mod runs;
pub mod steps;
