//! Any list of calls: a run is opened, and the calls are made on it one after the other.
//!
//! The contract of `perform` is the whole promise on a run's history, for every store, host and order:
//! store, roll and answers are those of the tally of the calls, the roll accounts for the store, each
//! firing was due, final means final, and the roll alone decides. Below stands the run; above, the
//! report, which performs what a week file means.
#![tactic(auto)]

pub mod make;
pub mod perform;
pub mod performed;
