//! The report: a week file goes in, what was done comes out as lines.
//!
//! `conduct` reads a file, performs the hand-ins of its goal facts on a run of its book, and runs until
//! nothing waits, a rule fails or a firing is refused; `print` writes the roll, the store and the last
//! line of a run that ended, `print_week` these or the one line of a refused reading. Below stand the
//! reader, the run and any list of calls; above, the program.
#![tactic(auto)]

pub mod conduct;
pub mod outcome;
pub mod print;
