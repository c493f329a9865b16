//! The worked cases, run through the library: runs over a flat store, with either host and order, their
//! printouts, and the calls of a host and of a working.
//!
//! Expected values are worked out by hand from the rules of the engine and of its printout. Nothing stands
//! above.
#![tactic(auto)]

pub mod books;
#[cfg(test)]
mod calls;
#[cfg(test)]
mod tests;
pub mod tools;
