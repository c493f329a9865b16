//! Firing: what a firing does to a store, for any store and any host.
//!
//! The bindings of an instance, its body worked out by the host, the heads that are taken and the
//! facts that are written. Each function is one word of the definitions (`Firing`, in the crate of
//! what a run means). Below stand matching, stores and hosts; above, the run, which decides when a
//! firing comes and when it is refused.
#![tactic(auto)]

pub mod bind;
pub mod body;
pub mod faults;
pub mod heads;
pub mod write;
