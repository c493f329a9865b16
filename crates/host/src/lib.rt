//! Hosts: what a week's numbers mean.
//!
//! A host means which numbers are values, a yes or no for each comparator and two numbers, and
//! for each working a value or a cause. Counts are the signed 32-bit numbers with ordinary
//! arithmetic, serials the numbers that come round after 999,999. Nothing stands below this
//! crate; rules are made of its comparators and workings, and the run asks a host through `Host`
//! alone.
#![tactic(auto)]

pub mod counts;
pub mod host;
pub mod serials;
pub mod types;
