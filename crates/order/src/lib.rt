//! Orders of ranks: which of two waiting instances is to go first.
//!
//! An order makes a rank of its own kind from a rule's band and a value, and says of two ranks
//! whether the first is better. Plain goes by the value alone, banded by the band and then the
//! value. Nothing stands below this crate; the search for the due instance stands above it, and
//! uses no more of an order than the three laws of `Order`.
#![tactic(auto)]

pub mod banded;
pub mod order;
pub mod plain;
