//! The search for the due instance: one text for all stores, hosts and orders.
//!
//! Rule by rule and head by head, it walks the partners that the store's `next` and `read` give,
//! and keeps the best instance met so far; the first met wins a tie. It allocates nothing. What it
//! answers is the due instance of the definitions. Below stands matching; above, the run.
#![tactic(auto)]

pub mod due;
mod walk;
