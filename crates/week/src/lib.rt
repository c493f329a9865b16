//! The reader of a whole week file: bytes in, a week out, or the first fault with its byte place.
//!
//! A week is a book and the goal facts to hand in, in file order (`specs/Weeks.antt`). The records
//! up to the first goal fact go into a draft, which is then closed; after it only goal facts may
//! come. Below stand the records and the draft; above, what opens a run of the book and hands the
//! goal facts in.
#![tactic(auto)]

mod goals;
pub mod reader;
mod rule_records;
pub mod week;
