//! Drafts and books: a draft takes records one at a time, and closes into a book of the finished
//! rules.
//!
//! A draft means its state (which record came last), its kinds and its rules, the last of which
//! is open until it ends. A book means its kinds and rules; by its type no rule of it is without
//! a head, and none has a variable that no head of the rule binds. Below stand the rules and the
//! records of the week file; above, the reader of a whole file and the run.
#![tactic(auto)]

mod binds;
pub mod book;
pub mod draft;
mod grow;
pub mod kinds;
