//! The records of a week file: bytes in, records out.
//!
//! A record is one kind byte and a body whose length the kind fixes. It means what
//! `specs/Bytes.antt` says of the bytes: which record they begin with, and its fields or the
//! fault. What a record does to the rules is not known here: that is the draft, one floor up.
#![tactic(auto)]

pub mod blanks;
pub mod fault;
pub mod kinds;
pub mod parts;
pub mod reads;
