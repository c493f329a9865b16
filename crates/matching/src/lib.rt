//! Matching: the small decisions of the search.
//!
//! Which facts a head matches and what it binds, whether the host says yes to the guards, whether
//! an instance was fired before, and which of two instances is better. Each function is one word
//! of the definitions. What a search goes by, a store, a host, an order and a roll, is `Grounds`.
//! Below stand the definitions; above, the search that walks the heads.
#![tactic(auto)]

pub mod env;
pub mod grounds;
pub mod guards;
pub mod history;
pub mod partner;
