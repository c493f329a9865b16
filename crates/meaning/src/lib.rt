//! What a run means: its roll, its refusals, and the definitions that every call is held to.
//!
//! The code here is the plain types that the definitions speak of. The definitions are under `specs/`,
//! to be read in this order: `Words` (on lists), `Refusals` (by their numbers), `Setup` (what a run is
//! made of), `Instances` (instances, waiting and the due instance in words), of `Enumeration` its head
//! (bindings), `Firing` (what a firing and a hand-in do and when they are refused), `Calls` (what each
//! call answers and leaves). The rest of `Enumeration` has the due instance as a function, and `Agreement`
//! says that it is the one in words; `Published` is the priority semantics as it was published, and a
//! run's moves in it. `laws` proves both. Below stand facts, hosts and rules; above, the tally, the
//! search and the run.
#![tactic(auto)]

pub mod answers;
pub mod due;
pub mod laws;
pub mod refusal;
pub mod roll;
pub mod written;
