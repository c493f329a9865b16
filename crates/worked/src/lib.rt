//! The worked weeks, as a statement on the definitions: what the meanings alone say of them.
//!
//! No code is run here. `specs/Worked.antt` writes the books and facts down and says what each
//! week comes to; the contract below names it, so it is proved. Nothing stands above.
#![tactic(auto)]

ghost use Rattle.worked.specs.Worked.{Worked};

/// The worked weeks come out as they are written down.
pub fn worked_cases()
    ensures worked { Worked }
{}
