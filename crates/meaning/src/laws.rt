ghost use Rattle.meaning.specs.Agreement.{DueAgrees};
ghost use Rattle.meaning.specs.Published.{Follows};

/// The due instance in words and as a function are one; no two are due, and one is due where
/// something waits.
pub fn due_agrees<R>()
    ensures agrees { DueAgrees R }
{}

/// The moves of a run are transitions of the priority semantics as published, and a run that is
/// final or has failed is in a state that no transition leaves.
pub fn run_follows<R>()
    ensures follows { Follows R }
{}
