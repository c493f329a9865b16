ghost use Rattle.store.specs.Store.{NextIsSmallest};

/// What `next` answers is the smallest live id of its kind at or above the one asked from, and none only
/// where there is none.
pub fn next_is_smallest()
    ensures smallest { NextIsSmallest }
{}
