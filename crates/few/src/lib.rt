//! A list of at most N items, kept in place: it claims no memory, so adding to it is refused only
//! for want of a place. It means the list of its items (`listed`).
//!
//! Not for long or growing lists: that is `Vec`. Nothing stands below; rules hold their heads,
//! guards and body facts in it, firings the facts that they write, and a search its levels.
#![tactic(auto)]

ghost use Rattle.std.specs.Prelude.{◌≡◌, ◌≤◌, length};

mod methods;

/// A list of at most N items, in the order in which they were added.
// Kept as an array with a count: no heap, and the kit's list in place wants a `Default` of each of its items.
#[derive(Drop)]
pub struct Few<T, const N: usize> {
    items: [T; N],
    len: usize,
    ghost whole: { length items ≡ N },
    ghost within: { len ≤ N },
}

/// All places are taken.
#[derive(Clone, Copy, PartialEq, Eq, Debug)]
pub struct Full;
