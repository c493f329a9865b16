//! Questions on facts that stand side by side in rising id.
ghost use Rattle.std.specs.Prelude.{◌≡◌, ◌≤◌, true, ◌&&◌, [], ◌∷◌, ◌++◌, length, Decides, MatchOption, ◌==◌, ◌||◌, ◌-◌, nat_le, nat_lt, slice_index_or};
ghost use Rattle.store.specs.Spots.{place, blank, Spot, Absent};
ghost use Rattle.store.specs.Store.{AtLeast, next_of, rises, Above};

use facts::{Fact, Id, Kind};

// How many facts have an id below `id`: where a fact of that id stands or would stand. It is looked for
// at the last and at the first place where that can be, and else by halves between them.
fn place_of(facts: &[Fact], id: Id) -> usize
    requires { rises facts.now ≡ true }
    ensures value { result ≡ place id facts.now }
    ensures within { result ≤ length facts.now }
{
    let high = last_place(facts, id);
    if is_below(facts, high, id) {
        return high;
    }
    let low = first_place(facts, high, id);
    if is_above(facts, low, id) {
        return low;
    }
    low + facts[low..high].partition_point(|fact| fact.id < id)
}

// The last place where it can be: no more facts stand before it than there are ids from the first fact's on.
fn last_place(facts: &[Fact], id: Id) -> usize
    requires { rises facts.now ≡ true }
    ensures most { place id facts.now ≤ result }
    ensures within { result ≤ length facts.now }
{
    let before = facts.first().map_or(0, |first| id.saturating_sub(first.id));
    facts.len().min(before as usize)
}

// The first place where it can be, if it is below a place `at`: no more facts stand from it on, up to the one
// before `at`, than there are ids up to that fact's.
fn first_place(facts: &[Fact], at: usize, id: Id) -> usize
    requires rising { rises facts.now ≡ true }
    requires most { place id facts.now ≤ at }
    requires within { at ≤ length facts.now }
    ensures least { result ≤ place id facts.now }
{
    let Some(last) = at.checked_sub(1) else {
        return 0;
    };
    last.saturating_sub(facts[last].id.saturating_sub(id) as usize)
}

// Whether the fact before a place has an id below `id`, or no place is before it.
fn is_below(facts: &[Fact], at: usize, id: Id) -> bool
    ensures value { result ≡ (at == 0 || nat_lt (at - 1) (length facts.now) && nat_lt (slice_index_or facts.now (at - 1) blank).id id) }
{
    at == 0 || facts.get(at - 1).is_some_and(|fact| fact.id < id)
}

// Whether the fact at a place has an id not below `id`, or none stands there.
fn is_above(facts: &[Fact], at: usize, id: Id) -> bool
    ensures value { result ≡ (nat_le (length facts.now) at || nat_le id (slice_index_or facts.now at blank).id) }
{
    facts.get(at).is_none_or(|fact| fact.id >= id)
}

// Whether the fact at a place is the one with that id.
fn stands_at(facts: &[Fact], at: usize, id: Id) -> bool
    ensures value { result ≡ (nat_lt at (length facts.now) && (slice_index_or facts.now at blank).id == id) }
{
    facts.get(at).is_some_and(|fact| fact.id == id)
}

// The place of the fact with that id, or its absence.
pub(super) fn spot_of(facts: &[Fact], id: Id) -> Option<usize>
    requires { rises facts.now ≡ true }
    ensures value { MatchOption result (Absent id facts.now) (λ i. Spot id facts.now i) }
{
    let at = place_of(facts, id);
    stands_at(facts, at, id).then_some(at)
}

// The id of the first of the facts that is of that kind.
fn first_of(facts: &[Fact], kind: Kind) -> Option<Id>
    ensures value { result ≡ next_of kind 0 facts.now }
{
    facts
        .iter()
        .find(|fact| fact.kind == kind)
        .map(|fact| fact.id)
}

// The id of the first of the facts that is of that kind and not below `from`.
pub(super) fn next_in(facts: &[Fact], kind: Kind, from: Id) -> Option<Id>
    requires { rises facts.now ≡ true }
    ensures value { result ≡ next_of kind from facts.now }
    ensures bound { AtLeast from result }
{
    let at = place_of(facts, from);
    first_of(&facts[at..], kind)
}

// Whether a fact may follow: its id is above all of theirs, which it is if it is above the last.
pub(super) fn may_follow(facts: &[Fact], fact: Fact) -> bool
    requires { rises facts.now ≡ true }
    ensures value { Decides result (Above fact.id facts.now) }
    ensures rising { result ≡ true → rises (facts.now ++ fact ∷ []) ≡ true }
{
    match facts {
        [] => true,
        [.., last] => last.id < fact.id,
    }
}
