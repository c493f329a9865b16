ghost use Rattle.std.specs.Prelude.{◌≡◌, ◌++◌, is_ok};
ghost use Rattle.store.specs.Store.{Added};
ghost use Rattle.meaning.specs.Firing.{numbered_from};
ghost use Rattle.firing.specs.Changes.{Changes};
ghost use Rattle.firing.specs.Room.{Room, After, numbered};

use facts::{Fact, Id};
use meaning::written::Written;
use store::{NoRow, Store};

/// Adds the facts at the end of the store, in their order, under the next ids.
pub fn write_body<S: Store>(store: &mut S, facts: &[Written], next: Id)
    ensures written { Changes S.Store store.old store.new (λ live. Room (S.Store.live store.old) (S.Store.rows store.old) next facts.now → live ≡ S.Store.live store.old ++ numbered_from next facts.now) }
{
    // Kept as a counter: of `(next..=Id::MAX).zip(facts)` the goals of the loop did not close.
    let mut id = next;
    for fact in facts {
        let Ok(()) = add(store, *fact, id) else {
            return;
        };
        let Some(after) = id_after(id) else {
            return;
        };
        id = after;
    }
}

// Adds a fact at the end of the store, under an id.
fn add<S: Store>(store: &mut S, fact: Written, id: Id) -> Result<(), NoRow>
    ensures added { Changes S.Store store.old store.new (Added (numbered id fact) (S.Store.live store.old) (S.Store.rows store.old) (is_ok result)) }
{
    let Written { kind, values } = fact;
    store.add(Fact { id, kind, values })
}

// The id after an id, if there is one.
fn id_after(id: Id) -> Option<Id>
    ensures value { After id result }
{
    id.checked_add(1)
}
