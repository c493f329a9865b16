ghost use Rattle.std.specs.Prelude.{◌≡◌, length, if◌then◌else◌};
ghost use Rattle.store.specs.Store.{without};
ghost use Rattle.meaning.specs.Firing.{taken_ids, taking_off};
ghost use Rattle.firing.specs.Changes.{Becomes};

use facts::Id;
use records::parts::Head;
use store::Store;

/// How many of the ids are those of heads that are taken.
pub fn taken_count(heads: &[Head], ids: [Id; 4]) -> usize
    ensures value { result ≡ length (taken_ids heads.now ids) }
{
    heads
        .iter()
        .zip(&ids)
        .filter(|(head, _)| head.taken)
        .count()
}

/// Takes the facts of the heads that are taken from the store.
pub fn take_heads<S: Store>(store: &mut S, heads: &[Head], ids: [Id; 4])
    ensures taken { Becomes S.Store store.old store.new (taking_off (taken_ids heads.now ids) (S.Store.live store.old)) }
{
    for (head, id) in heads.iter().zip(&ids) {
        take_head(store, *head, *id);
    }
}

// Takes the fact of a head that is taken; leaves that of one that is kept.
fn take_head<S: Store>(store: &mut S, head: Head, id: Id)
    ensures taken { Becomes S.Store store.old store.new (if head.taken then without id (S.Store.live store.old) else S.Store.live store.old) }
{
    if head.taken {
        let _taken = store.take(id);
    }
}
