ghost use Rattle.std.specs.Prelude.{◌≡◌};
ghost use Rattle.store.specs.Store.{find};
ghost use Rattle.meaning.specs.Enumeration.{unbound};
ghost use Rattle.meaning.specs.Firing.{bound_to, bindings};

use facts::Id;
use matching::env::{Env, UNBOUND, agreed};
use records::parts::Head;
use store::Store;

/// The bindings of an instance: each head bound to the live fact of its id.
pub fn bindings<S: Store>(store: &S, heads: &[Head], ids: [Id; 4]) -> Env
    ensures value { S.Store.sound store.now → result ≡ bindings (S.Store.live store.now) heads.now ids unbound }
{
    let mut env = UNBOUND;
    for (head, id) in heads.iter().zip(&ids) {
        // Kept as two steps: that an array is laid straight into `env` is not covered by the check.
        let bound = bound_to(store, *head, *id, env);
        env = bound;
    }
    env
}

// The bindings with a head bound to the live fact of an id; the same where it does not agree.
fn bound_to<S: Store>(store: &S, head: Head, id: Id, env: Env) -> Env
    ensures value { S.Store.sound store.now → result ≡ bound_to head (find id (S.Store.live store.now)) env }
{
    store
        .read(id)
        .and_then(|fact| agreed(head.operands, fact.values, env))
        .unwrap_or(env)
}
