ghost use Rattle.std.specs.Prelude.{◌≡◌};
ghost use Rattle.meaning.specs.Enumeration.{among, extended};
ghost use Rattle.matching.specs.Parts.{matched, Ready, Later, Partnered};

use crate::env::{Env, agreed};
use facts::{Fact, Id};
use records::parts::Head;
use store::Store;

/// A live fact that matches a head, the bindings with it, and the id to go on from.
#[derive(Clone, Copy)]
pub struct Partner {
    pub id: Id,
    pub env: Env,
    pub after: Id,
}

/// The first fact from an id on that matches the head, if any.
// Kept as parameters, here and below: the definitions take head, ids used and bindings one by one.
pub fn next_partner<S: Store>(
    store: &S,
    head: Head,
    used: &[Id],
    env: Env,
    from: Id,
) -> Option<Partner>
    ensures later { Later from result }
    ensures found { Ready S.Store store.now → Partnered head used.now env (S.Store.live store.now) from result }
{
    let mut at = from;
    // Kept as `while let` over what `next` answers: a required form of the partner search.
    while let Some(id) = store.next(head.kind, at) {
        let after = id.checked_add(1)?;
        if let Some(bound) = matched(store, head, used, env, id) {
            return Some(Partner {
                id,
                env: bound,
                after,
            });
        }
        at = after;
    }
    None
}

/// The bindings with which the fact of an id matches the head, if it does.
pub fn matched<S: Store>(store: &S, head: Head, used: &[Id], env: Env, id: Id) -> Option<Env>
    ensures value { Ready S.Store store.now → result ≡ matched head used.now env id (S.Store.live store.now) }
{
    // Kept as a match on what `read` answers: a required form of the partner search.
    match store.read(id) {
        Some(fact) => extended(head, used, env, fact),
        None => None,
    }
}

/// The bindings with which a fact, not among those used, matches the head, if it does.
pub fn extended(head: Head, used: &[Id], env: Env, fact: Fact) -> Option<Env>
    ensures value { result ≡ extended head used.now env fact }
{
    if fact.kind != head.kind {
        return None;
    }
    if among(fact.id, used) {
        return None;
    }
    agreed(head.operands, fact.values, env)
}

/// Whether an id is among those used.
pub fn among(id: Id, used: &[Id]) -> bool
    ensures value { result ≡ among id used.now }
{
    used.contains(&id)
}
