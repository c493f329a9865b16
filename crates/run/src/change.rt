ghost use Rattle.std.specs.Prelude.{◌≡◌, ◌++◌};
ghost use Rattle.few.specs.Few.{listed};
ghost use Rattle.firing.specs.Changes.{Changes};
ghost use Rattle.firing.specs.Room.{Room};
ghost use Rattle.meaning.specs.Firing.{taken_ids, taking_off, numbered_from};

use facts::Id;
use firing::heads::take_heads;
use firing::write::write_body;
use meaning::written::Written;
use rules::Rule;
use store::Store;

/// Takes the heads that are taken, then adds the body facts under the next ids.
pub fn change_store<S: Store>(store: &mut S, rule: &Rule, ids: [Id; 4], body: &[Written], next: Id)
    ensures changed { Changes S.Store store.old store.new (λ live. let rest = taking_off (taken_ids (listed rule.now.heads) ids) (S.Store.live store.old) in Room rest (S.Store.rows store.old) next body.now → live ≡ rest ++ numbered_from next body.now) }
{
    take_heads(store, rule.heads.as_slice(), ids);
    write_body(store, body, next);
}
