ghost use Rattle.std.specs.Prelude.{◌+◌, ◌*◌, ◌≤◌, vec_len, vec_capacity};

use book::book::Book;
use facts::Id;
use host::host::Host;
use meaning::roll::Entry;
use order::order::Order;
use store::Store;

/// A book at work: its store, host and order, the roll of what was done, and the next id.
///
/// It cannot be copied. The room for the roll is claimed before it is opened.
// Kept as the premise `Standing` of the clauses: a ghost field can only say that a proof that the store is
// sound exists, and each clause would owe a proof that it holds in one way.
#[derive(Drop)]
pub struct Run<S: Store, H: Host, O: Order> {
    pub(crate) book: Book,
    pub(crate) store: S,
    pub(crate) host: H,
    pub(crate) order: O,
    pub(crate) roll: Vec<Entry>,
    pub(crate) next: Id,
    pub(crate) failed: bool,
    ghost few: { vec_len roll ≤ 1024 },
    ghost room: { 1024 ≤ vec_capacity roll },
    ghost counted: { next ≤ 1 + 4 * vec_len roll },
}
