ghost use Rattle.std.specs.Prelude.{◌≡◌, ◌≤◌, [], IfOk, vec_len, vec_capacity, MatchResult};
ghost use Rattle.book.specs.Books.{book_of};
ghost use Rattle.meaning.specs.Setup.{opening};
ghost use Rattle.run.specs.Runs.{setting_on, setup, state, Standing, Stands};

use crate::run::Run;
use book::book::Book;
use host::host::Host;
use meaning::roll::{Entry, ROLL_PLACES};
use order::order::Order;
use std::alloc::{AllocError, Global};
use store::Store;

/// No memory for a roll: everything is handed back.
// Kept for this alone: elsewhere book, store, host and order are named one by one, and part at once.
#[derive(Drop)]
pub struct Unopened<S, H, O> {
    pub book: Book,
    pub store: S,
    pub host: H,
    pub order: O,
}

/// An empty roll with room for all its places, claimed before a run is opened.
// Kept as a type of its own: of the other lists with room, one has its size at run time, one is filled.
#[derive(Drop)]
pub struct BlankRoll {
    entries: Vec<Entry>,
    ghost empty: { entries.items ≡ [] },
    ghost none: { vec_len entries ≡ 0 },
    ghost room: { 1024 ≤ vec_capacity entries },
}

impl BlankRoll {
    /// Claims the memory that a run will need. Only here can it be wanting, and then nothing has been done.
    pub fn claim(heap: Global) -> Result<BlankRoll, AllocError>
        ensures empty { IfOk result (λ roll. roll.entries.items ≡ []) }
    {
        let entries = Vec::with_capacity(heap, ROLL_PLACES)?;
        Ok(BlankRoll { entries })
    }
}

impl<S: Store, H: Host, O: Order> Run<S, H, O> {
    /// Opens a run: the store is cleared and the roll is empty. It claims the memory that the run
    /// will need; where there is none, everything is handed back, the store cleared.
    pub fn open(
        heap: Global,
        book: Book,
        mut store: S,
        host: H,
        order: O,
    ) -> Result<Run<S, H, O>, Unopened<S, H, O>>
        ensures opened { MatchResult result
            (λ run. (setup S.Store H.Host O.Order run ≡ setting_on S.Store H.Host O.Order (book_of book) store host order) × (state S.Store run ≡ opening) × Standing S.Store run)
            (λ u. (u.book ≡ book) × (u.host ≡ host) × (u.order ≡ order) × (S.Store.rows u.store ≡ S.Store.rows store) × S.Store.sound u.store × (S.Store.live u.store ≡ [])) }
    {
        let Ok(roll) = BlankRoll::claim(heap) else {
            store.clear();
            return Err(Unopened {
                book,
                store,
                host,
                order,
            });
        };
        Ok(Run::start(roll, book, store, host, order))
    }

    /// Opens a run on a roll that was claimed: the store is cleared, the roll is empty, and the first
    /// id will be 1.
    pub fn start(roll: BlankRoll, book: Book, mut store: S, host: H, order: O) -> Run<S, H, O>
        ensures stands { Stands S.Store H.Host O.Order (book_of book) store host order [] result [] }
    {
        let BlankRoll { entries } = roll;
        store.clear();
        Run {
            book,
            store,
            host,
            order,
            roll: entries,
            next: 1,
            failed: false,
        }
    }
}

impl<S: Store, H: Host + Drop, O: Order + Drop> Run<S, H, O> {
    /// Ends the run, and gives the store back as it is.
    pub fn into_store(self) -> S
        ensures value { result ≡ self.store }
    {
        let Run { store, .. } = self;
        store
    }
}
