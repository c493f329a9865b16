ghost use Rattle.std.specs.Prelude.{◌≡◌, ◌≤◌, length, take, IfOk};
ghost use Rattle.book.specs.Books.{book_of};
ghost use Rattle.run.specs.Runs.{Stands};

use crate::make::make;
use crate::performed::{Performed, Room};
use book::book::Book;
use host::host::Host;
use order::order::Order;
use run::open::BlankRoll;
use run::run::Run;
use std::alloc::{AllocError, Global};
use store::Store;
use tally::calls::Call;

impl Room {
    /// Claims a roll and places for the answers to so many calls. Only here can memory be wanting, and
    /// then nothing has been done.
    pub fn claim(heap: Global, places: usize) -> Result<Room, AllocError>
        ensures value { IfOk result (λ room. room.places ≡ places) }
    {
        let roll = BlankRoll::claim(heap)?;
        let answers = Vec::with_capacity(heap, places)?;
        Ok(Room {
            roll,
            answers,
            places,
        })
    }
}

/// Opens a run and makes the calls on it, one after the other; calls beyond the places claimed are not
/// made.
pub fn perform<S: Store, H: Host, O: Order>(
    room: Room,
    book: Book,
    store: S,
    host: H,
    order: O,
    calls: &[Call],
) -> Performed<S, H, O>
    ensures stands { Stands S.Store H.Host O.Order (book_of book) store host order (take room.places calls.now) result.run result.answers.items }
    ensures whole { length calls.now ≤ room.places → Stands S.Store H.Host O.Order (book_of book) store host order calls.now result.run result.answers.items }
{
    let Room {
        roll,
        answers,
        places,
    } = room;
    let mut answers = answers;
    let mut run = Run::start(roll, book, store, host, order);
    let made = &calls[..places.min(calls.len())];
    for call in made {
        let (next, answer) = make(run, *call);
        run = next;
        answers.push_reserved(answer);
    }
    Performed { run, answers }
}
