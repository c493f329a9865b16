use book::book::Book;
use facts::{BLANK, Fact, Id, Kind, Value};
use host::host::Host;
use meaning::answers::Sight;
use meaning::refusal::Refusal;
use meaning::roll::{Entry, Firing};
use order::order::Order;
use run::run::Run;
use std::alloc::{AllocError, Global};
use store::Store;
use store::flat::Flat;
use week::reader::Reader;
use week::week::Week;

/// The book that the bytes of a week file hold, if they are read.
pub fn book_of(heap: Global, bytes: &[u8]) -> Result<Option<Book>, AllocError> {
    let reader = Reader::new(heap)?;
    match reader.read(bytes) {
        Ok(week) => {
            let Week {
                book,
                start: _,
                goals: _,
                fault: _,
            } = week;
            Ok(Some(book))
        }
        Err(_) => Ok(None),
    }
}

/// A flat store of so many rows.
pub fn flat(heap: Global, rows: usize) -> Result<Flat, AllocError> {
    let rows = vec![in heap; BLANK; rows]?;
    Ok(Flat::new(rows))
}

/// The entry of the roll for the firing of a rule with these ids.
pub fn fired(rule: u8, ids: [Id; 4]) -> Entry {
    Entry::Fired(Firing { rule, ids })
}

/// What a look answers that sees this instance due, with this refusal of its firing or none.
pub fn due(rule: u8, ids: [Id; 4], refusal: Option<Refusal>) -> Result<Sight, Refusal> {
    Ok(Sight::Due { rule, ids, refusal })
}

/// A fact of this id, kind and first value.
pub fn fact(id: Id, kind: Kind, first: Value) -> Fact {
    Fact {
        id,
        kind,
        values: [first, 0, 0],
    }
}

/// Whether so many entries stand on the roll, the next id is this one, and just these ids are live.
pub fn stands_at<S: Store, H: Host, O: Order>(
    run: &Run<S, H, O>,
    entries: usize,
    next: Id,
    ids: &[Id],
) -> bool {
    run.roll().len() == entries && run.next_id() == next && live_are(run, ids)
}

/// Whether just these ids are live, in rising order.
pub fn live_are<S: Store, H: Host, O: Order>(run: &Run<S, H, O>, ids: &[Id]) -> bool {
    (1..run.next_id())
        .filter(|id| run.read(*id).is_some())
        .eq(ids.iter().copied())
}
