use book::book::Book;
use records::fault::Fault;
use records::parts::Goal;

/// A fault, and the place of the byte where its record begins.
#[derive(Clone, Copy)]
pub struct At {
    pub place: usize,
    pub fault: Fault,
}

/// What a week file holds: the book, the place of the first goal fact (or the file's length), the
/// goal facts in file order, and the fault that ended them, if any. Every goal record has 14 bytes,
/// so goal fact i (from 0) begins at start + 14 i.
#[derive(Drop)]
pub struct Week {
    pub book: Book,
    pub start: usize,
    pub goals: Vec<Goal>,
    pub fault: Option<At>,
}
