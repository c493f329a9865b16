ghost use Rattle.std.specs.Prelude.{◌≡◌, ◌≤◌, vec_len, vec_capacity};
ghost use Rattle.book.specs.Drafts.{fresh};
ghost use Rattle.book.specs.Held.{draft_of};

use book::draft::Draft;
use records::parts::Goal;

mod calls;

/// How many goal facts are read: no run takes more than 1,024 hand-ins, so the refusal of the
/// 1,025th is certain.
pub const MOST_GOALS: usize = 1025;

/// What it takes to read one week file; all the memory is claimed when it is made.
#[derive(Drop)]
pub struct Reader {
    draft: Draft,
    goals: Vec<Goal>,
    ghost fresh: { draft_of draft ≡ fresh },
    ghost none: { vec_len goals ≡ 0 },
    ghost room: { 1025 ≤ vec_capacity goals },
}
