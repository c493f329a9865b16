ghost use Rattle.std.specs.Prelude.{◌≡◌, [], IfOk};
ghost use Rattle.book.specs.Drafts.{fresh};
ghost use Rattle.book.specs.Held.{draft_of};
ghost use Rattle.week.specs.Weeks.{reading, answer_of, first_bytes};

use crate::goals::read_goals;
use crate::reader::{MOST_GOALS, Reader};
use crate::rule_records::{none_open, read_rules};
use crate::week::{At, Week};
use book::draft::Draft;
use std::alloc::{AllocError, Global};

impl Reader {
    /// A reader of one file; it claims all the memory that it will need, and is refused only for
    /// want of it.
    pub fn new(heap: Global) -> Result<Reader, AllocError>
        ensures value { IfOk result (λ x. draft_of x.draft ≡ fresh) }
        ensures items { IfOk result (λ x. x.goals.items ≡ []) }
    {
        let draft = Draft::new(heap)?;
        let goals = Vec::with_capacity(heap, MOST_GOALS)?;
        Ok(Reader { draft, goals })
    }

    /// Reads a whole file; its first 34,691 bytes decide.
    #[tactic(auto, using(crate::proofs::Decisive::first_bytes_decide))]
    pub fn read(self, file: &[u8]) -> Result<Week, At>
        ensures value { answer_of result ≡ reading file.now }
        ensures decides { reading file.now ≡ reading (first_bytes file.now) }
    {
        let Reader {
            mut draft,
            mut goals,
        } = self;
        let start = read_rules(&mut draft, file)?;
        none_open(&draft, file)?;
        let fault = read_goals(&mut goals, file, start);
        Ok(Week {
            book: draft.close(),
            start,
            goals,
            fault,
        })
    }
}
