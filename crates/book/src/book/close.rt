ghost use Rattle.std.specs.Prelude.{◌≡◌, ◌-◌, ◌≤◌, cond, length, take, vec_len};
ghost use Rattle.book.specs.Drafts.{ended};
ghost use Rattle.book.specs.Books.{book_of, closing};
ghost use Rattle.book.specs.Held.{draft_of};

use crate::book::Book;
use crate::draft::{Draft, Tables};
use rules::Rule;

impl Draft {
    /// Closes the draft into a book of the rules that have ended; an open rule is dropped.
    pub fn close(self) -> Book
        ensures value { book_of result ≡ closing (draft_of self) }
    {
        let open = self.is_open();
        let Tables { kinds, rules } = self.tables;
        Book {
            kinds,
            rules: finished(open, rules),
        }
    }
}

// The rules without the last one where it is open.
fn finished(open: bool, mut rules: Vec<Rule>) -> Vec<Rule>
    ensures items { result.items ≡ cond «open» (take (length rules.items - 1) rules.items) rules.items }
    ensures few { vec_len result ≤ vec_len rules }
{
    if open {
        let _ = rules.pop();
    }
    rules
}
