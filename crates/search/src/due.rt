ghost use Rattle.std.specs.Prelude.{◌≡◌};
ghost use Rattle.book.specs.Books.{book_of};
ghost use Rattle.matching.specs.Grounds.{asking_of, seeing_of};
ghost use Rattle.matching.specs.Parts.{Ready};
ghost use Rattle.meaning.specs.Enumeration.{due_of};
ghost use Rattle.meaning.specs.Instances.{DueIs};

use crate::walk::RuleSearch;
use book::book::Book;
use host::host::Host;
use matching::grounds::Grounds;
use meaning::due::Due;
use order::order::Order;
use store::Store;

/// The due instance: the best of those that wait, and of level ones the first by rule and ids.
pub fn due_instance<'a, S: Store, H: Host, O: Order>(
    grounds: &'a Grounds<'a, S, H, O>,
    book: &'a Book,
) -> Option<Due<O::Rank>>
    ensures value { Ready S.Store grounds.now.store.now → result ≡ due_of (asking_of H.Host O.Order grounds.now (book_of book.now).rules) (seeing_of S.Store grounds.now) }
    ensures due { Ready S.Store grounds.now.store.now → DueIs (asking_of H.Host O.Order grounds.now (book_of book.now).rules) (seeing_of S.Store grounds.now) result }
{
    let rules = book.rules();
    let mut best = None;
    // Kept as a loop by number, a required form: rules are numbered in file order while instances are sought.
    for (i, rule) in rules.iter().enumerate() {
        let number = (i + 1) as u8;
        let search = RuleSearch {
            grounds,
            number,
            rule,
        };
        best = search.best(best);
    }
    best
}
