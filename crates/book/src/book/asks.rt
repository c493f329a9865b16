ghost use Rattle.std.specs.Prelude.{◌≡◌, ◌≤◌, true, map, length};
ghost use Rattle.facts.specs.Positions.{all};
ghost use Rattle.rules.specs.Rules.{arity_of, rule_of, closed, small};
ghost use Rattle.book.specs.Books.{book_of};

use crate::book::Book;
use facts::Kind;
use rules::Rule;

impl Book {
    /// The rules, in file order: the first has number 1. There are at most 64, each with a head and
    /// with its variables bound.
    pub fn rules(&self) -> &[Rule]
        ensures value { map rule_of result.now ≡ (book_of self.now).rules }
        ensures few { length result.now ≤ 64 }
        ensures closed { all closed (map rule_of result.now) ≡ true }
        ensures small { all small (map rule_of result.now) ≡ true }
    {
        self.rules.as_slice()
    }

    /// The arity of a declared kind.
    pub fn arity(&self, kind: Kind) -> Option<u8>
        ensures value { result ≡ arity_of (book_of self.now).kinds kind }
    {
        self.kinds.arity(kind)
    }
}
