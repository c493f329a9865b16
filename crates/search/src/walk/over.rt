ghost use Rattle.std.specs.Prelude.{◌≡◌, ◌<◌, if◌then◌else◌, true, [], ◌∷◌, nat_lt};
ghost use Rattle.std.specs.Option.{option_to_list};
ghost use Rattle.few.specs.Few.{listed};
ghost use Rattle.rules.specs.Rules.{rule_of, headed};
ghost use Rattle.matching.specs.Grounds.{asking_of, seeing_of};
ghost use Rattle.matching.specs.Parts.{Ready};
ghost use Rattle.meaning.specs.Enumeration.{instances, unbound};
ghost use Rattle.search.specs.Offers.{offered};
ghost use Rattle.search.specs.Walks.{first_level};

use crate::walk::{Level, RuleSearch, Walk};
use host::host::Host;
use meaning::due::Due;
use order::order::Order;
use store::Store;

/// The level of the first head, if there is one.
pub fn started(heads: usize) -> Option<Level>
    ensures value { option_to_list result ≡ (if nat_lt 0 heads then first_level ∷ [] else []) }
{
    if heads > 0 {
        Some(Level::first())
    } else {
        None
    }
}

impl<'a, S: Store, H: Host, O: Order> RuleSearch<'a, S, H, O> {
    /// The best of the best so far and the instances of the rule that wait.
    pub fn best(&self, start: Option<Due<O::Rank>>) -> Option<Due<O::Rank>>
        ensures value { Ready S.Store self.now.grounds.now.store.now → headed (rule_of self.now.rule.now) ≡ true → result ≡ offered (asking_of H.Host O.Order self.now.grounds.now []) (seeing_of S.Store self.now.grounds.now) self.now.number (rule_of self.now.rule.now) start (instances (seeing_of S.Store self.now.grounds.now).facts (listed self.now.rule.now.heads) [] unbound) }
    {
        let heads = self.rule.heads.len();
        let Some(first) = started(heads) else {
            return start;
        };
        if heads == 1 {
            return self.completed(&first, 0, start);
        }
        // The deepest level stands beside the others, so that it is not put into the walk and taken out again.
        let mut walk = Walk::none(first);
        let mut deepest = Some(first);
        let mut best = start;
        // Kept as a loop over the walk, a required form: heads go by their place while instances are sought.
        while let Some(level) = &deepest {
            best = self.advance(&mut walk, level, best);
            deepest = walk.pop();
        }
        best
    }
}
