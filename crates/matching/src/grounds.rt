ghost use Rattle.std.specs.Prelude.{◌≡◌, []};
ghost use Rattle.rules.specs.Rules.{rule_of};
ghost use Rattle.matching.specs.Grounds.{asking_of, seeing_of};
ghost use Rattle.matching.specs.Parts.{improving, considered};

use crate::env::{Env, worth};
use crate::guards::applicable;
use crate::history::fired;
use host::host::Host;
use meaning::due::Due;
use meaning::roll::{Entry, Firing};
use order::order::Order;
use rules::Rule;
use store::Store;

/// What a search goes by: the live facts of a store, the answers of a host, the ranks of an order,
/// and the roll.
#[derive(Drop)]
pub struct Grounds<'a, S: Store, H: Host, O: Order> {
    pub store: &'a S,
    pub host: &'a H,
    pub order: &'a O,
    pub roll: &'a [Entry],
}

impl<'a, S: Store, H: Host, O: Order> Grounds<'a, S, H, O> {
    /// The better of the best so far and this instance, if it waits; the best so far where they are level.
    pub fn consider(
        &self,
        rule: &Rule,
        firing: Firing,
        env: Env,
        best: Option<Due<O::Rank>>,
    ) -> Option<Due<O::Rank>>
        ensures value { result ≡ considered (asking_of H.Host O.Order self.now []) (seeing_of S.Store self.now) (rule_of rule.now) firing env best }
    {
        let rank = self.order.rank(rule.band, worth(env, rule.rank));
        if !improves(self.order, rank, &best) {
            return best;
        }
        if !applicable(self.host, rule.guards.as_slice(), env) {
            return best;
        }
        if fired(self.roll, firing) {
            return best;
        }
        let Firing { rule, ids } = firing;
        Some(Due { rule, ids, rank })
    }
}

/// Whether a rank is better than that of the best so far, if there is one.
pub fn improves<O: Order>(order: &O, rank: O::Rank, best: &Option<Due<O::Rank>>) -> bool
    ensures value { result ≡ improving (O.Order.better order.now) rank best.now }
{
    match best {
        None => true,
        Some(due) => order.is_better(rank, due.rank),
    }
}
