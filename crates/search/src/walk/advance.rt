ghost use Rattle.std.specs.Prelude.{◌≡◌, ◌+◌, ◌<◌, ◌≤◌, [], ◌∷◌, ◌++◌, length, take};
ghost use Rattle.rules.specs.Rules.{rule_of};
ghost use Rattle.matching.specs.Grounds.{asking_of, seeing_of};
ghost use Rattle.matching.specs.Parts.{Ready, Later, Partnered};
ghost use Rattle.few.specs.Few.{listed};
ghost use Rattle.search.specs.Offers.{offered};
ghost use Rattle.search.specs.Walks.{first_level, level_after, rest, weight, Blank, Advanced};

use crate::walk::{Level, RuleSearch, Walk};
use facts::Id;
use host::host::Host;
use matching::env::UNBOUND;
use matching::partner::{Partner, next_partner};
use meaning::due::Due;
use meaning::roll::Firing;
use order::order::Order;
use records::parts::Head;
use store::Store;

impl Level {
    /// The first head, with no partner chosen yet.
    pub fn first() -> Level
        ensures value { result ≡ first_level }
    {
        Level {
            ids: [0; 4],
            env: UNBOUND,
            from: 0,
        }
    }

    /// The same head, looking on from an id.
    pub fn looking_from(self, from: Id) -> Level
        ensures value { result ≡ record { ids = self.ids; env = self.env; from = from } }
    {
        Level { from, ..self }
    }

    /// The next head, with a partner chosen for this one, the head at place `at`.
    pub fn with_partner(self, at: usize, partner: Partner) -> Level
        requires { at < 4 }
        ensures value { result ≡ level_after self at partner }
    {
        let mut ids = self.ids;
        ids[at] = partner.id;
        let env = partner.env;
        Level { ids, env, from: 0 }
    }

    // The next partner of this head, the head at place `at`, from an id on.
    #[inline(always)]
    fn partner<S: Store>(&self, store: &S, head: Head, at: usize, from: Id) -> Option<Partner>
        requires { at < 4 }
        ensures later { Later from result }
        ensures found { Ready S.Store store.now → Partnered head (take at self.now.ids) self.now.env (S.Store.live store.now) from result }
    {
        next_partner(store, head, &self.ids[..at], self.env, from)
    }
}

/// One level more, the deepest.
pub fn reach(walk: &mut Walk, level: Level)
    requires room { length (listed walk.old) < 4 }
    ensures value { listed walk.new ≡ listed walk.old ++ level ∷ [] }
{
    let _reached = walk.push(level);
}

impl<'a, S: Store, H: Host, O: Order> RuleSearch<'a, S, H, O> {
    /// One step: the deepest level, taken off those reached, offers its next partner, or is done with.
    pub fn advance(
        &self,
        walk: &mut Walk,
        level: &Level,
        best: Option<Due<O::Rank>>,
    ) -> Option<Due<O::Rank>>
        requires reached { length (listed walk.old) < length (listed self.now.rule.now.heads) }
        ensures within { length (listed walk.new) ≤ length (listed self.now.rule.now.heads) }
        ensures lighter { weight 3 (listed walk.new) < weight 3 (listed walk.old ++ level.now ∷ []) }
        ensures advanced { Ready S.Store self.now.grounds.now.store.now → Advanced (asking_of H.Host O.Order self.now.grounds.now []) (seeing_of S.Store self.now.grounds.now) self.now.number (rule_of self.now.rule.now) (listed walk.old ++ level.now ∷ []) (listed walk.new) best result }
    {
        let at = walk.len();
        let heads = self.rule.heads.as_slice();
        if at + 1 == heads.len() {
            return self.completed(level, at, best);
        }
        if let Some(partner) = level.partner(self.grounds.store, heads[at], at, level.from) {
            reach(walk, level.looking_from(partner.after));
            reach(walk, level.with_partner(at, partner));
        }
        best
    }

    /// The best of the best so far and the instances that wait among those that the last head, that at
    /// place `at`, completes.
    #[inline(always)]
    pub fn completed(
        &self,
        level: &Level,
        at: usize,
        start: Option<Due<O::Rank>>,
    ) -> Option<Due<O::Rank>>
        requires last { at + 1 ≡ length (listed self.now.rule.now.heads) }
        ensures value { Ready S.Store self.now.grounds.now.store.now → Blank at level.now → result ≡ offered (asking_of H.Host O.Order self.now.grounds.now []) (seeing_of S.Store self.now.grounds.now) self.now.number (rule_of self.now.rule.now) start (rest (seeing_of S.Store self.now.grounds.now).facts (listed self.now.rule.now.heads) at level.now) }
    {
        let head = self.rule.heads.as_slice()[at];
        let mut best = start;
        let mut from = level.from;
        while let Some(partner) = level.partner(self.grounds.store, head, at, from) {
            let chosen = level.with_partner(at, partner);
            let ids = chosen.ids;
            let firing = Firing {
                rule: self.number,
                ids,
            };
            best = self.grounds.consider(self.rule, firing, partner.env, best);
            from = partner.after;
        }
        best
    }
}
