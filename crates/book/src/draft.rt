ghost use Rattle.std.specs.Prelude.{◌≡◌, ◌≤◌, true, map, vec_len, vec_capacity};
ghost use Rattle.rules.specs.Rules.{rule_of};
ghost use Rattle.book.specs.Drafts.{rules_sound};

use crate::kinds::Kinds;
use rules::Rule;

mod calls;
mod enter;
mod lends;

/// How many rules a draft has at most.
pub const MOST_RULES: usize = 64;

/// Which record a draft took last, as far as it decides what may follow.
#[derive(Clone, Copy, PartialEq, Eq, Debug)]
pub enum State {
    Between,
    Begun,
    Heads,
    Guards,
    Facts,
    Failing,
}

/// The kinds and rules of a draft; the room for 64 rules is claimed when it is made.
#[derive(Drop)]
pub struct Tables {
    pub(crate) kinds: Kinds,
    pub(crate) rules: Vec<Rule>,
    ghost few: { vec_len rules ≤ 64 },
    ghost room: { 64 ≤ vec_capacity rules },
}

/// Rules in the making: all but the last have ended, and so has the last unless one is open.
#[derive(Drop)]
pub struct Draft {
    pub(crate) tables: Tables,
    pub(crate) state: State,
    ghost sound: { rules_sound state (map rule_of tables.rules.items) ≡ true },
}
