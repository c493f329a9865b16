ghost use Rattle.std.specs.Prelude.{◌≡◌, ◌≤◌, true, map, vec_len};
ghost use Rattle.facts.specs.Positions.{all};
ghost use Rattle.rules.specs.Rules.{rule_of, closed, small};

use crate::kinds::Kinds;
use rules::Rule;

mod asks;
mod close;

/// Finished rules and the kinds they speak of; made by closing a draft, and never changed.
#[derive(Drop)]
pub struct Book {
    kinds: Kinds,
    rules: Vec<Rule>,
    ghost few: { vec_len rules ≤ 64 },
    ghost closed: { all closed (map rule_of rules.items) ≡ true },
    ghost small: { all small (map rule_of rules.items) ≡ true },
}
