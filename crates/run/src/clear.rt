ghost use Rattle.std.specs.Prelude.{◌≡◌, ◌+◌, ◌<◌, OnOk, nat_le};
ghost use Rattle.rules.specs.Rules.{rule_of};
ghost use Rattle.firing.specs.Body.{listed_or};
ghost use Rattle.run.specs.Clearing.{working_out, clearing};

use few::Few;
use firing::bind::bindings;
use firing::body::{BLANK, body};
use firing::faults::of_rule;
use firing::heads::taken_count;
use host::host::Host;
use meaning::refusal::{Refusal, Site};
use meaning::roll::{Firing, ROLL_PLACES};
use meaning::written::Written;
use rules::Rule;
use store::Store;

/// The body facts of a firing of a rule, or why it is refused: the body cannot be worked out, there
/// are too few rows, or the roll is full.
// Kept as a function over parts of a run: a method lends the whole run while the rule is lent from its book,
// and the proof of a caller that then changes the store did not close.
pub fn clear_firing<S: Store, H: Host>(
    store: &S,
    host: &H,
    rolled: usize,
    rule: &Rule,
    firing: Firing,
) -> Result<Few<Written, 4>, Refusal>
    ensures place { OnOk result (rolled < 1024) }
    ensures value { S.Store.sound store.now → listed_or result ≡ clearing (H.Host.works host.now) (S.Store.live store.now) (rule_of rule.now) firing (S.Store.rows store.now) rolled }
{
    let body = work_out(store, host, rule, firing)?;
    let free = store.rows().saturating_sub(store.count());
    let taken = taken_count(rule.heads.as_slice(), firing.ids);
    if !has_rows(body.len(), free, taken) {
        return Err(Refusal::NoRow(Site::Rule(firing.rule)));
    }
    if rolled >= ROLL_PLACES {
        return Err(Refusal::RollFull(Site::Rule(firing.rule)));
    }
    Ok(body)
}

// The body facts; a rule with fail has none, and nothing of it is put to the host.
fn work_out<S: Store, H: Host>(
    store: &S,
    host: &H,
    rule: &Rule,
    firing: Firing,
) -> Result<Few<Written, 4>, Refusal>
    ensures value { S.Store.sound store.now → listed_or result ≡ working_out (H.Host.works host.now) (S.Store.live store.now) (rule_of rule.now) firing }
{
    if rule.fails {
        return Ok(Few::none(BLANK));
    }
    let env = bindings(store, rule.heads.as_slice(), firing.ids);
    Ok(of_rule(firing.rule, body(host, env, rule.facts.as_slice()))?)
}

// Whether so many facts find rows: those that are free and those of the heads that are taken.
fn has_rows(wanted: usize, free: usize, taken: usize) -> bool
    ensures value { result ≡ nat_le wanted (free + taken) }
{
    wanted.saturating_sub(free) <= taken
}
