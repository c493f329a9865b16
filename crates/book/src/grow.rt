ghost use Rattle.std.specs.Prelude.{◌≡◌};
ghost use Rattle.rules.specs.Rules.{rule_of, blank_rule};
ghost use Rattle.rules.specs.Results.{Done};
ghost use Rattle.book.specs.Drafts.{with_head, with_guard, with_fact, with_fail, with_end};

use crate::binds::{bound, fact_bound, guard_bound};
use few::Few;
use host::types::{Comparator, Working};
use records::fault::Fault;
use records::parts::{Guard, Head, Operand};
use rules::{BodyFact, Rule};

const ZERO: Operand = Operand::Constant(0);

/// A rule that has just begun.
pub(crate) fn blank_rule() -> Rule
    ensures value { rule_of result ≡ blank_rule }
{
    Rule {
        heads: Few::none(Head {
            taken: false,
            kind: 0,
            operands: [ZERO; 3],
        }),
        guards: Few::none(Guard {
            comparator: Comparator::Equal,
            left: ZERO,
            right: ZERO,
        }),
        facts: Few::none(BodyFact {
            kind: 0,
            arity: 0,
            workings: [Working::Copy(ZERO); 3],
        }),
        fails: false,
        band: 0,
        rank: ZERO,
    }
}

/// One head more; refused where there are four.
pub(crate) fn add_head(rule: &mut Rule, head: Head) -> Result<(), Fault>
    ensures done { Done (with_head head (rule_of rule.old)) (rule_of rule.old) result (rule_of rule.new) }
{
    rule.heads.push(head)?;
    Ok(())
}

/// One guard more; refused where a variable is not bound, or where there are eight.
pub(crate) fn add_guard(rule: &mut Rule, guard: Guard) -> Result<(), Fault>
    ensures done { Done (with_guard guard (rule_of rule.old)) (rule_of rule.old) result (rule_of rule.new) }
{
    if !guard_bound(rule.heads.as_slice(), guard) {
        return Err(Fault::Unbound);
    }
    rule.guards.push(guard)?;
    Ok(())
}

/// One body fact more; refused where a variable is not bound, or where there are four.
pub(crate) fn add_fact(rule: &mut Rule, fact: BodyFact) -> Result<(), Fault>
    ensures done { Done (with_fact fact (rule_of rule.old)) (rule_of rule.old) result (rule_of rule.new) }
{
    if !fact_bound(rule.heads.as_slice(), fact) {
        return Err(Fault::Unbound);
    }
    rule.facts.push(fact)?;
    Ok(())
}

/// The rule fails the run instead of writing.
pub(crate) fn set_fails(rule: &mut Rule) -> Result<(), Fault>
    ensures done { Done (with_fail (rule_of rule.old)) (rule_of rule.old) result (rule_of rule.new) }
{
    rule.fails = true;
    Ok(())
}

/// The rule has ended; refused where the variable of its rank is not bound.
pub(crate) fn end(rule: &mut Rule, band: u8, rank: Operand) -> Result<(), Fault>
    ensures done { Done (with_end band rank (rule_of rule.old)) (rule_of rule.old) result (rule_of rule.new) }
{
    if !bound(rule.heads.as_slice(), rank) {
        return Err(Fault::Unbound);
    }
    rule.band = band;
    rule.rank = rank;
    Ok(())
}
