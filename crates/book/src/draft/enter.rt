ghost use Rattle.std.specs.Prelude.{◌≡◌};
ghost use Rattle.facts.specs.Positions.{all};
ghost use Rattle.records.specs.declared.kinds.Record.TheVariants as record_of;
ghost use Rattle.rules.specs.Results.{Done};
ghost use Rattle.book.specs.Drafts.{declared, entered, field_clear, body_clear, body_fact};
ghost use Rattle.book.specs.Held.{tables_of};

use crate::draft::{MOST_RULES, Tables};
use crate::grow::{add_fact, add_guard, add_head, blank_rule, end, set_fails};
use facts::Kind;
use facts::positions::{Position, unused_clear};
use host::types::Working;
use records::fault::Fault;
use records::kinds::Record;
use records::parts::{BodyField, Head, Operation, WorkingField};
use rules::BodyFact;

impl Tables {
    // Does what a record asks, or changes nothing.
    pub(super) fn enter(&mut self, record: Record) -> Result<(), Fault>
        ensures done { Done (entered (tables_of self.old) «record») (tables_of self.old) result (tables_of self.new) }
    {
        match record {
            Record::FactKind { number, arity } => self.kinds.declare(number, arity),
            Record::RuleBegins => self.begin(),
            Record::Head(head) => self.enter_head(head),
            Record::Guard(guard) => self.change(|rule| add_guard(rule, guard)),
            Record::BodyFact(field) => self.enter_fact(field),
            Record::Fail => self.change(set_fails),
            Record::RuleEnds { band, rank } => self.change(|rule| end(rule, band, rank)),
            Record::GoalFact(_) => Err(Fault::MayNotFollow),
        }
    }

    // One rule more, with nothing in it.
    fn begin(&mut self) -> Result<(), Fault>
        ensures done { Done (entered (tables_of self.old) record_of.RuleBegins) (tables_of self.old) result (tables_of self.new) }
    {
        if self.rules.len() >= MOST_RULES {
            return Err(Fault::TooMany);
        }
        self.rules.push_reserved(blank_rule());
        Ok(())
    }

    fn enter_head(&mut self, head: Head) -> Result<(), Fault>
        ensures done { Done (entered (tables_of self.old) (record_of.Head head)) (tables_of self.old) result (tables_of self.new) }
    {
        let arity = self.declared(head.kind)?;
        if !unused_clear(arity, &head.operands) {
            return Err(Fault::UnusedFilled);
        }
        self.change(|rule| add_head(rule, head))
    }

    fn enter_fact(&mut self, field: BodyField) -> Result<(), Fault>
        ensures done { Done (entered (tables_of self.old) (record_of.BodyFact field)) (tables_of self.old) result (tables_of self.new) }
    {
        let arity = self.declared(field.kind)?;
        if !body_clear(arity, &field.workings) {
            return Err(Fault::UnusedFilled);
        }
        let fact = body_fact(arity, field);
        self.change(|rule| add_fact(rule, fact))
    }

    // The arity of a kind, which has to be declared.
    fn declared(&self, kind: Kind) -> Result<u8, Fault>
        ensures value { result ≡ declared (tables_of self.now).kinds kind }
    {
        self.kinds.arity(kind).ok_or(Fault::NotDeclared)
    }
}

// Whether all that a body fact does not use is blank.
fn body_clear(arity: u8, workings: &[WorkingField]) -> bool
    ensures value { result ≡ body_clear arity workings.now }
{
    unused_clear(arity, workings) && copies_clear(workings)
}

// Whether the second operand of each copy is blank.
fn copies_clear(workings: &[WorkingField]) -> bool
    ensures value { result ≡ all field_clear workings.now }
{
    workings.iter().all(|working| working.operation != Operation::Copy || working.second.is_blank())
}

fn body_fact(arity: u8, field: BodyField) -> BodyFact
    ensures value { result ≡ body_fact arity field }
{
    BodyFact {
        kind: field.kind,
        arity,
        workings: field.workings.map(Working::from),
    }
}
