ghost use Rattle.std.specs.Prelude.{◌≡◌, ◌+◌, ◌≤◌, ℕ, List, Option, length};
ghost use Rattle.std.specs.Int.{w32};
ghost use Rattle.std.proofs.Common.{to_z};
ghost use Rattle.records.specs.Bytes.{begun, fields, word, word_bytes, flag, below, comparator_of, operation_of, value_at, operand_at, working_at, three_at, fact_kind_at, head_at, guard_at, body_at, end_at, goal_at, record_at, variable_of, size};

use crate::fault::Fault;
use crate::kinds::{Record, RecordKind};
use crate::parts::{BodyField, Goal, Guard, Head, Operand, Operation, WorkingField};
use facts::Value;
use host::types::Comparator;

/// The kind of the whole record that the bytes begin with; no bytes are a cut record.
pub fn begun(bytes: &[u8]) -> Result<RecordKind, Fault>
    ensures value { result ≡ begun bytes.now }
{
    let byte = bytes.first().ok_or(Fault::Cut)?;
    let kind = RecordKind::try_from(*byte)?;
    if bytes.len() < kind.size() {
        return Err(Fault::Cut);
    }
    Ok(kind)
}

/// The record of this kind that the bytes begin with, each field within its range.
pub fn fields(kind: RecordKind, bytes: &[u8]) -> Result<Record, Fault>
    ensures value { result ≡ fields kind bytes.now }
{
    if bytes.len() < kind.size() {
        return Err(Fault::Cut);
    }
    record(kind, bytes).ok_or(Fault::OutOfRange)
}

fn record(kind: RecordKind, bytes: &[u8]) -> Option<Record>
    requires whole { size kind ≤ length bytes.now }
    ensures value { result ≡ record_at kind bytes.now }
{
    match kind {
        RecordKind::FactKind => fact_kind(bytes),
        RecordKind::RuleBegins => Some(Record::RuleBegins),
        RecordKind::Head => head(bytes).map(Record::Head),
        RecordKind::Guard => guard(bytes).map(Record::Guard),
        RecordKind::BodyFact => body_fact(bytes).map(Record::BodyFact),
        RecordKind::Fail => Some(Record::Fail),
        RecordKind::RuleEnds => rule_ends(bytes),
        RecordKind::GoalFact => goal(bytes).map(Record::GoalFact),
    }
}

fn fact_kind(bytes: &[u8]) -> Option<Record>
    requires whole { 3 ≤ length bytes.now }
    ensures value { result ≡ fact_kind_at bytes.now }
{
    let number = below(bytes[1], 32)?;
    let arity = below(bytes[2], 4)?;
    Some(Record::FactKind { number, arity })
}

fn head(bytes: &[u8]) -> Option<Head>
    requires whole { 18 ≤ length bytes.now }
    ensures value { result ≡ head_at bytes.now }
{
    let taken = flag(bytes[1])?;
    let kind = below(bytes[2], 32)?;
    let operands = three(&bytes[3..])?;
    Some(Head {
        taken,
        kind,
        operands,
    })
}

fn guard(bytes: &[u8]) -> Option<Guard>
    requires whole { 12 ≤ length bytes.now }
    ensures value { result ≡ guard_at bytes.now }
{
    let comparator = comparator(bytes[1])?;
    let left = Operand::read(&bytes[2..])?;
    let right = Operand::read(&bytes[7..])?;
    Some(Guard {
        comparator,
        left,
        right,
    })
}

fn body_fact(bytes: &[u8]) -> Option<BodyField>
    requires whole { 35 ≤ length bytes.now }
    ensures value { result ≡ body_at bytes.now }
{
    let kind = below(bytes[1], 32)?;
    let workings = three(&bytes[2..])?;
    Some(BodyField { kind, workings })
}

fn rule_ends(bytes: &[u8]) -> Option<Record>
    requires whole { 7 ≤ length bytes.now }
    ensures value { result ≡ end_at bytes.now }
{
    let rank = Operand::read(&bytes[2..])?;
    Some(Record::RuleEnds {
        band: bytes[1],
        rank,
    })
}

fn goal(bytes: &[u8]) -> Option<Goal>
    requires whole { 14 ≤ length bytes.now }
    ensures value { result ≡ goal_at bytes.now }
{
    let kind = below(bytes[1], 32)?;
    let values = three(&bytes[2..])?;
    Some(Goal { kind, values })
}

// A field of a record that stands in it three times, one after the other.
trait Field: Copy {
    // How many bytes it has.
    const SIZE: usize;

    ghost SIZE: { ℕ };

    // The field that the bytes begin with, or none where it is out of its range.
    ghost at: { List ℕ → Option Self };

    // The field that the bytes begin with, or none where it is out of its range.
    fn read(bytes: &[u8]) -> Option<Self>
        requires whole { SIZE ≤ length bytes.now }
        ensures value { result ≡ at bytes.now };
}

// The three fields that the bytes begin with.
fn three<F: Field>(bytes: &[u8]) -> Option<[F; 3]>
    requires whole { F.SIZE + F.SIZE + F.SIZE ≤ length bytes.now }
    ensures value { result ≡ three_at F.at F.SIZE bytes.now }
{
    let second = &bytes[F::SIZE..];
    let third = &second[F::SIZE..];
    Some([F::read(bytes)?, F::read(second)?, F::read(third)?])
}

impl Field for Value {
    const SIZE: usize = 4;

    ghost SIZE = { 4 };

    ghost at = { value_at };

    fn read(bytes: &[u8]) -> Option<Value> {
        Some(i32::from_le_bytes(word(bytes)))
    }
}

impl Field for Operand {
    const SIZE: usize = 5;

    ghost SIZE = { 5 };

    ghost at = { operand_at };

    fn read(bytes: &[u8]) -> Option<Operand> {
        match bytes[0] {
            0 => Some(Operand::Constant(i32::from_le_bytes(word(&bytes[1..])))),
            1 => variable(u32::from_le_bytes(word(&bytes[1..]))),
            _ => None,
        }
    }
}

impl Field for WorkingField {
    const SIZE: usize = 11;

    ghost SIZE = { 11 };

    ghost at = { working_at };

    fn read(bytes: &[u8]) -> Option<WorkingField> {
        let operation = operation(bytes[0])?;
        let first = Operand::read(&bytes[1..])?;
        let second = Operand::read(&bytes[6..])?;
        Some(WorkingField {
            operation,
            first,
            second,
        })
    }
}

fn variable(number: u32) -> Option<Operand>
    ensures value { result ≡ variable_of number }
{
    (number < 12).then(|| Operand::Variable(number as u8))
}

// Kept as functions to an Option, here and below: of a byte out of range `fields` gives the one fault.
fn operation(byte: u8) -> Option<Operation>
    ensures value { result ≡ operation_of byte }
{
    match byte {
        0 => Some(Operation::Copy),
        1 => Some(Operation::Sum),
        2 => Some(Operation::Difference),
        _ => None,
    }
}

fn comparator(byte: u8) -> Option<Comparator>
    ensures value { result ≡ comparator_of byte }
{
    match byte {
        0 => Some(Comparator::Equal),
        1 => Some(Comparator::Unequal),
        2 => Some(Comparator::Less),
        3 => Some(Comparator::AtMost),
        _ => None,
    }
}

fn flag(byte: u8) -> Option<bool>
    ensures value { result ≡ flag byte }
{
    match byte {
        0 => Some(false),
        1 => Some(true),
        _ => None,
    }
}

fn below(byte: u8, limit: u8) -> Option<u8>
    ensures value { result ≡ below byte limit }
{
    (byte < limit).then_some(byte)
}

// The four bytes of a number, the lowest first.
fn word(bytes: &[u8]) -> [u8; 4]
    requires whole { 4 ≤ length bytes.now }
    ensures value { result ≡ word_bytes bytes.now }
{
    [bytes[0], bytes[1], bytes[2], bytes[3]]
}
