ghost use Rattle.std.specs.Prelude.{◌≡◌};
ghost use Rattle.std.specs.Option.{ok_or};
ghost use Rattle.records.specs.Bytes.{record_kind, size};
ghost use Rattle.records.specs.declared.fault.Fault.TheVariants as fault_of;

use crate::fault::Fault;
use crate::parts::{BodyField, Goal, Guard, Head, Operand};
use facts::Kind;

/// The eight kinds of record.
#[derive(Clone, Copy, PartialEq, Eq, Debug)]
pub enum RecordKind {
    FactKind,
    RuleBegins,
    Head,
    Guard,
    BodyFact,
    Fail,
    RuleEnds,
    GoalFact,
}

/// The longest record, in bytes.
pub const LONGEST_RECORD: usize = 35;

impl TryFrom<u8> for RecordKind {
    type Error = Fault;

    // The kind of record that a kind byte begins.
    ghost try_from_gives = { λ byte kind. kind ≡ ok_or (record_kind byte) fault_of.UnknownKindByte };

    fn try_from(byte: u8) -> Result<RecordKind, Fault> {
        match byte {
            0x01 => Ok(RecordKind::FactKind),
            0x02 => Ok(RecordKind::RuleBegins),
            0x03 => Ok(RecordKind::Head),
            0x04 => Ok(RecordKind::Guard),
            0x05 => Ok(RecordKind::BodyFact),
            0x06 => Ok(RecordKind::Fail),
            0x07 => Ok(RecordKind::RuleEnds),
            0x08 => Ok(RecordKind::GoalFact),
            _ => Err(Fault::UnknownKindByte),
        }
    }
}

impl RecordKind {
    /// How many bytes a record of this kind has, the kind byte counted.
    pub fn size(self) -> usize
        ensures value { result ≡ size self }
    {
        match self {
            RecordKind::FactKind => 3,
            RecordKind::RuleBegins => 1,
            RecordKind::Head => 18,
            RecordKind::Guard => 12,
            RecordKind::BodyFact => 35,
            RecordKind::Fail => 1,
            RecordKind::RuleEnds => 7,
            RecordKind::GoalFact => 14,
        }
    }
}

/// A record with its fields, each within its range.
#[derive(Clone, Copy)]
pub enum Record {
    FactKind { number: Kind, arity: u8 },
    RuleBegins,
    Head(Head),
    Guard(Guard),
    BodyFact(BodyField),
    Fail,
    RuleEnds { band: u8, rank: Operand },
    GoalFact(Goal),
}
