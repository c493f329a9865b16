ghost use Rattle.std.specs.Prelude.{◌≡◌};
ghost use Rattle.records.specs.Workings.{working_of};

use facts::{Kind, Value, Values};
use host::types::{Comparator, Working};

/// A constant, or the number of a variable, 0 to 11.
#[derive(Clone, Copy, PartialEq, Eq, Debug)]
pub enum Operand {
    Constant(Value),
    Variable(u8),
}

/// What a head asks of a fact, and whether a firing takes it.
#[derive(Clone, Copy)]
pub struct Head {
    pub taken: bool,
    pub kind: Kind,
    pub operands: [Operand; 3],
}

/// A question that the host has to answer with yes.
#[derive(Clone, Copy)]
pub struct Guard {
    pub comparator: Comparator,
    pub left: Operand,
    pub right: Operand,
}

/// How the file says that a value is worked out.
#[derive(Clone, Copy, PartialEq, Eq, Debug)]
pub enum Operation {
    Copy,
    Sum,
    Difference,
}

/// A working as the file has it: a copy has a second operand too, which is unused.
#[derive(Clone, Copy)]
pub struct WorkingField {
    pub operation: Operation,
    pub first: Operand,
    pub second: Operand,
}

impl From<WorkingField> for Working<Operand> {
    // The working without the operand that a copy does not use.
    ghost from_gives = { λ field working. working ≡ working_of field };

    fn from(field: WorkingField) -> Working<Operand> {
        match field.operation {
            Operation::Copy => Working::Copy(field.first),
            Operation::Sum => Working::Sum(field.first, field.second),
            Operation::Difference => Working::Difference(field.first, field.second),
        }
    }
}

/// A fact that a firing writes, as the file has it.
#[derive(Clone, Copy)]
pub struct BodyField {
    pub kind: Kind,
    pub workings: [WorkingField; 3],
}

/// A goal fact: a kind and three values to hand in.
#[derive(Clone, Copy)]
pub struct Goal {
    pub kind: Kind,
    pub values: Values,
}
