ghost use Rattle.records.specs.Blanks.{operand_blank, working_blank};

use crate::parts::{Operand, Operation, WorkingField};
use facts::positions::Position;

impl Position for Operand {
    ghost blank = { operand_blank };

    fn is_blank(&self) -> bool {
        *self == Operand::Constant(0)
    }
}

impl Position for WorkingField {
    ghost blank = { working_blank };

    fn is_blank(&self) -> bool {
        self.operation == Operation::Copy && self.first.is_blank() && self.second.is_blank()
    }
}
