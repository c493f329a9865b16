ghost use Rattle.std.specs.Prelude.{◌≡◌};
ghost use Rattle.records.specs.Faults.{fault_number};
ghost use Rattle.records.specs.declared.fault.Fault.TheVariants as fault_of;

use few::Full;

/// Why a record of a week file is refused; the variant nearest the top decides.
#[derive(Clone, Copy, PartialEq, Eq, Debug)]
pub enum Fault {
    UnknownKindByte,
    Cut,
    MayNotFollow,
    OutOfRange,
    DeclaredTwice,
    NotDeclared,
    UnusedFilled,
    Unbound,
    TooMany,
    RuleOpen,
}

impl From<Fault> for u8 {
    // The number that a fault goes by.
    ghost from_gives = { λ fault number. number ≡ fault_number fault };

    fn from(fault: Fault) -> u8 {
        match fault {
            Fault::UnknownKindByte => 2,
            Fault::Cut => 3,
            Fault::MayNotFollow => 4,
            Fault::OutOfRange => 5,
            Fault::DeclaredTwice => 6,
            Fault::NotDeclared => 7,
            Fault::UnusedFilled => 8,
            Fault::Unbound => 9,
            Fault::TooMany => 10,
            Fault::RuleOpen => 11,
        }
    }
}

impl From<Full> for Fault {
    // One part more than a rule has places for.
    ghost from_gives = { λ _ fault. fault ≡ fault_of.TooMany };

    fn from(_full: Full) -> Self {
        Self::TooMany
    }
}
