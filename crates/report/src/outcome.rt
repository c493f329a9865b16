ghost use Rattle.std.specs.Prelude.{◌≡◌};
ghost use Rattle.report.specs.Outcomes.{refused_reading, refused_hand_in, refused_firing, outcome_of};

use meaning::answers::Ending;
use meaning::refusal::{Numbers, Refusal};
use std::fmt;
use week::week::At;

/// A refusal as it is printed: its number, the place or the rule, body fact, working and cause.
// Kept beside `Numbers`, and as numbers: a place may be a byte of a file, and so the line is printed.
#[derive(Clone, Copy, PartialEq, Eq, Debug)]
pub struct Refused {
    pub number: u8,
    pub place: usize,
    pub fact: u8,
    pub working: u8,
    pub cause: u8,
}

/// How a run ended.
// Kept beside `Ending`: a run to its end does not end by count, and its refusal is one that is printed.
#[derive(Clone, Copy, PartialEq, Eq, Debug)]
pub enum Outcome {
    Final,
    Failed,
    Refused(Refused),
}

/// The refusal of a record, with its place.
impl From<At> for Refused {
    ghost from_gives = { λ at refused. refused ≡ refused_reading at };

    fn from(at: At) -> Refused {
        Refused {
            number: at.fault.into(),
            place: at.place,
            fact: 0,
            working: 0,
            cause: 0,
        }
    }
}

/// The refusal of a firing, with its rule.
impl From<Refusal> for Refused {
    ghost from_gives = { λ refusal refused. refused ≡ refused_firing refusal };

    fn from(refusal: Refusal) -> Refused {
        let numbers = Numbers::from(refusal);
        Refused {
            number: numbers.number,
            place: usize::from(numbers.rule),
            fact: numbers.fact,
            working: numbers.working,
            cause: numbers.cause,
        }
    }
}

/// The refusal of a goal fact, with the place of its record.
pub fn of_hand_in(place: usize, refusal: Refusal) -> Refused
    ensures value { result ≡ refused_hand_in place refusal }
{
    Refused {
        place,
        ..Refused::from(refusal)
    }
}

/// How a run ended that was to go on to its end. That it ends by count is not possible, since it was
/// allowed more firings than a roll has places.
impl From<Ending> for Outcome {
    ghost from_gives = { λ ending outcome. outcome ≡ outcome_of ending };

    fn from(ending: Ending) -> Outcome {
        match ending {
            Ending::Count | Ending::Final => Outcome::Final,
            Ending::Failed => Outcome::Failed,
            Ending::Refused(refusal) => Outcome::Refused(refusal.into()),
        }
    }
}

impl fmt::Display for Refused {
    fn fmt<W: fmt::Write>(&self, f: &mut fmt::Formatter<W>) -> fmt::Result {
        let Refused {
            number,
            place,
            fact,
            working,
            cause,
        } = *self;
        write!(f, "refused {number} {place} {fact} {working} {cause}")
    }
}

impl fmt::Display for Outcome {
    fn fmt<W: fmt::Write>(&self, f: &mut fmt::Formatter<W>) -> fmt::Result {
        match self {
            Outcome::Final => write!(f, "final"),
            Outcome::Failed => write!(f, "failed"),
            Outcome::Refused(refused) => write!(f, "{refused}"),
        }
    }
}
