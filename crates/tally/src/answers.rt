use facts::{Fact, Id};
use meaning::answers::{Ran, Sight, Stepped};
use meaning::refusal::Refusal;

/// What a call answers, under the call's own name; of a choice also what the chosen run held.
#[derive(Clone, Copy, PartialEq, Eq, Debug)]
pub enum Answer {
    HandIn(Result<Id, Refusal>),
    Read(Option<Fact>),
    Look(Result<Sight, Refusal>),
    Step(Result<Stepped, Refusal>),
    Run(Ran),
    ChooseAndFire {
        held: Result<Sight, Refusal>,
        stepped: Result<Stepped, Refusal>,
    },
    ChooseAndLayAside {
        held: Result<Sight, Refusal>,
    },
}
