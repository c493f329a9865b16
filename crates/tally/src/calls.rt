use facts::{Id, Kind, Values};

/// A call on a run, with its arguments. A choice is one call with what is done with the chosen run.
// Kept as an enum and no closure: the promise is on any list of calls, so a call has to be data.
#[derive(Clone, Copy, PartialEq, Eq, Debug)]
pub enum Call {
    HandIn { kind: Kind, values: Values },
    Read(Id),
    Look,
    Step,
    Run(u32),
    ChooseAndFire,
    ChooseAndLayAside,
}
