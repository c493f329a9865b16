use crate::refusal::Refusal;
use facts::Id;

/// What a step answers: a rule fired, a rule with fail fired, or nothing waits.
#[derive(Clone, Copy, PartialEq, Eq, Debug)]
pub enum Stepped {
    Fired,
    Failed,
    Final,
}

/// What a look answers: nothing waits, or the due instance, with the refusal of its firing where it
/// would be refused.
// Kept as an enum of its own: `None` in the place of `Final` would not say that nothing waits.
#[derive(Clone, Copy, PartialEq, Eq, Debug)]
pub enum Sight {
    Final,
    Due {
        rule: u8,
        ids: [Id; 4],
        refusal: Option<Refusal>,
    },
}

/// How a run with n ended: n firings were made and none of them failed, or what the last step
/// answered otherwise than fired.
#[derive(Clone, Copy, PartialEq, Eq, Debug)]
pub enum Ending {
    Count,
    Final,
    Failed,
    Refused(Refusal),
}

/// What a run with n answers: the firings that it made, a failing one counted, and how it ended.
#[derive(Clone, Copy, PartialEq, Eq, Debug)]
pub struct Ran {
    pub firings: u32,
    pub ending: Ending,
}
