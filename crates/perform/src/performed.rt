ghost use Rattle.std.specs.Prelude.{◌≡◌, ◌≤◌, [], vec_len, vec_capacity};

use host::host::Host;
use order::order::Order;
use run::open::BlankRoll;
use run::run::Run;
use store::Store;
use tally::answers::Answer;

/// Room for a roll and for the answers to so many calls, claimed before they are made.
#[derive(Drop)]
pub struct Room {
    pub(crate) roll: BlankRoll,
    pub(crate) answers: Vec<Answer>,
    // Kept as a number beside the list: memory may be claimed for more places, and the promise goes by this.
    pub(crate) places: usize,
    ghost empty: { answers.items ≡ [] },
    ghost none: { vec_len answers ≡ 0 },
    ghost room: { places ≤ vec_capacity answers },
}

/// A run after a list of calls, and their answers.
#[derive(Drop)]
pub struct Performed<S: Store, H: Host, O: Order> {
    pub run: Run<S, H, O>,
    pub answers: Vec<Answer>,
}
