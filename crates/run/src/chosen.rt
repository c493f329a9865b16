use crate::run::Run;
use host::host::Host;
use meaning::answers::Sight;
use meaning::refusal::Refusal;
use order::order::Order;
use store::Store;

/// A run in which the next posting is held: what look answered when it was chosen.
///
/// Beside saying what it holds, it knows two calls only, fire and lay aside, and one of them has to be
/// made: it can be neither copied nor let go.
pub struct Chosen<S: Store, H: Host, O: Order> {
    pub(crate) run: Run<S, H, O>,
    pub(crate) held: Result<Sight, Refusal>,
}
