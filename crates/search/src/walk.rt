use facts::Id;
use few::Few;
use host::host::Host;
use matching::env::Env;
use matching::grounds::Grounds;
use order::order::Order;
use rules::Rule;
use store::Store;

mod advance;
pub mod over;

/// A rule to be searched, with its number, and what the search goes by.
#[derive(Drop)]
pub struct RuleSearch<'a, S: Store, H: Host, O: Order> {
    pub grounds: &'a Grounds<'a, S, H, O>,
    pub number: u8,
    pub rule: &'a Rule,
}

/// Where the search stands at one head: the partners chosen for the heads before it, their
/// bindings, and the id from which it looks on.
#[derive(Clone, Copy)]
pub struct Level {
    pub ids: [Id; 4],
    pub env: Env,
    pub from: Id,
}

/// Where the search stands in a rule: one level for each head that has been reached, the deepest last.
pub type Walk = Few<Level, 4>;
