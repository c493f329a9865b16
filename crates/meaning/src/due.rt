use facts::Id;

/// An instance by its name, the rule's number and the ids in head order, with its rank.
#[derive(Clone, Copy)]
pub struct Due<R> {
    pub rule: u8,
    pub ids: [Id; 4],
    pub rank: R,
}
