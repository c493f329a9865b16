use facts::{Kind, Values};

/// A body fact worked out, before it has an id.
// Kept as a type beside `Goal`: that is what a file asks for, this is what a rule has made of it.
#[derive(Clone, Copy, PartialEq, Eq, Debug)]
pub struct Written {
    pub kind: Kind,
    pub values: Values,
}
