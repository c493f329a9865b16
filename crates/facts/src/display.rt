use crate::Fact;
use std::fmt;

/// A fact as it is printed: its id, its kind and its three values.
impl fmt::Display for Fact {
    fn fmt<W: fmt::Write>(&self, f: &mut fmt::Formatter<W>) -> fmt::Result {
        let Fact { id, kind, values } = *self;
        let [a, b, c] = values;
        write!(f, "{id} {kind} {a} {b} {c}")
    }
}
