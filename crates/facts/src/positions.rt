ghost use Rattle.std.specs.Prelude.{◌≡◌, Bool};
ghost use Rattle.facts.specs.Positions.{all, unused_clear, is_zero};

use crate::Value;

/// One of the three positions of a fact, a head or a body fact.
pub trait Position {
    // Whether it holds what an unused position must hold.
    ghost blank: { Self → Bool };

    /// Whether it holds what an unused position must hold.
    fn is_blank(&self) -> bool
        ensures value { result ≡ blank self.now };
}

impl Position for Value {
    ghost blank = { is_zero };

    fn is_blank(&self) -> bool {
        *self == 0
    }
}

/// Whether every position at or above the arity is blank.
pub fn unused_clear<P: Position>(arity: u8, positions: &[P]) -> bool
    ensures value { result ≡ unused_clear P.Position.blank arity positions.now }
{
    positions.iter().skip(usize::from(arity)).all(P::is_blank)
}
