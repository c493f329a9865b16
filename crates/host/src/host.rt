ghost use Rattle.std.specs.Prelude.{◌≡◌, Bool, true, ℤ, Ok, Result};
ghost use Rattle.host.specs.declared.types.Comparator.{Comparator};
ghost use Rattle.host.specs.declared.types.Working.{Working};
ghost use Rattle.host.specs.declared.types.Cause.{Cause};

use crate::types::{Cause, Comparator, Working};

/// What a run may ask about numbers; the answers depend on the arguments alone.
pub trait Host {
    // Which numbers are values.
    ghost value: { Self → ℤ → Bool };

    // Yes or no to a comparator and two numbers.
    ghost says: { Self → Comparator → ℤ → ℤ → Bool };

    // A value for a working, or the cause why there is none.
    ghost works: { Self → Working ℤ → Result ℤ Cause };

    /// Whether n is a value.
    fn is_value(&self, n: i32) -> bool
        ensures value { result ≡ value self.now n };

    /// Yes or no to a comparator and two numbers.
    fn compare(&self, c: Comparator, a: i32, b: i32) -> bool
        ensures value { result ≡ says self.now c a b };

    /// The value of a working, or the cause why there is none.
    fn work(&self, w: Working<i32>) -> Result<i32, Cause>
        ensures value { result ≡ works self.now w };

    // What is worked out is a value.
    ghost closed: { (h : Self) (w : Working ℤ) (n : ℤ) → works h w ≡ Ok n → value h n ≡ true };
}
