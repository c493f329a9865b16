ghost use Rattle.host.specs.Counts.{is_count, count_says, count_works};
ghost use Rattle.std.proofs.Common.{rules};

use crate::host::Host;
use crate::types::{Cause, Comparator, Working};

/// The host of ordinary numbers: every signed 32-bit number is a value.
#[derive(Clone, Copy)]
pub struct Counts;

impl Host for Counts {
    ghost value = { λ _ n. is_count n };

    ghost says = { λ _ c a b. count_says c a b };

    ghost works = { λ _ w. count_works w };

    ghost closed = { Prim.search rules };

    fn is_value(&self, _n: i32) -> bool {
        true
    }

    fn compare(&self, c: Comparator, a: i32, b: i32) -> bool {
        match c {
            Comparator::Equal => a == b,
            Comparator::Unequal => a != b,
            Comparator::Less => a < b,
            Comparator::AtMost => a <= b,
        }
    }

    fn work(&self, w: Working<i32>) -> Result<i32, Cause> {
        match w {
            Working::Copy(a) => Ok(a),
            Working::Sum(a, b) => a.checked_add(b).ok_or(Cause::Outcome),
            Working::Difference(a, b) => a.checked_sub(b).ok_or(Cause::Outcome),
        }
    }
}
