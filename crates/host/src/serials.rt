ghost use Rattle.std.specs.Prelude.{◌≡◌, true, ◌&&◌, ◌-ℤ◌};
ghost use Rattle.host.specs.Serials.{is_serial, modulo, ahead, serial_says, serial_works};
ghost use Rattle.std.proofs.Common.{rules};

use crate::host::Host;
use crate::types::{Cause, Comparator, Working};

/// The host of numbers that come round: 0 to 999,999 are values, and 0 follows 999,999.
#[derive(Clone, Copy)]
pub struct Serials;

// How many serials there are.
const ROUND: i32 = 1_000_000;

// How far ahead a serial may lie and still come after.
const REACH: i32 = 499_999;

fn is_serial(n: i32) -> bool
    ensures value { result ≡ is_serial n }
{
    (0..ROUND).contains(&n)
}

fn are_serials(a: i32, b: i32) -> bool
    ensures value { result ≡ (is_serial a && is_serial b) }
{
    is_serial(a) && is_serial(b)
}

// How many steps on from a serial a the serial b lies.
fn steps(a: i32, b: i32) -> i32
    requires { (is_serial a && is_serial b) ≡ true }
    ensures value { result ≡ modulo (b -ℤ a) }
{
    (b - a).rem_euclid(ROUND)
}

// Whether b comes after a, of two serials.
fn is_ahead(a: i32, b: i32) -> bool
    requires { (is_serial a && is_serial b) ≡ true }
    ensures value { result ≡ ahead a b }
{
    (1..=REACH).contains(&steps(a, b))
}

impl Host for Serials {
    ghost value = { λ _ n. is_serial n };

    ghost says = { λ _ c a b. serial_says c a b };

    ghost works = { λ _ w. serial_works w };

    ghost closed = { Prim.search rules };

    fn is_value(&self, n: i32) -> bool {
        is_serial(n)
    }

    fn compare(&self, c: Comparator, a: i32, b: i32) -> bool {
        match c {
            Comparator::Equal => a == b,
            Comparator::Unequal => a != b,
            Comparator::Less => are_serials(a, b) && is_ahead(a, b),
            Comparator::AtMost => are_serials(a, b) && (a == b || is_ahead(a, b)),
        }
    }

    fn work(&self, w: Working<i32>) -> Result<i32, Cause> {
        if !w.all(is_serial) {
            return Err(Cause::Operand);
        }
        Ok(match w {
            Working::Copy(a) => a,
            Working::Sum(a, b) => (a + b).rem_euclid(ROUND),
            Working::Difference(a, b) => (a - b).rem_euclid(ROUND),
        })
    }
}
