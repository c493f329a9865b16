ghost use Rattle.std.specs.Prelude.{◌≡◌};
ghost use Rattle.host.specs.Causes.{cause_number};
ghost use Rattle.host.specs.Workings.{ForOperands, Mapped, Passed};

/// How a guard compares two numbers.
#[derive(Clone, Copy, PartialEq, Eq, Debug)]
pub enum Comparator {
    Equal,
    Unequal,
    Less,
    AtMost,
}

/// How a value is worked out from operands of a kind T.
#[derive(Clone, Copy, PartialEq, Eq, Debug)]
pub enum Working<T> {
    Copy(T),
    Sum(T, T),
    Difference(T, T),
}

impl<T: Copy> Working<T> {
    /// The same working of what f makes of each operand. It asks that f may be called with each.
    pub fn map<U, F: Fn(T) -> U>(self, f: F) -> Working<U>
        requires { ForOperands (F.pre f) self }
        ensures { Mapped (F.post f) self result }
    {
        match self {
            Working::Copy(a) => Working::Copy(f(a)),
            Working::Sum(a, b) => Working::Sum(f(a), f(b)),
            Working::Difference(a, b) => Working::Difference(f(a), f(b)),
        }
    }

    /// Whether each operand passes a test. It asks that the test may be called with each.
    pub fn all<F: Fn(T) -> bool>(self, test: F) -> bool
        requires { ForOperands (F.pre test) self }
        ensures { Passed (F.post test) self result }
    {
        match self {
            Working::Copy(a) => test(a),
            Working::Sum(a, b) | Working::Difference(a, b) => test(a) && test(b),
        }
    }
}

/// Why a host has no value for a working.
#[derive(Clone, Copy, PartialEq, Eq, Debug)]
pub enum Cause {
    /// An operand used is not a value.
    Operand,
    /// The result is not a value.
    Outcome,
}

/// The number that a cause goes by.
impl From<Cause> for u8 {
    ghost from_gives = { λ cause number. number ≡ cause_number cause };

    fn from(cause: Cause) -> u8 {
        match cause {
            Cause::Operand => 1,
            Cause::Outcome => 2,
        }
    }
}
