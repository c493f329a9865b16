ghost use Rattle.std.specs.Prelude.{◌≡◌};
ghost use Rattle.meaning.specs.Enumeration.{fires, fired};

use meaning::roll::{Entry, Firing};

/// Whether a firing is on the roll.
pub fn fired(roll: &[Entry], firing: Firing) -> bool
    ensures value { result ≡ fired roll.now firing.rule firing.ids }
{
    roll.iter().any(|entry| fires(firing, *entry))
}

/// Whether an entry of the roll is that firing: the same rule with the same ids in the same order.
pub fn fires(firing: Firing, entry: Entry) -> bool
    ensures value { result ≡ fires firing.rule firing.ids entry }
{
    entry == Entry::Fired(firing)
}
