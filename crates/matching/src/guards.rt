ghost use Rattle.std.specs.Prelude.{◌≡◌};
ghost use Rattle.facts.specs.Positions.{all};
ghost use Rattle.matching.specs.Parts.{yes};

use crate::env::{Env, worth};
use host::host::Host;
use records::parts::Guard;

/// Whether the host says yes to every guard.
pub fn applicable<H: Host>(host: &H, guards: &[Guard], env: Env) -> bool
    ensures value { result ≡ all (yes (H.Host.says host.now) env) guards.now }
{
    // Kept as a loop by index, a required form: guards go by their index while instances are sought.
    for i in 0..guards.len() {
        if !says_yes(host, guards[i], env) {
            return false;
        }
    }
    true
}

/// Whether the host says yes to a guard.
pub fn says_yes<H: Host>(host: &H, guard: Guard, env: Env) -> bool
    ensures value { result ≡ yes (H.Host.says host.now) env guard }
{
    host.compare(
        guard.comparator,
        worth(env, guard.left),
        worth(env, guard.right),
    )
}
