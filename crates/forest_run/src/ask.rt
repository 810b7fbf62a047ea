// How the host of an attempt is asked, place after place.
ghost use Rattle.std.specs.Prelude.{◌≡◌, ℕ, ◌+◌, ◌≤◌, OnOk, OnErr};
ghost use Rattle.outside.specs.Accounts.{Account};
ghost use Rattle.crew.specs.Drills.{attempt_at};
ghost use Rattle.crew.specs.Attempts.{StoppedDown};
ghost use Rattle.forest_run.specs.inner.Asking.{LetThrough};

use crew::Spot;
use outside::{Down, Host};

/// Asks the host for the places from `from` on below `to`, in order.
pub(crate) fn ask_all<H: Host>(
    host: &mut H,
    spot: &Spot,
    task: u32,
    from: u64,
    to: u64,
) -> Result<(), Down>
    requires { from ≤ to }
    ensures all { OnOk result ((a : Account) → LetThrough (attempt_at spot.now task) from a
        (H.account host.old) → LetThrough (attempt_at spot.now task) to a (H.account host.new)) }
    ensures down { OnErr result ((a : Account) (places : ℕ) → to ≤ places + 1 → LetThrough
        (attempt_at spot.now task) from a (H.account host.old) → StoppedDown
        (attempt_at spot.now task) places a (H.account host.new)) }
{
    for place in from..to {
        spot.ask(host, task, place)?;
    }
    Ok(())
}
