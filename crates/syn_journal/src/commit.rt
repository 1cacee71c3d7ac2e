//! The device calls that put something after a closed gate and then open the gate.
ghost use Rattle.std.specs.Prelude.{◌≡◌, ◌≤◌, ◌+◌, ◌∷◌, [], length, OnOk};
ghost use Rattle.syn_disk.specs.Calls.{MakesUpTo};
ghost use Rattle.syn_disk.specs.Disk.{Only, overwritten, CountsFailure};
ghost use Rattle.syn_disk.specs.Stops.{LeavesOnly};
ghost use Rattle.syn_journal.specs.inner.Commit.{IsStagedOrOpened};
ghost use Rattle.syn_journal.specs.Layout.{open_gate};

use crate::layout::OPEN_GATE;
use syn_disk::{DISK_SIZE, DeviceFailed, Disk};

/// Writes `body` after the gate, syncs, opens the gate, and syncs.
pub fn commit<D: Disk>(disk: &mut D, gate: usize, body: &[u8]) -> Result<(), DeviceFailed>
    requires within { gate + 1 + length body.now ≤ DISK_SIZE }

    // At Ok both are on the disk.
    ensures written { OnOk result
        (D.seen disk.new
        ≡ overwritten (overwritten (D.seen disk.old) (gate + 1) body.now) gate (open_gate ∷ [])) }
    ensures durable { OnOk result (Only (D.seen disk.new) (D.may_leave disk.new)) }

    // A stop at any moment leaves any bytes after the untouched gate, or any gate before the body.
    ensures any_moment { Only (D.seen disk.old) (D.may_leave disk.old)
        → LeavesOnly D.moment D.left_since disk.old disk.new
        (IsStagedOrOpened (D.seen disk.old) gate body.now) }

    ensures count { CountsFailure result (D.failures disk.old) (D.failures disk.new) }
    ensures calls { MakesUpTo 4 result (D.arms disk.old) (D.arms disk.new) }
{
    disk.write(gate + 1, body)?;
    disk.sync()?;
    disk.write(gate, &[OPEN_GATE])?;
    disk.sync()
}
