//! One entry after the present gate.

ghost use Rattle.std.specs.Prelude.{◌≡◌, ◌+◌, ◌<◌, ◌≤◌, ◌^◌, length, OnOk, OnErr};
ghost use Rattle.site_disk.specs.Model.{DiskState, LeavesOnly, CountsFailure, IsTorn, overwritten};
ghost use Rattle.durable.specs.Append.{IsSettled, IsClosedAt, IsOpenAt, IsAppendedOrNot};

use site_disk::{Disk, DiskFailed};

/// Writes and syncs.
pub(crate) fn write_through<D: Disk>(disk: &mut D, at: u64, bytes: &[u8]) -> Result<(), DiskFailed>
    ensures done { OnOk result ((d : DiskState) → D.stands_for disk.old d → IsSettled d → at ≤ length d.seen
        → (e : DiskState) × D.stands_for disk.new e × LeavesOnly d e (IsTorn at (length bytes.now) d.seen)
        × IsSettled e × (e.seen ≡ overwritten d.seen at bytes.now) × (length e.past ≡ 2 + length d.past)) }
    ensures torn { OnErr result ((d : DiskState) → D.stands_for disk.old d → IsSettled d → at ≤ length d.seen
        → (e : DiskState) × D.stands_for disk.new e × LeavesOnly d e (IsTorn at (length bytes.now) d.seen)
        × IsTorn at (length bytes.now) d.seen e.seen) }
    ensures cause { CountsFailure result (D.failed disk.old) (D.failed disk.new) }
{
    disk.write_at(at, bytes)?;
    disk.sync()
}

/// Writes the bytes after the closed gate, and opens it once they are on the disk.
pub(crate) fn append<D: Disk>(disk: &mut D, gate: u64, bytes: &[u8]) -> Result<(), DiskFailed>
    requires { gate < 2 ^ 63 }
    ensures done { OnOk result ((d : DiskState) → D.stands_for disk.old d → IsSettled d
        → IsClosedAt gate d.seen d.seen
        → (e : DiskState) × D.stands_for disk.new e × LeavesOnly d e (IsAppendedOrNot gate d.seen bytes.now)
        × IsSettled e × IsOpenAt gate d.seen bytes.now e.seen × (length e.past ≡ 4 + length d.past)) }
    ensures torn { OnErr result ((d : DiskState) → D.stands_for disk.old d → IsSettled d
        → IsClosedAt gate d.seen d.seen
        → (e : DiskState) × D.stands_for disk.new e × LeavesOnly d e (IsAppendedOrNot gate d.seen bytes.now)
        × IsAppendedOrNot gate d.seen bytes.now e.seen) }
    ensures cause { CountsFailure result (D.failed disk.old) (D.failed disk.new) }
{
    write_through(disk, gate + 1, bytes)?;
    write_through(disk, gate, &[1])
}
