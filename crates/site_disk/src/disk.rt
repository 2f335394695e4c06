//! What a disk promises to the layers above it.
//!
//! The trait does not say what a range beyond the end gives; `MemDisk` refuses it.

ghost use Rattle.std.specs.Prelude.{◌≡◌, ◌⊎◌, ◌+◌, ◌≤◌, List, ℕ, length, take, drop, IfOk, OnOk, OnErr};
ghost use Rattle.std.specs.Prelude.{IsTrue, IsFalse};
ghost use Rattle.site_disk.specs.Model.{DiskState, after_write, after_sync, overwritten, IsTorn};
ghost use Rattle.site_disk.specs.Model.{CountsFailure};

use std::alloc::AllocError;

/// The device failed.
#[derive(Clone, Copy, Debug, PartialEq, Eq)]
pub struct DiskFailed;

/// A failed allocation inside a disk is a failure of the device.
impl From<AllocError> for DiskFailed {
    ghost use Rattle.std.specs.Prelude.{⊤};

    ghost from_gives = { λ _ e. ⊤ };

    fn from(_refused: AllocError) -> DiskFailed {
        DiskFailed
    }
}

/// One file. Its clauses are about each state of the model that the disk stands for. They do not say what a
/// range beyond the file's end gives.
pub trait Disk {
    /// The disk stands for this state of the model.
    ghost stands_for: { Self → DiskState → Type 0 };

    /// How many calls have failed.
    ghost failed: { Self → ℕ };

    /// How many calls have failed. At its last value the count stays.
    fn failures(&self) -> u64
        ensures { result ≡ failed self.now };

    /// The file's length as it reads, in bytes.
    fn len(&mut self) -> Result<u64, DiskFailed>
        ensures state { (d : DiskState) → stands_for self.old d → stands_for self.new d }
        ensures len { IfOk result (λ n. (d : DiskState) → stands_for self.old d → n ≡ length d.seen) }
        ensures cause { CountsFailure result (failed self.old) (failed self.new) };

    /// Fills the slice or fails.
    fn read_at(&mut self, at: u64, buf: &mut [u8]) -> Result<(), DiskFailed>
        ensures state { (d : DiskState) → stands_for self.old d → stands_for self.new d }
        ensures read { OnOk result ((d : DiskState) → stands_for self.old d
            → at + length buf.old ≤ length d.seen → buf.new ≡ take (length buf.old) (drop at d.seen)) }
        ensures cause { CountsFailure result (failed self.old) (failed self.new) };

    /// Writes all of the bytes from a place on, or fails and may have written some. They are not synced yet.
    fn write_at(&mut self, at: u64, bytes: &[u8]) -> Result<(), DiskFailed>
        ensures written { OnOk result ((d : DiskState) → stands_for self.old d → at ≤ length d.seen
            → stands_for self.new (after_write d at (length bytes.now) (overwritten d.seen at bytes.now))) }
        ensures torn { OnErr result ((d : DiskState) → stands_for self.old d → at ≤ length d.seen
            → stands_for self.new d ⊎ ((seen : List ℕ) × IsTorn at (length bytes.now) d.seen seen
            × stands_for self.new (after_write d at (length bytes.now) seen))) }
        ensures cause { CountsFailure result (failed self.old) (failed self.new) };

    /// Writes as `write_at` does, to make the file longer before that is needed. A disk without room is no
    /// failure of the device: at `false` some of the bytes may have been written, and no failure is counted.
    fn lengthen(&mut self, at: u64, bytes: &[u8]) -> bool
        ensures written { IsTrue result → (d : DiskState) → stands_for self.old d → at ≤ length d.seen
            → stands_for self.new (after_write d at (length bytes.now) (overwritten d.seen at bytes.now)) }
        ensures torn { IsFalse result → (d : DiskState) → stands_for self.old d → at ≤ length d.seen
            → stands_for self.new d ⊎ ((seen : List ℕ) × IsTorn at (length bytes.now) d.seen seen
            × stands_for self.new (after_write d at (length bytes.now) seen)) }
        ensures uncounted { failed self.new ≡ failed self.old };

    /// Puts all that was written on the disk to stay. A sync that fails counts as no sync.
    fn sync(&mut self) -> Result<(), DiskFailed>
        ensures synced { OnOk result ((d : DiskState) → stands_for self.old d
            → stands_for self.new (after_sync d)) }
        ensures kept { OnErr result ((d : DiskState) → stands_for self.old d → stands_for self.new d) }
        ensures cause { CountsFailure result (failed self.old) (failed self.new) };
}

/// A disk that can be made to fail.
pub trait Armed: Disk {
    /// How many further calls it was armed to let pass.
    ghost armed: { Self → ℕ → Type 0 };

    /// Lets this many further calls pass before it fails.
    fn arm(&mut self, calls: u32)
        ensures state { (d : DiskState) → Self.Disk.stands_for self.old d → Self.Disk.stands_for self.new d }
        ensures failed { Self.Disk.failed self.new ≡ Self.Disk.failed self.old }
        ensures armed { armed self.new calls };
}
