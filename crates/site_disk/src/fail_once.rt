//! A disk of which one call fails.

ghost use Rattle.std.specs.Prelude.{◌≡◌, ◌⊎◌, ◌↔◌, ◌+◌, ◌≤◌, List, ℕ, length, take, drop, None, Some, IfOk};
ghost use Rattle.std.specs.Prelude.{OnOk, OnErr, IsTrue, IsFalse};
ghost use Rattle.site_disk.specs.Model.{DiskState, after_write, after_sync, overwritten, IsTorn};
ghost use Rattle.site_disk.specs.Model.{CountsFailure};
ghost use Rattle.site_disk.specs.Once.{after_next};

use crate::count::counted;
use crate::{Armed, Disk, DiskFailed};

/// A disk over another one. Once armed, it lets some calls pass and fails the next one, which does nothing.
/// After that it is not armed.
#[derive(Drop)]
pub struct FailOnce<D> {
    disk: D,
    left: Option<u32>,
    failures: u64,
}

// Whether this call is the one that fails. It counts the call.
fn is_due(left: &mut Option<u32>) -> bool
    ensures due { IsTrue result ↔ (left.old ≡ Some 0) }
    ensures counts { left.new ≡ after_next left.old }
{
    match *left {
        None => false,
        Some(0) => {
            *left = None;
            true
        }
        Some(calls) => {
            *left = Some(calls - 1);
            false
        }
    }
}

impl<D: Disk> FailOnce<D> {
    /// The disk is not armed.
    pub fn new(disk: D) -> Self
        ensures { result ≡ record { disk = disk; left = None; failures = 0 } }
    {
        FailOnce {
            disk,
            left: None,
            failures: 0,
        }
    }

    pub fn into_inner(self) -> D
        ensures { result ≡ self.disk }
    {
        let FailOnce {
            disk,
            left: _,
            failures: _,
        } = self;
        disk
    }
}

impl<D: Disk> Disk for FailOnce<D> {
    ghost use Rattle.site_disk.specs.Once.{IsOneCall};

    ghost stands_for = { λ f d. D.stands_for f.disk d };

    ghost failed = { λ f. f.failures };

    fn failures(&self) -> u64 {
        self.failures
    }

    fn len(&mut self) -> Result<u64, DiskFailed>
        ensures state { (d : DiskState) → D.stands_for self.old.disk d → D.stands_for self.new.disk d }
        ensures len { IfOk result (λ n. (d : DiskState) → D.stands_for self.old.disk d → n ≡ length d.seen) }
        ensures cause { CountsFailure result self.old.failures self.new.failures }
        ensures once { IsOneCall D.failed self.old self.new result }
    {
        let answer = if is_due(&mut self.left) {
            Err(DiskFailed)
        } else {
            self.disk.len()
        };
        counted(answer, &mut self.failures)
    }

    fn read_at(&mut self, at: u64, buf: &mut [u8]) -> Result<(), DiskFailed>
        ensures state { (d : DiskState) → D.stands_for self.old.disk d → D.stands_for self.new.disk d }
        ensures read { OnOk result ((d : DiskState) → D.stands_for self.old.disk d
            → at + length buf.old ≤ length d.seen → buf.new ≡ take (length buf.old) (drop at d.seen)) }
        ensures cause { CountsFailure result self.old.failures self.new.failures }
        ensures once { IsOneCall D.failed self.old self.new result }
        ensures unread { self.old.left ≡ Some 0 → buf.new ≡ buf.old }
    {
        let answer = if is_due(&mut self.left) {
            Err(DiskFailed)
        } else {
            self.disk.read_at(at, buf)
        };
        counted(answer, &mut self.failures)
    }

    fn write_at(&mut self, at: u64, bytes: &[u8]) -> Result<(), DiskFailed>
        ensures written { OnOk result ((d : DiskState) → D.stands_for self.old.disk d → at ≤ length d.seen
            → D.stands_for self.new.disk
            (after_write d at (length bytes.now) (overwritten d.seen at bytes.now))) }
        ensures torn { OnErr result ((d : DiskState) → D.stands_for self.old.disk d → at ≤ length d.seen
            → D.stands_for self.new.disk d
            ⊎ ((seen : List ℕ) × IsTorn at (length bytes.now) d.seen seen
            × D.stands_for self.new.disk (after_write d at (length bytes.now) seen))) }
        ensures cause { CountsFailure result self.old.failures self.new.failures }
        ensures once { IsOneCall D.failed self.old self.new result }
    {
        let answer = if is_due(&mut self.left) {
            Err(DiskFailed)
        } else {
            self.disk.write_at(at, bytes)
        };
        counted(answer, &mut self.failures)
    }

    fn lengthen(&mut self, at: u64, bytes: &[u8]) -> bool
        ensures written { IsTrue result → (d : DiskState) → D.stands_for self.old.disk d → at ≤ length d.seen
            → D.stands_for self.new.disk
            (after_write d at (length bytes.now) (overwritten d.seen at bytes.now)) }
        ensures torn { IsFalse result → (d : DiskState) → D.stands_for self.old.disk d → at ≤ length d.seen
            → D.stands_for self.new.disk d
            ⊎ ((seen : List ℕ) × IsTorn at (length bytes.now) d.seen seen
            × D.stands_for self.new.disk (after_write d at (length bytes.now) seen)) }
        ensures uncounted { (self.new.failures ≡ self.old.failures)
            × (D.failed self.new.disk ≡ D.failed self.old.disk) }
        ensures left { self.new.left ≡ after_next self.old.left }
        ensures due { self.old.left ≡ Some 0 → IsFalse result × (self.new.disk ≡ self.old.disk) }
    {
        !is_due(&mut self.left) && self.disk.lengthen(at, bytes)
    }

    fn sync(&mut self) -> Result<(), DiskFailed>
        ensures synced { OnOk result ((d : DiskState) → D.stands_for self.old.disk d
            → D.stands_for self.new.disk (after_sync d)) }
        ensures kept { OnErr result ((d : DiskState) → D.stands_for self.old.disk d
            → D.stands_for self.new.disk d) }
        ensures cause { CountsFailure result self.old.failures self.new.failures }
        ensures once { IsOneCall D.failed self.old self.new result }
    {
        let answer = if is_due(&mut self.left) {
            Err(DiskFailed)
        } else {
            self.disk.sync()
        };
        counted(answer, &mut self.failures)
    }
}

impl<D: Disk> Armed for FailOnce<D> {
    ghost armed = { λ f calls. f.left ≡ Some calls };

    fn arm(&mut self, calls: u32) {
        self.left = Some(calls);
    }
}
