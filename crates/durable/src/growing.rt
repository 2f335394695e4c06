//! A file that is longer than what it records.
//!
//! A sync after a write that makes the file longer also writes the file system's journal. So a record's file
//! grows before that is needed, and a batch is written over zeros.

ghost use Rattle.std.specs.Prelude.{◌≡◌, ◌⊎◌, ◌↔◌, true, false, IsTrue, IfOk, OnErr, IsErrOf, OnOk};
ghost use Rattle.std.specs.Prelude.{replicate};
ghost use Rattle.site_disk.specs.Model.{DiskState, LeavesOnly, CountsFailure};
ghost use Rattle.durable.specs.Append.{IsSettled};
ghost use Rattle.durable.specs.Counts.{CountsFault};
ghost use Rattle.durable.specs.Growing.{GoesOnAs, with_zeros, length_for};

use crate::{Record, RecordFault};
use site_disk::{Disk, DiskFailed};
use site_ids::MAX_RECORD;
use std::alloc::{AllocError, Global};

/// This many zeros.
fn zeros(alloc: Global, count: usize) -> Result<Vec<u8>, AllocError>
    ensures { IfOk result (λ bytes. bytes.items ≡ replicate count 0) }
{
    let mut bytes = Vec::new(alloc);
    bytes.resize(count, 0u8)?;
    Ok(bytes)
}

/// Writes zeros after the end of the file up to this length, and syncs. Returns `false` if there is no room
/// for all of them, on the disk or in memory.
fn lengthen<D: Disk>(alloc: Global, disk: &mut D, size: u64) -> Result<bool, DiskFailed>
    ensures done { IfOk result (λ there. (d : DiskState) → D.stands_for disk.old d → IsSettled d
        → (e : DiskState) × D.stands_for disk.new e × IsSettled e × LeavesOnly d e (GoesOnAs d.seen)
        × GoesOnAs d.seen e.seen × (IsTrue there → e.seen ≡ with_zeros d.seen size)) }
    ensures broken { OnErr result ((d : DiskState) → D.stands_for disk.old d → IsSettled d
        → (e : DiskState) × D.stands_for disk.new e × LeavesOnly d e (GoesOnAs d.seen)
        × GoesOnAs d.seen e.seen) }
    ensures cause { CountsFailure result (D.failed disk.old) (D.failed disk.new) }
{
    let len = disk.len()?;
    let missing = size.saturating_sub(len) as usize;
    if missing == 0 {
        return Ok(true);
    }
    let Ok(zeros) = zeros(alloc, missing) else {
        return Ok(false);
    };
    let whole = disk.lengthen(len, &zeros);
    disk.sync()?;
    Ok(whole)
}

impl<D: Disk> Record<D> {
    ghost use Rattle.durable.specs.Batches.{IsBatchOpen};
    ghost use Rattle.durable.specs.Growing.{Grows, KeepsAll};

    /// Makes the file reach `room` bytes past the gate, and returns whether it does. Missing bytes are
    /// written as zeros, and synced. The record's entries stay as they are, also after a crash at any moment.
    ///
    /// If the disk or memory has no room, that is no fault: the result is `false`. It is also `false` while a
    /// batch is open. If the device fails, the record stops.
    pub fn grow(&mut self, room: u64) -> Result<bool, RecordFault>
        ensures grown { IfOk result (λ there.
            Grows D.stands_for self.old self.new (length_for self.old.recorded.gate room) there) }
        ensures counts { CountsFault RecordFault.Device result
            (D.failed self.old.disk) (D.failed self.new.disk) }
        ensures batched { IsBatchOpen self.old → (self.new ≡ self.old) × ¬ IsErrOf result RecordFault.Device
            × IfOk result (λ there. ¬ IsTrue there) }
        ensures failed { IsErrOf result RecordFault.Device → KeepsAll D.stands_for self.old self.new
            × (self.old.stopped ≡ false) × (self.new.stopped ≡ true) }
        ensures was_stopped { IsErrOf result RecordFault.Stopped ↔ (self.old.stopped ≡ true) }
        ensures refused { IsErrOf result RecordFault.Stopped → self.new ≡ self.old }
        ensures others { OnErr result (IsErrOf result RecordFault.Stopped
            ⊎ IsErrOf result RecordFault.Device) }
        ensures running { OnOk result ((self.old.stopped ≡ false) × (self.new.stopped ≡ false)) }
        ensures same { self.new ≡ record self.old { disk = self.new.disk; stopped = self.new.stopped } }
    {
        if self.stopped {
            return Err(RecordFault::Stopped);
        }
        if self.staged.is_open() {
            return Ok(false);
        }
        let size = self.recorded.gate.saturating_add(room).min(MAX_RECORD);
        self.stopped = true;
        let there = lengthen(self.alloc, &mut self.disk, size)?;
        self.stopped = false;
        Ok(there)
    }
}
