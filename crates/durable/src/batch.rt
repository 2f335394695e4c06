//! A batch of entries, which are all on the disk together or not at all.
//!
//! Each put allocates for its own entry. A batch that is open stays open if another one is begun.

ghost use Rattle.std.specs.Prelude.{◌≡◌, ◌⊎◌, ◌↔◌, ◌+◌, ◌<◌, ◌≤◌, ◌^◌, [], IsErrOf, OnOk};
ghost use Rattle.std.specs.Prelude.{OnErr, length, false, true};

use crate::append::append;
use crate::staged::Sealed;
use crate::{Record, RecordFault};
use site_disk::Disk;
use std::alloc::AllocError;

impl<D: Disk> Record<D> {
    ghost use Rattle.durable.specs.Batches.{IsBatchOpen, Begins, Stages, Seals, LeavesBatch};
    ghost use Rattle.durable.specs.Counts.{CountsFault};
    ghost use Rattle.durable.specs.Ready.{IsUnchanged};

    /// Opens a batch. Until it is sealed, a put takes its entry into memory only, and the node may send
    /// nothing that depends on it. A batch that is open stays as it is.
    pub fn begin(&mut self) -> Result<(), RecordFault>
        ensures begun { OnOk result (Begins D.stands_for self.old self.new) }
        ensures open { OnOk result (IsBatchOpen self.new
            × (¬ IsBatchOpen self.old → length self.new.staged.bytes.items ≡ 19)) }
        ensures was_open { IsBatchOpen self.old → (self.new ≡ self.old)
            × (¬ IsErrOf result RecordFault.OutOfMemory) }
        ensures was_stopped { IsErrOf result RecordFault.Stopped ↔ (self.old.stopped ≡ true) }
        ensures others { OnErr result (IsErrOf result RecordFault.Stopped
            ⊎ IsErrOf result RecordFault.OutOfMemory) }
        ensures refused { OnErr result (IsUnchanged self.old self.new) }
        ensures same { self.new ≡ record self.old { staged = self.new.staged } }
    {
        if self.stopped {
            return Err(RecordFault::Stopped);
        }
        self.staged.open()?;
        Ok(())
    }

    /// Puts all of a batch on the disk, and closes it. Without entries it makes no call of the disk, and it
    /// does not allocate. If the device fails, all of the batch is on the disk or none of it: the record
    /// stops, its memory stays ahead of the disk, and only the next opening shows which.
    pub fn seal(&mut self) -> Result<(), RecordFault>
        ensures sealed { OnOk result (Seals D.stands_for self.old self.new) }
        ensures closed { OnOk result ((self.new.staged.bytes.items ≡ []) × (self.new.stopped ≡ false)) }
        ensures none { length self.old.staged.bytes.items ≤ 19 → self.new.disk ≡ self.old.disk }
        ensures cut_short { IsErrOf result RecordFault.Device → LeavesBatch D.stands_for self.old self.new }
        ensures counts { CountsFault RecordFault.Device result
            (D.failed self.old.disk) (D.failed self.new.disk) }
        ensures was_stopped { IsErrOf result RecordFault.Stopped ↔ (self.old.stopped ≡ true) }
        ensures refused { IsErrOf result RecordFault.Stopped → self.new ≡ self.old }
        ensures others { OnErr result (IsErrOf result RecordFault.Stopped
            ⊎ IsErrOf result RecordFault.Device) }
        ensures stops { OnErr result (self.new
            ≡ record self.old { disk = self.new.disk; stopped = true; staged = self.new.staged }) }
        ensures same { self.new ≡ record self.old {
          disk = self.new.disk;
          stopped = self.new.stopped;
          staged = self.new.staged;
          recorded = record self.old.recorded { gate = self.new.recorded.gate };
        } }
    {
        if self.stopped {
            return Err(RecordFault::Stopped);
        }
        if !self.staged.has_entries() {
            self.staged.close();
            return Ok(());
        }
        let base = self.staged.base;
        let Sealed { from, end } = self.staged.seal(self.recorded.gate);
        self.stopped = true;
        append(&mut self.disk, base, &self.staged.bytes[from..])?;
        self.recorded.gate = end;
        self.stopped = false;
        self.staged.close();
        Ok(())
    }

    // Takes an entry's bytes into the batch that is open.
    pub(crate) fn stage(&mut self, bytes: &[u8]) -> Result<(), AllocError>
        requires open { IsBatchOpen self.old }
        requires near { self.old.recorded.gate + length bytes.now < 2 ^ 63 }
        ensures staged { OnOk result (Stages D.stands_for self.old self.new bytes.now) }
        ensures recorded { OnOk result (self.new.recorded
            ≡ record self.old.recorded { gate = self.old.recorded.gate + length bytes.now }) }
        ensures open { IsBatchOpen self.new }
        ensures refused { OnErr result (IsUnchanged self.old self.new) }
        ensures same { self.new ≡ record self.old { recorded = self.new.recorded; staged = self.new.staged } }
    {
        self.staged.push(self.recorded.gate, bytes)?;
        self.recorded.gate += bytes.len() as u64;
        Ok(())
    }
}
