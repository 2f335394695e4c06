//! Putting one entry more on record.
//!
//! `stopped` is set before the first write, so no exit forgets it. The place of the gate decides `Full`.

ghost use Rattle.std.specs.Prelude.{◌≡◌, ◌⊎◌, ◌↔◌, ℕ, ◌+◌, ◌≤◌, ◌<◌, ◌^◌, IsErrOf, OnOk, OnErr, length};
ghost use Rattle.std.specs.Prelude.{false, true, None};
ghost use Rattle.site_ids.specs.declared.TheConstants.{MAX_RECORD, MAX_VALUE};
ghost use Rattle.site_disk.specs.Model.{CountsFailure};
ghost use Rattle.site_ids.specs.Ids.{IsNode};
ghost use Rattle.site_ids.specs.Spans.{IsSpan, IsInSpan};
ghost use Rattle.acceptor.specs.Judging.{IsFreeBelow, IsFreeAt, IsVotedAt};
ghost use Rattle.durable.specs.Entries.{Round, Promised, PromisedSpan, Voted, Learned};

use crate::append::append;
use crate::spelling::{promise_behind, round_behind, span_behind};
use crate::{Record, RecordFault};
use site_disk::{Disk, DiskFailed};
use site_ids::{Ballot, Instance, Value};

impl<D: Disk> Record<D> {
    ghost use Rattle.durable.specs.Batches.{IsBatchOpen};
    ghost use Rattle.durable.specs.Puts.{Puts, Writes, Appends, BreaksOff};
    ghost use Rattle.durable.specs.Slots.{slot_at, value_at};

    /// Records a round. At `Ok` it is on the disk, or in the batch that is open. Without an open batch it
    /// does not allocate.
    pub fn put_round(&mut self, round: u32) -> Result<(), RecordFault>
        requires { self.old.recorded.round < round }
        ensures put { Puts D.stands_for D.failed self.old self.new (Round round) result }
        ensures no_memory { IsErrOf result RecordFault.OutOfMemory → IsBatchOpen self.old }
    {
        self.check_room(5)?;
        self.write(&round_behind(round))?;
        self.recorded.keep_round(round);
        Ok(())
    }

    /// Records a promise. At `Ok` it is on the disk, or in the batch that is open.
    pub fn put_promise(&mut self, instance: Instance, ballot: Ballot) -> Result<(), RecordFault>
        requires of_cluster { IsNode self.old.cluster ballot.node }
        requires above { IsFreeBelow (slot_at self.old.recorded.slots instance).promised ballot }
        ensures { Puts D.stands_for D.failed self.old self.new (Promised instance ballot) result }
    {
        self.check_room(10)?;
        self.recorded.slots.make_room(instance)?;
        self.write(&promise_behind(instance, ballot))?;
        self.recorded.keep_promise(instance, ballot);
        Ok(())
    }

    /// Records the promise of a span, which raises the promise of at least one of its instances. At `Ok` it
    /// is on the disk, or in the batch that is open.
    pub fn put_promise_span(
        &mut self,
        first: Instance,
        count: u8,
        ballot: Ballot,
    ) -> Result<(), RecordFault>
        requires of_cluster { IsNode self.old.cluster ballot.node }
        requires long { 2 ≤ count }
        requires span { IsSpan first count }
        requires above { (at : ℕ) × IsInSpan first count at
            × IsFreeBelow (slot_at self.old.recorded.slots at).promised ballot }
        ensures { Puts D.stands_for D.failed self.old self.new (PromisedSpan first count ballot) result }
    {
        self.check_room(11)?;
        self.recorded.slots.make_room_for_span(first, count)?;
        self.write(&span_behind(first, count, ballot))?;
        self.recorded.keep_span(first, count, ballot);
        Ok(())
    }

    /// Records a vote. At `Ok` it is on the disk, or in the batch that is open.
    pub fn put_vote(
        &mut self,
        instance: Instance,
        ballot: Ballot,
        value: &Value,
    ) -> Result<(), RecordFault>
        requires of_cluster { IsNode self.old.cluster ballot.node }
        requires free { IsFreeAt (slot_at self.old.recorded.slots instance).promised ballot }
        requires new { ¬ IsVotedAt (slot_at self.old.recorded.slots instance).vote ballot }
        requires fits { length value.now ≤ MAX_VALUE }
        ensures { Puts D.stands_for D.failed self.old self.new (Voted instance ballot value.now) result }
    {
        self.check_room(10 + value.as_bytes().len())?;
        let room = &mut self.recorded.slots;
        let (bytes, vote) = room.room_for_vote(self.alloc, instance, ballot, value)?;
        self.write(&bytes)?;
        self.recorded.keep_vote(instance, vote);
        Ok(())
    }

    /// Records a value as learned, which raises no promise. At `Ok` it is on the disk, or in the batch that
    /// is open.
    pub fn put_learned(&mut self, instance: Instance, value: &Value) -> Result<(), RecordFault>
        requires new { value_at self.old.recorded.slots instance ≡ None }
        requires fits { length value.now ≤ MAX_VALUE }
        ensures { Puts D.stands_for D.failed self.old self.new (Learned instance value.now) result }
    {
        self.check_room(5 + value.as_bytes().len())?;
        let room = &mut self.recorded.slots;
        let (bytes, value) = room.room_for_learned(self.alloc, instance, value)?;
        self.write(&bytes)?;
        self.recorded.keep_learned(instance, value);
        Ok(())
    }

    // Refuses a payload of this size if the record has stopped, or its file would pass its limit.
    fn check_room(&self, payload: usize) -> Result<(), RecordFault>
        ensures was_stopped { IsErrOf result RecordFault.Stopped ↔ (self.now.stopped ≡ true) }
        ensures full { IsErrOf result RecordFault.Full
            ↔ ((self.now.stopped ≡ false) × (MAX_RECORD < self.now.recorded.gate + 6 + payload)) }
        ensures others { OnErr result (IsErrOf result RecordFault.Stopped ⊎ IsErrOf result RecordFault.Full) }
        ensures running { OnOk result ((self.now.stopped ≡ false)
            × (self.now.recorded.gate + 6 + payload ≤ MAX_RECORD)) }
    {
        if self.stopped {
            return Err(RecordFault::Stopped);
        }
        if !self.has_room(payload) {
            return Err(RecordFault::Full);
        }
        Ok(())
    }

    // Writes an entry's bytes after the gate: into the batch that is open, or else to the disk.
    fn write(&mut self, bytes: &[u8]) -> Result<(), RecordFault>
        requires running { self.old.stopped ≡ false }
        requires near { self.old.recorded.gate + length bytes.now < 2 ^ 63 }
        ensures { Writes D.stands_for D.failed self.old self.new bytes.now result }
    {
        if self.staged.is_open() {
            Ok(self.stage(bytes)?)
        } else {
            Ok(self.append(bytes)?)
        }
    }

    // Appends an entry. The record is stopped meanwhile, and stays so after a failure.
    fn append(&mut self, bytes: &[u8]) -> Result<(), DiskFailed>
        requires { self.old.recorded.gate + length bytes.now < 2 ^ 63 }
        ensures done { OnOk result (Appends D.stands_for self.old self.new bytes.now) }
        ensures failed { OnErr result (BreaksOff D.stands_for self.old self.new bytes.now) }
        ensures gate { OnOk result (self.new.recorded
            ≡ record self.old.recorded { gate = self.old.recorded.gate + length bytes.now }) }
        ensures runs { OnOk result (self.new.stopped ≡ false) }
        ensures stops { OnErr result ((self.new.stopped ≡ true) × (self.new.recorded ≡ self.old.recorded)) }
        ensures cause { CountsFailure result (D.failed self.old.disk) (D.failed self.new.disk) }
        ensures whose { (self.new.node ≡ self.old.node) × (self.new.cluster ≡ self.old.cluster) }
        ensures staged { self.new.staged ≡ self.old.staged }
    {
        self.stopped = true;
        append(&mut self.disk, self.recorded.gate, bytes)?;
        self.recorded.gate += bytes.len() as u64;
        self.stopped = false;
        Ok(())
    }
}
