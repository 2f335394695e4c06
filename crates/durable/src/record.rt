//! The record of a node over a disk.
//!
//! Callers have to pass ballots whose node is of the `cluster`. No test reaches 4,294,967,295 bytes;
//! `Puts.full` says what happens there.

ghost use Rattle.std.specs.Prelude.{◌≡◌, ◌↔◌, ◌⊎◌, ◌+◌, ◌≤◌, ◌∷◌, ◌++◌, [], List, Option};
ghost use Rattle.std.specs.Prelude.{option_copied, IsTrue, OnOk, IfOk, IfErr, false};
ghost use Rattle.site_disk.specs.Model.{DiskState, after_sync};
ghost use Rattle.durable.specs.Append.{IsSettled};
ghost use Rattle.durable.specs.Counts.{IsCounted};
ghost use Rattle.durable.specs.Entries.{Entry};
ghost use Rattle.durable.specs.Spelling.{head};
ghost use Rattle.durable.specs.Cutting.{IsCutShort};
ghost use Rattle.durable.specs.Standing.{StandsFor, IsRefusal};
ghost use Rattle.durable.specs.Keeping.{Keeps};
ghost use Rattle.durable.specs.Formatting.{FormatsOnlyEmpty};

use crate::RecordFault;
use crate::opening::read;
use crate::recorded::Recorded;
use crate::staged::Staged;
use acceptor::Slot;
use site_disk::{Armed, Disk};
use site_ids::{Cluster, Instance, MAX_RECORD, NodeId, Value};
use std::alloc::Global;

pub(crate) const MARK: [u8; 8] = *b"SITEREC1";

/// The record of one node: what its file records is kept in memory too.
#[derive(Drop)]
pub struct Record<D> {
    pub(crate) alloc: Global,
    pub(crate) disk: D,
    pub(crate) node: NodeId,
    pub(crate) cluster: Cluster,
    pub(crate) recorded: Recorded,
    // set after the device has failed
    pub(crate) stopped: bool,
    // the batch that is open, if one is
    pub(crate) staged: Staged,
    // whether it was cut short when it was opened
    pub(crate) cut_short: bool,
}

// The head of a record, and its gate.
fn empty_record(cluster: Cluster, node: NodeId) -> [u8; 11]
    ensures { result ≡ head node cluster ++ 0 ∷ [] }
{
    let mut bytes = [0; 11];
    bytes[..8].copy_from_slice(&MARK);
    bytes[8] = node.number();
    bytes[9] = cluster.size();
    bytes
}

impl<D: Disk> Record<D> {
    ghost use Rattle.durable.specs.Ready.{IsOpened};
    ghost use Rattle.durable.specs.Slots.{slot_at, value_at};

    /// Makes an empty record of a node of a cluster on an empty disk. A crash meanwhile may leave a file that
    /// is no record.
    pub fn format(cluster: Cluster, node: NodeId, disk: &mut D) -> Result<(), RecordFault>
        ensures formatted { OnOk result ((d : DiskState) → D.stands_for disk.old d → (d.seen ≡ [])
            × (e : DiskState) × D.stands_for disk.new e × IsSettled e × (e.seen ≡ head node cluster ++ 0 ∷ [])
            × StandsFor node cluster e.seen []) }
        ensures only_empty { FormatsOnlyEmpty D.stands_for D.failed disk.old disk.new result }
    {
        if disk.len()? != 0 {
            return Err(RecordFault::NotARecord);
        }
        disk.write_at(0, &empty_record(cluster, node))?;
        Ok(disk.sync()?)
    }

    /// Reads a record, after a sync. A refusal returns the disk.
    pub fn open(
        alloc: Global,
        cluster: Cluster,
        node: NodeId,
        disk: D,
    ) -> Result<Record<D>, (RecordFault, D)>
        ensures opened { IfOk result (λ store. (entries : List Entry)
            × IsOpened D.stands_for disk store entries) }
        ensures cut { IfOk result (λ store. (d : DiskState) → D.stands_for disk d
            → IsTrue store.cut_short ↔ IsCutShort store.recorded.gate d.seen) }
        ensures whose { IfOk result (λ store. (store.node ≡ node) × (store.cluster ≡ cluster)) }
        ensures refused { IfErr result (λ p. (d : DiskState) → D.stands_for disk d
            → (D.stands_for p.1 (after_sync d) ⊎ (D.stands_for p.1 d × (p.0 ≡ RecordFault.Device)))
            × IsRefusal p.0 node cluster d.seen) }
        ensures never { IfErr result (λ p. (d : DiskState) (entries : List Entry) (in_flight : Option Entry)
            → D.stands_for disk d → Keeps node cluster entries in_flight d → (p.0 ≡ RecordFault.Device)
            ⊎ (p.0 ≡ RecordFault.OutOfMemory)) }
        ensures none_failed { IfOk result (λ store. D.failed store.disk ≡ D.failed disk) }
        ensures cause { IfErr result (λ p. p.0 ≡ RecordFault.Device
            → IsCounted (D.failed disk) (D.failed p.1)) }
    {
        let mut disk = disk;
        match read(alloc, cluster, node, &mut disk) {
            Ok((recorded, cut_short)) => Ok(Record {
                alloc,
                disk,
                node,
                cluster,
                recorded,
                stopped: false,
                staged: Staged::new(alloc),
                cut_short,
            }),
            Err(fault) => Err((fault, disk)),
        }
    }

    /// The disk under it.
    pub fn disk(&self) -> &D
        ensures { result.now ≡ self.now.disk }
    {
        &self.disk
    }

    /// The cluster whose ballots it takes.
    pub fn cluster(&self) -> Cluster
        ensures { result ≡ self.now.cluster }
    {
        self.cluster
    }

    /// The last round, or 0 if there is none.
    pub fn round(&self) -> u32
        ensures { result ≡ self.now.recorded.round }
    {
        self.recorded.round
    }

    /// The greatest round that was recorded or promised, or 0 if there is none.
    pub fn greatest_round(&self) -> u32
        ensures { result ≡ self.now.recorded.greatest }
    {
        self.recorded.greatest
    }

    /// The floor of a record that took the place of a lost one, or 0 if it took the place of none.
    pub fn floor(&self) -> u32
        ensures { result ≡ self.now.recorded.floor }
    {
        self.recorded.floor
    }

    /// How far it reaches: the greatest instance of a vote, or the floor if that is greater; 0 if there is
    /// neither.
    pub fn reach(&self) -> u32
        ensures { result ≡ self.now.recorded.reach }
    {
        self.recorded.reach
    }

    /// Whether an accident had shut the gate at which the record ended when it was opened. Then a batch with
    /// its right sum followed, and another open gate, and none of that was read.
    pub fn is_cut_short(&self) -> bool
        ensures { result ≡ self.now.cut_short }
    {
        self.cut_short
    }

    /// Whether the device failed in a put or a seal since the record was opened.
    pub fn is_stopped(&self) -> bool
        ensures { result ≡ self.now.stopped }
    {
        self.stopped
    }

    /// The slot of an instance, or an empty one.
    pub fn slot(&self, instance: Instance) -> &Slot
        ensures { result.now ≡ slot_at self.now.recorded.slots instance }
    {
        self.recorded.slots.get(instance)
    }

    /// The value on record as learned at an instance.
    pub fn learned(&self, instance: Instance) -> Option<&Value>
        ensures { option_copied result ≡ value_at self.now.recorded.slots instance }
    {
        self.recorded.slots.learned(instance)
    }

    /// Whether a put of a payload of this length would not be refused as full.
    pub fn has_room(&self, payload: usize) -> bool
        ensures { IsTrue result ↔ (self.now.recorded.gate + 6 + payload ≤ MAX_RECORD) }
    {
        let payload = payload as u64;
        payload <= MAX_RECORD - 6 && self.recorded.gate <= MAX_RECORD - 6 - payload
    }

    /// How many bytes of the file it takes, not counting the gate at its end.
    pub fn bytes(&self) -> u64
        ensures { result ≡ self.now.recorded.gate }
    {
        self.recorded.gate
    }

    /// Returns the disk, without the entries of a batch that is open.
    pub fn close(self) -> D
        ensures { result ≡ self.disk }
    {
        let Record {
            alloc: _,
            disk,
            node: _,
            cluster: _,
            recorded: _recorded,
            stopped: _,
            staged: _staged,
            cut_short: _,
        } = self;
        disk
    }
}

impl<D: Armed> Record<D> {
    /// Passes the arming on to the disk.
    pub fn arm(&mut self, calls: u32)
        ensures disk { (d : DiskState) → D.Disk.stands_for self.old.disk d
            → D.Disk.stands_for self.new.disk d }
        ensures failed { D.Disk.failed self.new.disk ≡ D.Disk.failed self.old.disk }
        ensures armed { D.armed self.new.disk calls }
        ensures same { self.new ≡ record self.old { disk = self.new.disk } }
    {
        self.disk.arm(calls);
    }
}
