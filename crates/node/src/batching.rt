//! A batch of calls: all that they put on record reaches the disk together, or none of it.

ghost use Rattle.std.specs.Prelude.{◌≡◌, ◌⊎◌, ◌↔◌, IsErrOf, OnOk, OnErr, true};
ghost use Rattle.site_disk.specs.Model.{DiskState};

use crate::{Node, NodeFault};
use site_disk::Disk;

impl<D: Disk> Node<D> {
    ghost use Rattle.node.specs.Nodes.{Node as AbstractNode, Stopped};
    ghost use Rattle.node.specs.Ahead.{IsAheadOf};
    ghost use Rattle.node.specs.Batches.{BeginsAt, SealsAt, LosesOneOf};
    ghost use Rattle.node.specs.Standing.{IsNodeOf, IsOnDisk, KeepsOthers, CountsDevice};

    /// Opens a batch. Until it is sealed each call is the event that it is, but what it puts on record is in
    /// memory only. So nothing that it hands out may be given to anyone yet, not even to the node itself. If
    /// a batch is open already, nothing changes.
    pub fn begin(&mut self) -> Result<(), NodeFault>
        ensures begun { OnOk result (BeginsAt D.stands_for self.old self.new) }
        ensures same { (s : AbstractNode) → IsNodeOf self.old s → IsNodeOf self.new s }
        ensures ahead { (s t : AbstractNode) (d : DiskState) → IsAheadOf D.stands_for self.old s t d
            → IsAheadOf D.stands_for self.new s t d }
        ensures refused { OnErr result ((s : AbstractNode) (d : DiskState)
            → IsOnDisk D.stands_for self.old s d → IsOnDisk D.stands_for self.new s d) }
        ensures was_stopped { IsErrOf result NodeFault.Stopped ↔ (self.old.store.stopped ≡ true) }
        ensures others { OnErr result (IsErrOf result NodeFault.Stopped
            ⊎ IsErrOf result NodeFault.OutOfMemory) }
        ensures disk { self.new.store.disk ≡ self.old.store.disk }
        ensures keeps { KeepsOthers self.old self.new }
    {
        self.store.begin()?;
        Ok(())
    }

    /// Writes all that the calls of the batch put on record to the disk, and closes the batch. After that
    /// what they handed out may be sent. If the device fails, either all of the batch is on the disk or none
    /// of it. The node is then stopped, its memory is ahead of the disk, and only the next opening shows what
    /// is on the disk.
    pub fn seal(&mut self) -> Result<(), NodeFault>
        ensures sealed { OnOk result (SealsAt D.stands_for self.old self.new) }
        ensures same { OnOk result ((s : AbstractNode) → IsNodeOf self.old s → IsNodeOf self.new s) }
        ensures lost { IsErrOf result NodeFault.Device
            → LosesOneOf D.stands_for self.old self.new.store.disk }
        ensures stops { OnErr result (self.new.store.stopped ≡ true) }
        ensures was_stopped { IsErrOf result NodeFault.Stopped ↔ (self.old.store.stopped ≡ true) }
        ensures refused { IsErrOf result NodeFault.Stopped → self.new ≡ self.old }
        ensures others { OnErr result (IsErrOf result NodeFault.Stopped ⊎ IsErrOf result NodeFault.Device) }
        ensures counts { CountsDevice result (D.failed self.old.store.disk) (D.failed self.new.store.disk) }
        ensures keeps { KeepsOthers self.old self.new }
    {
        self.store.seal()?;
        Ok(())
    }
}
