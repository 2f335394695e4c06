//! A node's file that is longer than what it records, so that batches are written over zeros.

ghost use Rattle.std.specs.Prelude.{◌≡◌, ◌⊎◌, ◌↔◌, IsErrOf, IfOk, OnErr, OnOk, true};

use crate::{Node, NodeFault};
use site_disk::Disk;

impl<D: Disk> Node<D> {
    ghost use Rattle.node.specs.Growing.{GrowsAt, LosesNothing};
    ghost use Rattle.node.specs.Nodes.{Node as AbstractNode};
    ghost use Rattle.node.specs.Standing.{IsNodeOf, KeepsOthers, CountsDevice};

    /// How many bytes of the file its record takes, not counting the gate at the end.
    pub fn record_bytes(&self) -> u64
        ensures { result ≡ self.now.store.recorded.gate }
    {
        self.store.bytes()
    }

    /// Makes the file reach `room` bytes past what it records, and returns whether it does. A lack of room is
    /// no fault, and while a batch is open the file does not grow. If the device fails, the node is stopped,
    /// and the disk has what it had.
    pub fn grow(&mut self, room: u64) -> Result<bool, NodeFault>
        ensures grown { IfOk result (λ there. GrowsAt D.stands_for self.old self.new room there) }
        ensures same { OnOk result ((s : AbstractNode) → IsNodeOf self.old s → IsNodeOf self.new s) }
        ensures lost { IsErrOf result NodeFault.Device
            → LosesNothing D.stands_for self.old self.new.store.disk }
        ensures stops { OnErr result (self.new.store.stopped ≡ true) }
        ensures was_stopped { IsErrOf result NodeFault.Stopped ↔ (self.old.store.stopped ≡ true) }
        ensures refused { IsErrOf result NodeFault.Stopped → self.new ≡ self.old }
        ensures others { OnErr result (IsErrOf result NodeFault.Stopped ⊎ IsErrOf result NodeFault.Device) }
        ensures counts { CountsDevice result (D.failed self.old.store.disk) (D.failed self.new.store.disk) }
        ensures keeps { KeepsOthers self.old self.new }
    {
        Ok(self.store.grow(room)?)
    }
}
