//! A question: the node asks for its first unknown instance.

ghost use Rattle.std.specs.Prelude.{◌≡◌, IsErrOf};

use crate::{Node, NodeFault, Outbox, To};
use site_disk::Disk;
use wire::Message;

impl<D: Disk> Node<D> {
    ghost use Rattle.node.specs.Calls.{ask as asking};
    ghost use Rattle.node.specs.Standing.{IsEvent, OnlyGrows, KeepsOthers, ending_of};

    /// Asks all nodes for the value of the first unknown instance.
    pub fn ask(&mut self, outbox: &mut Outbox) -> Result<(), NodeFault>
        ensures event { IsEvent D.stands_for self.old self.new asking
            (ending_of result) outbox.old.items outbox.new.items }
        ensures no_put { (¬ IsErrOf result NodeFault.Device) × (self.new.store ≡ self.old.store) }
        ensures grows { OnlyGrows outbox.old.items outbox.new.items }
        ensures others { KeepsOthers self.old self.new }
    {
        if self.store.is_stopped() {
            return Err(NodeFault::Stopped);
        }
        let Some(instance) = self.next_gap() else {
            return Err(NodeFault::InstancesUsedUp);
        };
        outbox.reserve(1)?;
        outbox.push_reserved((
            To::All,
            Message::Ask {
                from: self.me,
                instance,
            },
        ));
        Ok(())
    }
}
