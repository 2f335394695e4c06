//! A question that is delivered.

ghost use Rattle.std.specs.Prelude.{◌≡◌, false};

use crate::{Node, NodeFault, Outbox, To};
use site_disk::Disk;
use site_ids::{Instance, NodeId};
use wire::Message;

impl<D: Disk> Node<D> {
    ghost use Rattle.node.specs.Standing.{IsHandled};

    /// If the value is known, it goes to the node that asked.
    pub(crate) fn on_ask(
        &mut self,
        from: NodeId,
        instance: Instance,
        outbox: &mut Outbox,
    ) -> Result<(), NodeFault>
        requires running { self.old.store.stopped ≡ false }
        ensures { IsHandled D.stands_for D.failed self.old self.new (Message.Ask from instance)
            result outbox.old.items outbox.new.items }
    {
        let Some(value) = self.known.log.get(instance) else {
            return Ok(());
        };
        outbox.reserve(1)?;
        let value = value.try_clone()?;
        outbox.push_reserved((
            To::One(from),
            Message::Chosen {
                from: self.me,
                instance,
                value,
            },
        ));
        Ok(())
    }
}
