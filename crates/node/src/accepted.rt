//! A vote that is delivered.

ghost use Rattle.std.specs.Prelude.{◌≡◌, List, false};

use crate::{Node, NodeFault};
use site_disk::Disk;
use site_ids::{Ballot, Instance, NodeId, Value};
use wire::Message;

impl<D: Disk> Node<D> {
    ghost use Rattle.node.specs.declared.to.To.{To};
    ghost use Rattle.node.specs.Standing.{IsHandled};

    /// Counts a vote at an unknown instance. Its value becomes known if the votes are now those of a
    /// majority.
    pub(crate) fn on_accepted(
        &mut self,
        from: NodeId,
        instance: Instance,
        ballot: Ballot,
        value: &Value,
    ) -> Result<(), NodeFault>
        requires running { self.old.store.stopped ≡ false }
        ensures { (before : List (To × Message)) → IsHandled D.stands_for D.failed self.old self.new
            (Message.Accepted from instance ballot value.now) result before before }
    {
        if self.known.log.get(instance).is_some() {
            return Ok(());
        }
        if self.learner.completes(from, instance, ballot, value) {
            self.learn(instance, value)?;
            return Ok(());
        }
        self.learner.on_accepted(from, instance, ballot, value)?;
        Ok(())
    }
}
