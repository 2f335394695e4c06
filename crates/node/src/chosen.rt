//! A chosen value that is delivered.

ghost use Rattle.std.specs.Prelude.{◌≡◌, ℕ, List, false};

use crate::{Node, NodeFault};
use site_disk::Disk;
use site_ids::{Instance, Value};
use wire::Message;

impl<D: Disk> Node<D> {
    ghost use Rattle.node.specs.declared.to.To.{To};
    ghost use Rattle.node.specs.Standing.{IsHandled};

    /// The value becomes known, unless it is known already.
    pub(crate) fn on_chosen(&mut self, instance: Instance, value: &Value) -> Result<(), NodeFault>
        requires running { self.old.store.stopped ≡ false }
        ensures { (from : ℕ) (before : List (To × Message))
            → IsHandled D.stands_for D.failed self.old self.new
            (Message.Chosen from instance value.now) result before before }
    {
        let Some(known) = self.known.log.get(instance) else {
            self.learn(instance, value)?;
            return Ok(());
        };
        if known.as_bytes() != value.as_bytes() {
            return Err(NodeFault::Conflict);
        }
        Ok(())
    }
}
