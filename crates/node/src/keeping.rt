//! A value that is known goes on record as learned.

ghost use Rattle.std.specs.Prelude.{◌≡◌, ◌≤◌, [], None, IfOk, IfSome, OnErr, MatchOption};
ghost use Rattle.std.specs.Prelude.{length};
ghost use Rattle.site_ids.specs.declared.TheConstants.{MAX_VALUE as longest};
ghost use Rattle.durable.specs.Slots.{value_at};

use crate::{Node, NodeFault};
use site_disk::Disk;
use site_ids::{Instance, MAX_VALUE, Value};
use std::alloc::AllocError;

impl<D: Disk> Node<D> {
    ghost use Rattle.node.specs.Nodes.{Node as AbstractNode};
    ghost use Rattle.node.specs.Calls.{keep as keeping, IsUnkept, MayKeep};
    ghost use Rattle.node.specs.Standing.{IsNodeOf, IsEvent, KeepsOthers, CountsDevice, ending_of};

    /// Puts the value known at an instance on record as learned, unless the record has a learned value there.
    /// It raises no ballot, and hands out nothing.
    ///
    /// So after a restart nodes can tell one another what one of them had learned, and it need not be decided
    /// again. A vote for the value is not enough: votes at an instance may be at different ballots, and then
    /// no majority of them shows what was decided.
    pub fn keep(&mut self, instance: Instance) -> Result<(), NodeFault>
        ensures event { IsEvent D.stands_for self.old self.new (keeping instance) (ending_of result) [] [] }
        ensures counts { CountsDevice result (D.failed self.old.store.disk) (D.failed self.new.store.disk) }
        ensures others { KeepsOthers self.old self.new }
    {
        if self.store.is_stopped() {
            return Err(NodeFault::Stopped);
        }
        let Some(value) = self.unkept(instance)? else {
            return Ok(());
        };
        self.store.put_learned(instance, &value)?;
        Ok(())
    }

    /// A copy of the value that is to be kept at an instance, if there is one. A known value is never too
    /// long for an entry.
    fn unkept(&self, instance: Instance) -> Result<Option<Value>, AllocError>
        ensures unkept { IfOk result (λ value. (s : AbstractNode) → IsNodeOf self.now s
            → MatchOption value (¬ MayKeep s instance) (λ v. IsUnkept s instance v)) }
        ensures new { IfOk result (λ value. IfSome value
            (λ v. value_at self.now.store.recorded.slots instance ≡ None)) }
        ensures fits { IfOk result (λ value. IfSome value (λ v. length v ≤ longest)) }
        ensures wanted { OnErr result ((s : AbstractNode) → IsNodeOf self.now s → MayKeep s instance) }
    {
        let Some(value) = self.known.log.get(instance) else {
            return Ok(None);
        };
        if self.store.learned(instance).is_some() {
            return Ok(None);
        }
        if value.as_bytes().len() > MAX_VALUE {
            return Ok(None);
        }
        Ok(Some(value.try_clone()?))
    }
}
