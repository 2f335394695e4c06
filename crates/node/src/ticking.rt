//! A tick: a fresh attempt at the first unknown instance, and the other attempts' messages once more. If the
//! node is mute there, it asks instead.
//!
//! A tick needs a round that is left, so its effect and `RoundsUsedUp` exclude each other. Prepares that are
//! sent again are of one instance.

ghost use Rattle.std.specs.Prelude.{IfOk, IfErr};
ghost use Rattle.node.specs.Beginning.{IsDue, IsRefusedBy};

use crate::beginning::Beginning;
use crate::{Node, NodeFault, Outbox};
use site_disk::Disk;

impl<D: Disk> Node<D> {
    ghost use Rattle.node.specs.Nodes.{Node as AbstractNode, OnlyLearns};
    ghost use Rattle.node.specs.Calls.{tick as ticking};
    ghost use Rattle.node.specs.Standing.{IsNodeOf, IsEvent, OnlyGrows, KeepsOthers, CountsDevice, ending_of};

    /// A fresh round goes on record. With it an attempt begins at the first unknown instance, for the oldest
    /// pending value. After its prepare the latest messages of the other attempts are sent again, in the
    /// order of their instances. A node that only learns asks for the first unknown instance instead, and
    /// uses no round.
    pub fn tick(&mut self, outbox: &mut Outbox) -> Result<(), NodeFault>
        ensures event { IsEvent D.stands_for self.old self.new ticking
            (ending_of result) outbox.old.items outbox.new.items }
        ensures counts { CountsDevice result (D.failed self.old.store.disk) (D.failed self.new.store.disk) }
        ensures grows { OnlyGrows outbox.old.items outbox.new.items }
        ensures others { KeepsOthers self.old self.new }
    {
        if self.only_learns() {
            return self.ask(outbox);
        }
        let due = self.next_tick()?;
        self.begin_attempts(due, outbox)
    }

    /// What a tick begins.
    fn next_tick(&self) -> Result<Beginning, NodeFault>
        requires { (s : AbstractNode) → IsNodeOf self.now s → ¬ OnlyLearns s }
        ensures due { IfOk result (λ due. IsDue self.now ticking due) }
        ensures refused { IfErr result (λ fault. IsRefusedBy self.now ticking fault) }
    {
        if self.store.is_stopped() {
            return Err(NodeFault::Stopped);
        }
        let Some(first) = self.next_gap() else {
            return Err(NodeFault::InstancesUsedUp);
        };
        let Some(ballot) = self.own_ballot() else {
            return Err(NodeFault::RoundsUsedUp);
        };
        let again = self.sent_again(first)?;
        let values = self.queue.oldest(self.alloc)?;
        Ok(Beginning {
            first,
            ballot,
            values,
            again,
        })
    }
}
