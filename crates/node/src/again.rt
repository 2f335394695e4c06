//! What is sent again.

ghost use Rattle.std.specs.Prelude.{◌≡◌, ℕ, Option, IfOk, OnOk};
ghost use Rattle.proposer.specs.Attempts.{Attempt};
ghost use Rattle.proposer.specs.Standing.{Attempting};

use crate::{Node, Outbox, To, WINDOW};
use site_disk::Disk;
use site_ids::Instance;
use std::alloc::AllocError;

impl<D: Disk> Node<D> {
    ghost use Rattle.node.specs.Nodes.{Node as AbstractNode, IsFirstUnknown};
    ghost use Rattle.node.specs.Standing.{IsNodeOf};
    ghost use Rattle.node.specs.Again.{IsSentAgain, with_latest};

    /// The latest message of each attempt except the one at the first unknown instance, in the order of their
    /// instances.
    pub(crate) fn sent_again(&self, first: Instance) -> Result<Outbox, AllocError>
        ensures { IfOk result (λ again. (s : AbstractNode) → IsNodeOf self.now s
            → IsFirstUnknown s.known first → IsSentAgain self.now.me s first again.items) }
    {
        let mut again = Vec::new(self.alloc);
        for past in 1..WINDOW {
            let Some(instance) = first.plus(past) else {
                return Ok(again);
            };
            self.push_latest(instance, &mut again)?;
        }
        Ok(again)
    }

    /// If an attempt is open at the instance, puts its latest message after what is there.
    fn push_latest(&self, instance: Instance, again: &mut Outbox) -> Result<(), AllocError>
        ensures { OnOk result ((attempts : ℕ → Option Attempt) → Attempting self.now.proposer attempts
            → again.new.items ≡ with_latest self.now.me again.old.items instance (attempts instance)) }
    {
        match self.proposer.resend(instance)? {
            Some(message) => {
                again.push((To::All, message))?;
                Ok(())
            }
            None => Ok(()),
        }
    }
}
