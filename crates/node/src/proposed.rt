//! A proposal that is delivered.

ghost use Rattle.std.specs.Prelude.{◌≡◌, ◌≤◌, ℕ, length, false};
ghost use Rattle.site_ids.specs.declared.TheConstants.{MAX_VALUE};
ghost use Rattle.site_ids.specs.Ids.{IsNode};

use crate::messages::{accepted, nack};
use crate::{Node, NodeFault, Outbox};
use acceptor::{ProposeVerdict, judge_propose};
use site_disk::Disk;
use site_ids::{Ballot, Instance, Value};
use wire::Message;

impl<D: Disk> Node<D> {
    ghost use Rattle.node.specs.Standing.{IsHandled};

    /// A vote is on record before it is handed out. A node that is mute at the instance casts none.
    pub(crate) fn on_propose(
        &mut self,
        instance: Instance,
        ballot: Ballot,
        value: &Value,
        outbox: &mut Outbox,
    ) -> Result<(), NodeFault>
        requires running { self.old.store.stopped ≡ false }
        requires of_cluster { IsNode self.old.cluster ballot.node }
        requires fits { length value.now ≤ MAX_VALUE }
        ensures { (from : ℕ) → IsHandled D.stands_for D.failed self.old self.new
            (Message.Propose from instance ballot value.now) result outbox.old.items outbox.new.items }
    {
        if self.is_mute(instance) {
            return Ok(());
        }
        match judge_propose(self.store.slot(instance), ballot, value.as_bytes()) {
            ProposeVerdict::Vote => {
                outbox.reserve(1)?;
                let copy = value.try_clone()?;
                self.store.put_vote(instance, ballot, value)?;
                outbox.push_reserved(accepted(self.me, instance, ballot, copy));
                Ok(())
            }
            ProposeVerdict::Again => {
                outbox.reserve(1)?;
                let copy = value.try_clone()?;
                outbox.push_reserved(accepted(self.me, instance, ballot, copy));
                Ok(())
            }
            ProposeVerdict::Nack(promised) => {
                outbox.reserve(1)?;
                outbox.push_reserved(nack(self.me, instance, ballot, promised));
                Ok(())
            }
            ProposeVerdict::Silent => Ok(()),
        }
    }
}
