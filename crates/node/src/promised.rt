//! A promise that is delivered.

ghost use Rattle.std.specs.Prelude.{◌≡◌, false};
ghost use Rattle.site_ids.specs.Ids.{IsNode};
ghost use Rattle.proposer.specs.Best.{vote_told};

use crate::{Node, NodeFault, Outbox, To};
use proposer::Proposal;
use site_disk::Disk;
use site_ids::{Ballot, Instance, NodeId, Vote};
use wire::Message;

impl<D: Disk> Node<D> {
    ghost use Rattle.node.specs.Standing.{IsHandled};

    /// A majority's promises lead to a proposal.
    pub(crate) fn on_promise(
        &mut self,
        from: NodeId,
        instance: Instance,
        ballot: Ballot,
        prior: Option<&Vote>,
        outbox: &mut Outbox,
    ) -> Result<(), NodeFault>
        requires running { self.old.store.stopped ≡ false }
        requires of_cluster { IsNode self.old.cluster from }
        ensures { IsHandled D.stands_for D.failed self.old self.new
            (Message.Promise from instance ballot (vote_told prior.entry))
            result outbox.old.items outbox.new.items }
    {
        outbox.reserve(1)?;
        match self.proposer.on_promise(from, instance, ballot, prior) {
            Ok(Some(proposal)) => {
                let Proposal {
                    instance,
                    ballot,
                    value,
                } = proposal;
                outbox.push_reserved((
                    To::All,
                    Message::Propose {
                        from: self.me,
                        instance,
                        ballot,
                        value,
                    },
                ));
                Ok(())
            }
            Ok(None) => Ok(()),
            Err(_) => Err(NodeFault::OutOfMemory),
        }
    }
}
