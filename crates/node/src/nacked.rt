//! A refusal that is delivered.

ghost use Rattle.std.specs.Prelude.{◌≡◌, ℕ, List, Ok, false};
ghost use Rattle.site_ids.specs.Ids.{BallotOf};

use crate::Node;
use site_disk::Disk;
use site_ids::Ballot;
use wire::Message;

impl<D: Disk> Node<D> {
    ghost use Rattle.node.specs.declared.to.To.{To};
    ghost use Rattle.node.specs.Standing.{IsHandled};

    /// A refusal is only a hint: a round as high as this was promised.
    pub(crate) fn on_nack(&mut self, promised: Ballot)
        requires running { self.old.store.stopped ≡ false }
        ensures { (from instance : ℕ) (asked : BallotOf) (before : List (To × Message))
            → IsHandled D.stands_for D.failed self.old self.new
            (Message.Nack from instance asked promised) (Ok tt) before before }
    {
        self.proposer.on_nack(promised);
    }
}
