//! The highest of a ballot and some promises.

ghost use Rattle.world.specs.Bids.{IsHigher};

use site_ids::{Ballot, NodeId};

/// A ballot that asks for promises, or a higher one and the node that promised it.
#[derive(Clone, Copy, Drop)]
pub(crate) struct Bid {
    pub ballot: Ballot,
    pub node: Option<NodeId>,
}

impl Bid {
    /// The higher of this and what a node has promised.
    pub(crate) fn or_promised(self, node: NodeId, promised: Option<Ballot>) -> Bid
        ensures { IsHigher self node promised result }
    {
        match promised {
            Some(ballot) if self.ballot < ballot => Bid {
                ballot,
                node: Some(node),
            },
            _ => self,
        }
    }
}
