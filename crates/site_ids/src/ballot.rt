//! Ballots in their order.

ghost use Rattle.std.specs.Prelude.{◌≡◌, ◌≤◌, MatchOption};
ghost use Rattle.site_ids.specs.declared.TheConstants.{MAX_NODES};
ghost use Rattle.site_ids.specs.Ids.{IsNode};

use crate::NodeId;
use std::marker::Model;

/// A round and the node that began it, ordered by round, then by node.
#[derive(Clone, Copy, Debug, PartialEq, Eq, PartialOrd, Ord, Drop)]
pub struct Ballot {
    round: u32,
    node: NodeId,
}

impl Model for Ballot {
    ghost use Rattle.std.specs.Prelude.{◌≤◌};
    ghost use Rattle.site_ids.specs.Ids.{BallotOf, coded_ballot};

    ghost Value = { BallotOf };

    ghost coded = { coded_ballot };

    ghost view = { λ b. record { round = b.round; node = b.node } };

    ghost invariant = { λ b. 1 ≤ b.round };

    ghost inverse = { λ b. record { round = b.round; node = b.node } };
}

impl Ballot {
    pub fn new(round: u32, node: NodeId) -> Option<Ballot>
        ensures { MatchOption result (round ≡ 0)
            (λ b. (b ≡ record { round = round; node = node }) × (1 ≤ round)) }
    {
        if 1 <= round {
            Some(Ballot { round, node })
        } else {
            None
        }
    }

    pub fn round(self) -> u32
        ensures is { result ≡ self.round }
        ensures range { 1 ≤ result }
    {
        self.round
    }

    pub fn node(self) -> NodeId
        ensures is { result ≡ self.node }
        ensures range { IsNode MAX_NODES result }
    {
        self.node
    }
}
