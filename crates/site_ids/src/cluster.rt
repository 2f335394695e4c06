//! A cluster and its nodes.

ghost use Rattle.std.specs.Prelude.{◌≡◌, ◌+◌, ◌/◌, MatchOption};
ghost use Rattle.site_ids.specs.declared.TheConstants.{MAX_NODES};
ghost use Rattle.site_ids.specs.Ids.{IsNode};

use crate::MAX_NODES;
use std::marker::Model;

/// The fixed number of nodes.
#[derive(Clone, Copy, Debug, PartialEq, Eq, Drop)]
pub struct Cluster {
    size: u8,
}

impl Model for Cluster {
    ghost use Rattle.std.specs.Prelude.{ℕ};
    ghost use Rattle.std.specs.Coded.{coded_ℕ};
    ghost use Rattle.site_ids.specs.declared.TheConstants.{MAX_NODES};
    ghost use Rattle.site_ids.specs.Ids.{IsNode};

    ghost Value = { ℕ };

    ghost coded = { coded_ℕ };

    ghost view = { λ c. c.size };

    ghost invariant = { λ c. IsNode MAX_NODES c.size };

    ghost inverse = { λ n. record { size = n } };
}

/// A node of a cluster, by its number.
#[derive(Clone, Copy, Debug, PartialEq, Eq, PartialOrd, Ord, Drop)]
pub struct NodeId {
    number: u8,
}

impl Model for NodeId {
    ghost use Rattle.std.specs.Prelude.{ℕ};
    ghost use Rattle.std.specs.Coded.{coded_ℕ};
    ghost use Rattle.site_ids.specs.declared.TheConstants.{MAX_NODES};
    ghost use Rattle.site_ids.specs.Ids.{IsNode};

    ghost Value = { ℕ };

    ghost coded = { coded_ℕ };

    ghost view = { λ p. p.number };

    ghost invariant = { λ p. IsNode MAX_NODES p.number };

    ghost inverse = { λ n. record { number = n } };
}

impl Cluster {
    pub fn new(size: u8) -> Option<Cluster>
        ensures { MatchOption result (¬ IsNode MAX_NODES size) (λ c. (c ≡ size) × IsNode MAX_NODES size) }
    {
        if 1 <= size && size <= MAX_NODES {
            Some(Cluster { size })
        } else {
            None
        }
    }

    pub fn size(self) -> u8
        ensures is { result ≡ self }
        ensures range { IsNode MAX_NODES result }
    {
        self.size
    }

    /// The least number of nodes that are a majority.
    pub fn quorum(self) -> u8
        ensures { result ≡ self / 2 + 1 }
    {
        self.size / 2 + 1
    }

    pub fn node(self, number: u8) -> Option<NodeId>
        ensures { MatchOption result (¬ IsNode self number) (λ p. (p ≡ number) × IsNode self number) }
    {
        if 1 <= number && number <= self.size {
            Some(NodeId { number })
        } else {
            None
        }
    }
}

impl NodeId {
    pub fn number(self) -> u8
        ensures is { result ≡ self }
        ensures range { IsNode MAX_NODES result }
    {
        self.number
    }
}
