//! Sets of nodes.

ghost use Rattle.std.specs.Prelude.{◌≡◌, ◌↔◌, ◌⊎◌, ℕ};
ghost use Rattle.learner.specs.Masks.{HasNode, Counted};

use site_ids::{Cluster, NodeId};

/// Nodes as the bits of a number: node p is bit p.
#[derive(Clone, Copy, Drop)]
pub(crate) struct NodeMask {
    bits: u16,
}

impl NodeMask {
    pub(crate) fn none() -> NodeMask
        ensures { (p : ℕ) → ¬ HasNode result p }
    {
        NodeMask { bits: 0 }
    }

    pub(crate) fn with(self, node: NodeId) -> NodeMask
        ensures { (p : ℕ) → HasNode result p ↔ (HasNode self p ⊎ (p ≡ node)) }
    {
        NodeMask {
            bits: self.bits | 1 << node.number(),
        }
    }

    /// How many nodes of the cluster it has.
    pub(crate) fn count_in(self, cluster: Cluster) -> u32
        ensures { Counted (HasNode self) cluster result }
    {
        let all = (1 << cluster.size()) - 1;
        (self.bits >> 1 & all).count_ones()
    }
}
