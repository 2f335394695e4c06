//! What has to hold of all that was reported.

ghost use Rattle.std.specs.Prelude.{◌≡◌, ◌↔◌, IsTrue};
ghost use Rattle.site_ids.specs.Lists.{In, Distinct};
ghost use Rattle.server_floor.specs.Told.{nodes_of, furthest, AreOthers};

use crate::told::Told;
use site_ids::{Cluster, NodeId};

/// Whether each is about a node of the group, and none is about this one.
pub(crate) fn are_others(cluster: Cluster, me: NodeId, told: &[Told]) -> bool
    ensures { IsTrue result ↔ AreOthers cluster me told.now }
{
    for one in told {
        if one.node.number() > cluster.size() || one.node == me {
            return false;
        }
    }
    true
}

/// Whether one is about that node.
fn is_among(told: &[Told], node: NodeId) -> bool
    ensures { IsTrue result ↔ In (nodes_of told.now) node }
{
    for one in told {
        if one.node == node {
            return true;
        }
    }
    false
}

/// Whether no node occurs twice.
pub(crate) fn are_distinct(told: &[Told]) -> bool
    ensures { IsTrue result ↔ Distinct (nodes_of told.now) }
{
    let mut rest = told;
    while let Some((first, later)) = rest.split_first() {
        if is_among(later, first.node) {
            return false;
        }
        rest = later;
    }
    true
}

/// The furthest reach; 0 if there is none.
pub(crate) fn furthest(told: &[Told]) -> u64
    ensures { result ≡ furthest told.now }
{
    let mut far = 0;
    for one in told {
        far = one.reach.max(far);
    }
    far
}
