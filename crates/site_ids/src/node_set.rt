//! Sets of nodes.

ghost use Rattle.std.specs.Prelude.{◌≡◌, ◌≤◌, ◌||◌, if◌then◌else◌};
ghost use Rattle.site_ids.specs.NodeSets.{count_of, has_node, no_nodes, with_node, AreUnited};

use crate::NodeId;
use std::marker::Model;

/// Some of at most nine nodes.
#[derive(Clone, Copy, Debug, PartialEq, Eq, Drop)]
pub struct NodeSet {
    // whether node p is one of them, at the place p - 1
    members: [bool; 9],
}

impl Model for NodeSet {
    ghost use Rattle.std.specs.Prelude.{◌≡◌, List, Bool, length};
    ghost use Rattle.std.specs.Coded.{coded_bool, coded_list};

    ghost Value = { List Bool };

    ghost coded = { coded_list coded_bool };

    ghost view = { λ s. s.members };

    ghost invariant = { λ s. length s.members ≡ 9 };

    ghost inverse = { λ nodes. record { members = nodes } };
}

fn one(is: bool) -> usize
    ensures { result ≡ (if is then 1 else 0) }
{
    if is { 1 } else { 0 }
}

fn either(a: bool, b: bool) -> bool
    ensures { result ≡ (a || b) }
{
    a || b
}

fn united(some: [bool; 9], others: [bool; 9]) -> [bool; 9]
    ensures { AreUnited some others result }
{
    let mut all = others;
    for i in 0..9 {
        all[i] = either(some[i], others[i]);
    }
    all
}

fn count(members: [bool; 9]) -> usize
    ensures count { result ≡ count_of members }
    ensures range { result ≤ 9 }
{
    let mut count = 0;
    for i in 0..9 {
        count += one(members[i]);
    }
    count
}

impl NodeSet {
    pub fn new() -> NodeSet
        ensures { result ≡ no_nodes }
    {
        NodeSet {
            members: [false; 9],
        }
    }

    pub fn insert(&mut self, node: NodeId)
        ensures { self.new ≡ with_node self.old node }
    {
        self.members[usize::from(node.number()) - 1] = true;
    }

    pub fn contains(self, node: NodeId) -> bool
        ensures { result ≡ has_node self node }
    {
        self.members[usize::from(node.number()) - 1]
    }

    /// Whether node p is one of them, at the place p - 1.
    pub fn places(self) -> [bool; 9]
        ensures { result ≡ self }
    {
        self.members
    }

    /// The nodes of this set and of the other one.
    pub fn union(self, other: NodeSet) -> NodeSet
        ensures { AreUnited self other result }
    {
        NodeSet {
            members: united(self.members, other.members),
        }
    }

    /// How many nodes the set has.
    pub fn len(self) -> usize
        ensures count { result ≡ count_of self }
        ensures range { result ≤ 9 }
    {
        count(self.members)
    }
}
