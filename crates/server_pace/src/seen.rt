//! What a server sees of its node.

ghost use Rattle.std.specs.Prelude.{◌↔◌, suc, IsTrue};
ghost use Rattle.node.specs.Nodes.{Node as AbstractNode};
ghost use Rattle.node.specs.Standing.{IsNodeOf};
ghost use Rattle.server_pace.specs.Pacing.{HasKept, HasStake, IsIdle, IsSeen, IsTriedBy, IsVotedBy, Resumes};

use node::Node;
use site_disk::Disk;
use site_ids::{Instance, NodeId};

/// What is seen as a batch begins.
#[derive(Clone, Copy, Debug, PartialEq, Eq, Drop)]
pub struct Seen {
    /// How many values are known.
    pub known: u32,
    /// The furthest instance that messages were about, except questions and refusals; 0 before the first.
    pub reached: u32,
    /// A tick is wanted.
    pub wanted: bool,
    /// All that had come was taken in.
    pub drained: bool,
    /// It has something to decide: a value of its own waits to be proposed, or its record had a vote further
    /// on as it began.
    pub stake: bool,
    /// It voted for the last of the known values at an own ballot, its record had a vote further on as it
    /// began, and it has no attempt open.
    pub resumes: bool,
    /// The value of the first unknown instance is on its record as learned.
    pub kept: bool,
}

/// The node to whose ballot the first unknown instance is promised, if it is. `known` values are known.
pub(crate) fn first_tried_by<D: Disk>(node: &Node<D>, known: u32) -> Option<NodeId>
    ensures { (s : AbstractNode) → IsNodeOf node.now s → IsTriedBy s (suc known) result }
{
    let first = Instance::new(known.saturating_add(1))?;
    let ballot = node.slot(first).promised?;
    Some(ballot.node())
}

/// Whether a node's last vote at the instance is at a ballot of `by`.
fn is_voted_by<D: Disk>(node: &Node<D>, instance: Instance, by: NodeId) -> bool
    ensures { (s : AbstractNode) → IsNodeOf node.now s → IsTrue result ↔ IsVotedBy s instance by }
{
    match &node.slot(instance).vote {
        Some(vote) => vote.ballot.node().number() == by.number(),
        None => false,
    }
}

/// Whether it has something to decide. `recorded` is the instance of the furthest vote on its record as it
/// began.
fn has_stake<D: Disk>(node: &Node<D>, known: u32, recorded: u32) -> bool
    ensures { (s : AbstractNode) → IsNodeOf node.now s → IsTrue result ↔ HasStake s known recorded }
{
    node.has_pending() || known < recorded
}

/// Whether it has no attempt open.
fn is_idle<D: Disk>(node: &Node<D>) -> bool
    ensures { (s : AbstractNode) → IsNodeOf node.now s → IsTrue result ↔ IsIdle s }
{
    node.attempts() == 0
}

/// Whether it decides again what is on its record. `recorded` is the instance of the furthest vote on its
/// record as it began.
fn resumes<D: Disk>(node: &Node<D>, me: NodeId, known: u32, recorded: u32) -> bool
    ensures { (s : AbstractNode) → IsNodeOf node.now s → IsTrue result ↔ Resumes s me known recorded }
{
    let Some(last) = Instance::new(known) else {
        return false;
    };
    known < recorded && is_voted_by(node, last, me) && is_idle(node)
}

/// Whether the value of the first unknown instance is on record as learned. `known` values are known.
fn has_kept<D: Disk>(node: &Node<D>, known: u32) -> bool
    ensures { (s : AbstractNode) → IsNodeOf node.now s → IsTrue result ↔ HasKept s known }
{
    match Instance::new(known.saturating_add(1)) {
        Some(first) => node.remembers(first),
        None => false,
    }
}

impl Seen {
    /// What is seen of this node. `drained` says that the last batch took in all that had come.
    pub(crate) fn of<D: Disk>(node: &Node<D>, me: NodeId, recorded: u32, drained: bool) -> Seen
        ensures { (s : AbstractNode) → IsNodeOf node.now s → IsSeen s me recorded drained result }
    {
        let known = node.known();
        Seen {
            known,
            reached: node.reached(),
            wanted: node.wants_tick(),
            drained,
            stake: has_stake(node, known, recorded),
            resumes: resumes(node, me, known, recorded),
            kept: has_kept(node, known),
        }
    }
}
