//! What a node's record has as its server begins.
//!
//! It is counted once, over all instances, since a node that was away has gaps: some milliseconds.

ghost use Rattle.std.specs.Prelude.{◌≡◌, ◌+◌, ◌-◌, ◌^◌, min, if◌then◌else◌};
ghost use Rattle.node.specs.Nodes.{Node as AbstractNode};
ghost use Rattle.node.specs.Standing.{IsNodeOf};
ghost use Rattle.server.specs.Recording.{recorded_at, recorded_to};

use node::Node;
use site_disk::Disk;
use site_ids::{Instance, MAX_INSTANCE};

/// How far a node's record reaches. Each number is 0 if the record has no such instance.
#[derive(Clone, Copy, Drop)]
pub struct Recorded {
    /// At how many instances it has a vote.
    pub votes: u32,
    /// The furthest instance with a vote.
    pub last: u32,
    /// The furthest one with a vote or a learned value.
    pub furthest: u32,
}

/// `count`, and one more if `is` holds.
fn count_on(count: u32, is: bool) -> u32
    ensures { result ≡ (if is then min (count + 1) (2 ^ 32 - 1) else count) }
{
    if is { count.saturating_add(1) } else { count }
}

/// This instance, if `is` holds at it, or else the one found so far.
fn further(found: u32, instance: u32, is: bool) -> u32
    ensures { result ≡ (if is then instance else found) }
{
    if is { instance } else { found }
}

impl Recorded {
    /// The same with what the record has at one more instance.
    fn look_at<D: Disk>(self, node: &Node<D>, instance: Instance) -> Recorded
        ensures { (s : AbstractNode) → IsNodeOf node.now s → result ≡ recorded_at s instance self }
    {
        let number = instance.number();
        let voted = node.slot(instance).vote.is_some();
        let any = node.is_tellable(instance);
        Recorded {
            votes: count_on(self.votes, voted),
            last: further(self.last, number, voted),
            furthest: further(self.furthest, number, any),
        }
    }

    /// What a node's record has at the first `instances` instances. A value that the node knows counts as one
    /// on record; a node that was just opened knows none.
    pub fn of<D: Disk>(node: &Node<D>, instances: u32) -> Recorded
        ensures { (s : AbstractNode) → IsNodeOf node.now s
            → result ≡ recorded_to s (min instances MAX_INSTANCE) }
    {
        let mut recorded = Recorded {
            votes: 0,
            last: 0,
            furthest: 0,
        };
        for past in 0..instances.min(MAX_INSTANCE) {
            let Some(instance) = Instance::new(past + 1) else {
                return recorded;
            };
            recorded = recorded.look_at(node, instance);
        }
        recorded
    }
}
