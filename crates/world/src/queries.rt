//! What a world reports of its nodes and messages.
//!
//! A query is about a node of the cluster. All other nodes are as at the start, so the answer "down" would be
//! false for them.

ghost use Rattle.std.specs.Prelude.{◌≡◌, ◌≢◌, ◌≤◌, ◌<◌, ◌⊎◌, ◌↔◌, ◌-◌, List, Some, length, slice_get};
ghost use Rattle.std.specs.Prelude.{option_copied, IfOk, IsErrOf};
ghost use Rattle.command.specs.Effective.{effective};
ghost use Rattle.command.specs.Releases.{release_count};
ghost use Rattle.release.specs.Standing.{answer_view};
ghost use Rattle.node.specs.Nodes.{Value as Bytes, Down, BeginsKnown, IsKnownPrefix};
ghost use Rattle.node.specs.Effects.{messages_of};
ghost use Rattle.world.specs.declared.event.Event.{Event as AbstractEvent};
ghost use Rattle.world.specs.Worlds.{World as AbstractWorld};

use crate::machine::Machine;
use crate::{AskFault, NodeState, World};
use release::{Answer, AnswerFault};
use site_ids::{Cluster, NodeId};
use wire::Message;

impl World {
    ghost use Rattle.world.specs.Standing.{IsWorldOf};
    ghost use Rattle.world.specs.Steps.{Reached, IsAnswer, AreOfRun};
    ghost use Rattle.world.specs.Telling.{mode_told, fed_at};

    /// The cluster of its nodes.
    pub fn cluster(&self) -> Cluster
        ensures { result ≡ self.now.cluster }
    {
        self.cluster
    }

    /// The message at an index of all that were ever handed out, from 0.
    pub fn sent(&self, index: usize) -> Option<&Message>
        ensures { option_copied result ≡ slice_get (messages_of self.now.sent.items) index }
    {
        match self.sent.get(index) {
            Some((_, message)) => Some(message),
            None => None,
        }
    }

    /// How many messages were ever handed out.
    pub fn sent_count(&self) -> usize
        ensures { result ≡ length (messages_of self.now.sent.items) }
    {
        self.sent.len()
    }

    pub(crate) fn machine(&self, node: NodeId) -> &Machine
        requires { node ≤ self.now.cluster }
        ensures { slice_get self.now.machines.items (node - 1) ≡ Some result.now }
    {
        &self.machines[(node.number() - 1) as usize]
    }

    /// Whether a node of the cluster runs, was stopped by its device, or is down.
    pub fn state(&self, node: NodeId) -> NodeState
        requires { node ≤ self.now.cluster }
        ensures { (w : AbstractWorld) → IsWorldOf self.now w → (w.node node).mode ≡ mode_told result }
    {
        match self.machine(node) {
            Machine::Bare(_) => NodeState::Down,
            Machine::Open { node, .. } => {
                if node.is_stopped() {
                    return NodeState::Stopped;
                }
                NodeState::Up
            }
        }
    }

    /// How many values a node knows from the first instance on without a gap; 0 if it is down.
    pub fn known(&self, node: NodeId) -> u32
        requires { node ≤ self.now.cluster }
        ensures is { (w : AbstractWorld) → IsWorldOf self.now w → (values : List Bytes)
            × IsKnownPrefix (w.node node) values × (result ≡ length values) }
        ensures decided { (events : List AbstractEvent) (reached : Reached self.now events)
            → (values : List Bytes) × IsKnownPrefix (reached.world.node node) values
            × (result ≡ length values) × AreOfRun self.now events values }
    {
        match self.machine(node) {
            Machine::Bare(_) => 0,
            Machine::Open { node, .. } => node.known(),
        }
    }

    /// The number of the newest release that a node has published; 0 if there is none, or the node is down.
    pub fn published(&self, node: NodeId) -> u64
        requires { node ≤ self.now.cluster }
        ensures count { result ≡ release_count (effective (fed_at self.now node)) }
        ensures begins { (w : AbstractWorld) → IsWorldOf self.now w
            → BeginsKnown (fed_at self.now node) (w.node node) }
        ensures decided { (events : List AbstractEvent) → Reached self.now events
            → AreOfRun self.now events (fed_at self.now node) }
    {
        match self.machine(node) {
            Machine::Bare(_) => 0,
            Machine::Open { node, .. } => node.newest(),
        }
    }

    /// What a node answers for release n and a path. Whichever events led here, and whichever node is asked,
    /// it is the answer of the one list of values that the messages decide.
    pub fn answer(&self, node: NodeId, n: u64, path: &str) -> Result<Answer, AskFault>
        requires { node ≤ self.now.cluster }
        ensures ok { IfOk result (λ a. (events : List AbstractEvent) → Reached self.now events
            → IsAnswer self.now events n path.now (answer_view a)) }
        ensures down { (w : AbstractWorld) → IsWorldOf self.now w → IsErrOf result AskFault.NotUp
            ↔ ((w.node node).mode ≡ Down) }
        ensures none { (w : AbstractWorld) → IsWorldOf self.now w → IsErrOf result AskFault.NoSuchRelease
            ↔ (((w.node node).mode ≢ Down)
            × ((n ≡ 0) ⊎ (release_count (effective (fed_at self.now node)) < n))) }
    {
        match self.machine(node) {
            Machine::Bare(_) => Err(AskFault::NotUp),
            Machine::Open { node, .. } => match node.answer(n, path) {
                Ok(answer) => Ok(answer),
                Err(AnswerFault::NoSuchRelease) => Err(AskFault::NoSuchRelease),
                Err(AnswerFault::OutOfMemory) => Err(AskFault::OutOfMemory),
            },
        }
    }
}
