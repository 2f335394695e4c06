//! Whom a server hears.

ghost use Rattle.std.specs.Prelude.{◌≡◌, ◌-◌, set};
ghost use Rattle.site_ids.specs.NodeSets.{with_node};
ghost use Rattle.server_notes.specs.Listening.{first_listening, silence_at, AreHeard, FindsEnded};
ghost use Rattle.server_notes.specs.Listening.{FindsSilent, Hears};
ghost use Rattle.server_notes.specs.Noting.{told_at, ended_told};

use crate::silence::Silence;
use site_ids::{Cluster, NodeId, NodeSet};

/// For how long each node, and a majority, was not heard. A majority is heard each time that as many
/// different nodes were. A server hears itself.
#[derive(Clone, Copy, Drop)]
pub struct Listening {
    cluster: Cluster,
    me: NodeId,
    pub(crate) silences: [Silence; 9],
    // those that were heard since a majority was
    gathered: NodeSet,
    pub(crate) majority: Silence,
}

/// These nodes, and the server itself.
fn with_own(me: NodeId, heard: NodeSet) -> NodeSet
    ensures { result ≡ with_node heard me }
{
    let mut all = heard;
    all.insert(me);
    all
}

/// The silences of these nodes end.
fn hear_each(silences: [Silence; 9], heard: [bool; 9], now: u64) -> [Silence; 9]
    ensures { AreHeard silences heard now result }
{
    let mut after = silences;
    for i in 0..9 {
        after[i] = silences[i].passed(heard[i], now);
    }
    after
}

impl Listening {
    /// The server `me` of a group of that size begins.
    pub fn new(cluster: Cluster, me: NodeId) -> Listening
        ensures { result ≡ first_listening cluster me }
    {
        Listening {
            cluster,
            me,
            silences: [Silence::new(); 9],
            gathered: NodeSet::new(),
            majority: Silence::new(),
        }
    }

    /// Something came from these nodes. Returns whether a majority is heard now.
    pub fn hear(&mut self, now: u64, heard: NodeSet) -> bool
        ensures { Hears self.old now heard result self.new }
    {
        let heard = with_own(self.me, heard);
        self.silences = hear_each(self.silences, heard.places(), now);
        self.gathered = heard.union(self.gathered);
        if self.gathered.len() < usize::from(self.cluster.quorum()) {
            return false;
        }
        self.majority = self.majority.heard(now);
        self.gathered = NodeSet::new();
        true
    }

    /// The first node whose silence is due to be reported, and the length of that silence in milliseconds.
    pub fn first_silent(&self, now: u64) -> Option<(NodeId, u64)>
        ensures { FindsSilent self.now now result }
    {
        for number in 1..=self.cluster.size() {
            let node = self.cluster.node(number)?;
            let silence = self.silences[usize::from(number) - 1];
            if silence.is_long(now) {
                return Some((node, silence.length(now)));
            }
        }
        None
    }

    /// The first node whose silence has ended, which is due to be reported, and the length of that silence in
    /// milliseconds.
    pub fn first_ended(&self) -> Option<(NodeId, u64)>
        ensures { FindsEnded self.now result }
    {
        for number in 1..=self.cluster.size() {
            let node = self.cluster.node(number)?;
            let silence = self.silences[usize::from(number) - 1];
            if silence.ended != 0 {
                return Some((node, silence.ended));
            }
        }
        None
    }

    /// The silence of that node was reported.
    pub(crate) fn tell_silent(&mut self, node: NodeId, now: u64)
        ensures { self.new ≡ record self.old {
          silences = set self.old.silences (node - 1)
              (told_at (silence_at self.old.silences (node - 1)) now);
        } }
    {
        let at = usize::from(node.number()) - 1;
        self.silences[at] = self.silences[at].told(now);
    }

    /// The end of that node's silence was reported.
    pub(crate) fn tell_ended(&mut self, node: NodeId)
        ensures { self.new ≡ record self.old {
          silences = set self.old.silences (node - 1)
              (ended_told (silence_at self.old.silences (node - 1)));
        } }
    {
        let at = usize::from(node.number()) - 1;
        self.silences[at] = self.silences[at].ended_told();
    }
}
