//! Which nodes are there: they were heard not long ago.

ghost use Rattle.std.specs.Prelude.{◌≡◌, ◌≤◌, Some, nat_le, if◌then◌else◌};
ghost use Rattle.site_ids.specs.NodeSets.{no_nodes, AreUnited};
ghost use Rattle.server_pace.specs.Presence.{before, comes_before, has_turn, is_there, nobody_heard};
ghost use Rattle.server_pace.specs.Presence.{AreHeard};

use crate::places::places_behind;
use server_times::{Times, has_passed};
use site_ids::{NodeId, NodeSet};

/// When each node was heard last: node p at index p - 1, in milliseconds since this server began.
#[derive(Clone, Copy, Debug, PartialEq, Eq, Drop)]
pub struct Present {
    /// The nodes that were heard since the last `note`.
    pub came: NodeSet,
    pub at: [Option<u64>; 9],
}

fn moment_of(came: bool, at: Option<u64>, now: u64) -> Option<u64>
    ensures { result ≡ (if came then Some now else at) }
{
    if came { Some(now) } else { at }
}

/// When each node was heard last, if those of `came` were heard now.
fn heard_at(came: [bool; 9], at: &[Option<u64>; 9], now: u64) -> [Option<u64>; 9]
    ensures { AreHeard came at.now now result }
{
    let mut all = [None; 9];
    for i in 0..9 {
        all[i] = moment_of(came[i], at[i], now);
    }
    all
}

impl Present {
    /// No node was heard.
    pub fn new() -> Present
        ensures { result ≡ nobody_heard }
    {
        Present {
            came: NodeSet::new(),
            at: [None; 9],
        }
    }

    /// These nodes were heard, too.
    pub fn hear(&mut self, nodes: NodeSet)
        ensures united { AreUnited nodes self.old.came self.new.came }
        ensures same { self.new.at ≡ self.old.at }
    {
        self.came = nodes.union(self.came);
    }

    /// The nodes that were heard since the last `note` were heard now.
    pub fn note(&mut self, now: u64)
        ensures heard { AreHeard self.old.came self.old.at now self.new.at }
        ensures none { self.new.came ≡ no_nodes }
    {
        self.at = heard_at(self.came.places(), &self.at, now);
        self.came = NodeSet::new();
    }

    /// Whether the node of that number is there.
    fn is_there(&self, times: Times, now: u64, number: u8) -> bool
        requires { (1 ≤ number) × (number ≤ 9) }
        ensures { result ≡ is_there self.now.at times now number }
    {
        !has_passed(self.at[usize::from(number) - 1], now, times.silent)
    }

    /// Whether the node of that number is there, and comes after `to` before this node does.
    fn comes_before(&self, times: Times, now: u64, to: NodeId, me: NodeId, number: u8) -> bool
        requires { (1 ≤ number) × (number ≤ 9) }
        ensures { result ≡ comes_before self.now.at times now to me number }
    {
        self.is_there(times, now, number)
            && places_behind(to, number) < places_behind(to, me.number())
    }

    /// Whether at most `repeats` other nodes come before this one to tell that node.
    fn comes_soon(&self, times: Times, now: u64, to: NodeId, me: NodeId, repeats: u32) -> bool
        ensures { result ≡ nat_le (before self.now.at times now to me 9) repeats }
    {
        let mut before = 0;
        for number in 1..=9 {
            if self.comes_before(times, now, to, me, number) {
                before += 1;
            }
        }
        before <= repeats
    }

    /// Whether it is this node's turn to tell that one, whose last `repeats` questions came no further. A
    /// node always tells itself what it has on record: that takes no datagram.
    pub fn has_turn(&self, times: Times, now: u64, to: NodeId, me: NodeId, repeats: u32) -> bool
        ensures { result ≡ has_turn self.now.at times now to me repeats }
    {
        to.number() == me.number() || self.comes_soon(times, now, to, me, repeats)
    }
}
