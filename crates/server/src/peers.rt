//! Which other nodes read packets.
//!
//! A datagram is one message, as the formats say. A packet of several (`server_packets`) is this program's
//! own, and a node that is built from the formats only loses what is in it. So a node is sent packets as long
//! as packets come from it, and each node is sent one once in a while.

ghost use Rattle.std.specs.Prelude.{◌≡◌, ◌-◌, get_or, set, Some, None};
ghost use Rattle.server.specs.Speaking.{heard_of, no_peers, reads};
ghost use Rattle.server_times.specs.Timing.{passed};

use server_times::{Times, has_passed};
use site_ids::NodeId;

/// When packets came from other nodes and went to them, in milliseconds since this server began: node p at
/// index p - 1.
#[derive(Clone, Copy, Drop)]
pub struct Peers {
    times: Times,
    heard: [Option<u64>; 9],
    shown: [Option<u64>; 9],
}

fn place_of(node: NodeId) -> usize
    ensures { result ≡ node - 1 }
{
    usize::from(node.number()) - 1
}

impl Peers {
    /// No packet came, and none went.
    pub fn new(times: Times) -> Peers
        ensures { result ≡ no_peers times }
    {
        Peers {
            times,
            heard: [None; 9],
            shown: [None; 9],
        }
    }

    /// Notes that a packet came from a node.
    pub fn hear(&mut self, node: NodeId, now: u64)
        ensures { self.new ≡ heard_of node now self.old }
    {
        self.heard[place_of(node)] = Some(now);
    }

    /// Whether a node reads packets: one came from it not long ago.
    pub fn reads(&self, node: NodeId, now: u64) -> bool
        ensures { result ≡ reads self.now node now }
    {
        !has_passed(self.heard[place_of(node)], now, self.times.packets)
    }

    /// Whether it is time to send a node a packet, even of one datagram.
    pub fn is_due(&self, node: NodeId, now: u64) -> bool
        ensures { result ≡ passed (get_or self.now.shown (node - 1) None) now self.now.times.showing }
    {
        has_passed(self.shown[place_of(node)], now, self.times.showing)
    }

    /// Notes that a packet went to a node.
    pub fn show(&mut self, node: NodeId, now: u64)
        ensures { self.new ≡ record self.old { shown = set self.old.shown (node - 1) (Some now) } }
    {
        self.shown[place_of(node)] = Some(now);
    }
}
