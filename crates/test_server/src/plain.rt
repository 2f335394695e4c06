//! A node that is built by the formats only, among servers. To it each datagram is one message, and a packet
//! is no message.
use crate::comparing::{ensure, same};
use crate::group::{Group, node_of, packed, turn};
use command::write;
use node::Submitted;
use server::Peers;
use server_pace::Times;
use server_packets::{MARK, first_frame, frames_in};
use site_ids::{Ticket, Value};
use std::alloc::Global;
use std::process::Abort;

/// Three servers, the third of which neither reads packets nor sends any.
#[derive(Drop)]
struct Mixed {
    group: Group,
    // how many packets came between the first two; how many the third was sent, and how many of these held
    // several messages
    packets: u32,
    shown: u32,
    several: u32,
}

/// The number of the plain node.
const PLAIN: u8 = 3;

/// A release, under that ticket.
fn release(rt: &impl Abort, alloc: Global, editor: u8, number: u64) -> Value {
    let ticket = Ticket {
        editor: u32::from(editor),
        number,
    };
    let bytes = write(alloc, ticket, b"release\n").expect(rt, "a command");
    Value::from_bytes(bytes).expect(rt, "a value")
}

/// Whether a packet holds one datagram.
fn holds_one(packet: &[u8]) -> bool {
    match frames_in(packet) {
        Some(frames) => match first_frame(frames) {
            Some((_, rest)) => rest.is_empty(),
            None => false,
        },
        None => false,
    }
}

impl Mixed {
    fn new(rt: &impl Abort, alloc: Global) -> Mixed {
        Mixed {
            group: Group::new(rt, alloc, 3),
            packets: 0,
            shown: 0,
            several: 0,
        }
    }

    /// A value is submitted to the server of that number.
    fn submit(&mut self, rt: &impl Abort, at: u8, number: u64) {
        let value = release(rt, self.group.alloc, at, number);
        let done = self.group.server(rt, at).served.node.submit(&value);
        same(rt, (at, number, done), (at, number, Ok(Submitted::Queued)));
    }

    /// Submits `count` values there, a few at a time, while another server is away.
    fn publish(&mut self, rt: &impl Abort, at: u8, count: u64, away: u8) {
        for number in 1..=count {
            self.submit(rt, at, number);
            if number % 50 == 0 {
                self.goes_on(rt, 60, &[away]);
            }
        }
    }

    /// A piece comes, unless it is a packet from or to the plain node.
    fn bring(&mut self, rt: &impl Abort, from: u8, to: u8, piece: &[u8]) {
        let is_packet = piece.first() == Some(&MARK);
        if is_packet && (from == PLAIN || to == PLAIN) {
            let is_shown = to == PLAIN;
            self.shown = self.shown.saturating_add(u32::from(is_shown));
            self.several = self
                .several
                .saturating_add(u32::from(is_shown && !holds_one(piece)));
            return;
        }
        self.packets = self.packets.saturating_add(u32::from(is_packet));
        let now = self.group.now;
        let mail = &mut self.group.server(rt, to).mail;
        mail.take_in(piece, now).expect(rt, "memory");
    }

    /// Brings what the letters of one server have for another one.
    fn carry(&mut self, rt: &impl Abort, from: u8, to: u8) {
        let (alloc, now) = (self.group.alloc, self.group.now);
        let node = node_of(rt, 3, to);
        let pieces = packed(rt, alloc, &mut self.group.server(rt, from).mail, node, now);
        for piece in &pieces {
            self.bring(rt, from, to, piece.as_slice());
        }
    }

    /// A pass of one server. Its letters reach each other server, except for those that are away.
    fn pass(&mut self, rt: &impl Abort, from: u8, away: &[u8]) {
        let now = self.group.now;
        ensure(rt, turn(self.group.server(rt, from), now).is_ok(), from);
        for to in 1..=3 {
            if to != from && !away.contains(&to) {
                self.carry(rt, from, to);
            }
        }
    }

    /// In each of `millis` milliseconds each server makes a pass, except for those that are away.
    fn goes_on(&mut self, rt: &impl Abort, millis: u64, away: &[u8]) {
        for _ in 0..millis {
            self.group.now = self.group.now.saturating_add(1);
            for number in 1..=3 {
                if !away.contains(&number) {
                    self.pass(rt, number, away);
                }
            }
        }
    }

    /// Each server knows `known` values.
    fn all_stand(&mut self, rt: &impl Abort, known: u32) {
        for number in 1..=3 {
            self.group.stands(rt, number, known, u64::from(known));
        }
    }
}

#[test]
fn a_plain_node_is_told_message_by_message(rt: HostRuntime) {
    let mut mixed = Mixed::new(&rt, rt.alloc());
    for number in 1..=20 {
        for at in 1..=3 {
            mixed.submit(&rt, at, number);
        }
    }
    mixed.goes_on(&rt, 1_000, &[]);
    mixed.all_stand(&rt, 60);
    ensure(&rt, mixed.packets >= 10, mixed.packets);
    // Each of the two others shows it a packet a second.
    ensure(&rt, mixed.shown <= 4, mixed.shown);
    same(&rt, mixed.several, 0);
}

/// Who is away, and where values are submitted meanwhile.
const AWAY: &[(u8, u8)] = &[(PLAIN, 1), (1, PLAIN), (2, 1)];

#[test]
fn a_plain_node_catches_up_and_is_caught_up_with(rt: HostRuntime) {
    for &(away, at) in AWAY {
        let mut mixed = Mixed::new(&rt, rt.alloc());
        mixed.publish(&rt, at, 1_000, away);
        mixed.goes_on(&rt, 500, &[away]);
        mixed.group.stands(&rt, at, 1_000, 1_000);
        mixed.group.stands(&rt, away, 0, 0);
        mixed.goes_on(&rt, 2_000, &[]);
        mixed.all_stand(&rt, 1_000);
    }
}

/// When packets of node 2 came, a moment, and whether node 2 reads packets then.
const READS: &[(&[u64], u64, bool)] = &[
    (&[], 0, false),
    (&[], 9_000, false),
    (&[100], 100, true),
    (&[100], 5_099, true),
    (&[100], 5_100, false),
    (&[100, 5_000], 5_100, true),
    (&[100, 9_000], 9_000, true),
];

#[test]
fn who_sent_no_packet_for_long_is_told_plainly(rt: HostRuntime) {
    let (it, other) = (node_of(&rt, 3, 2), node_of(&rt, 3, 1));
    for &(came, now, reads) in READS {
        let mut peers = Peers::new(Times::new(None, None));
        for &at in came {
            peers.hear(it, at);
        }
        let is = (peers.reads(it, now), peers.reads(other, now));
        same(&rt, (came, now, is), (came, now, (reads, false)));
    }
}

/// When a packet went to node 2, the moment, and whether the next packet is due.
const SHOWN: &[(Option<u64>, u64, bool)] = &[
    (None, 0, true),
    (Some(0), 999, false),
    (Some(0), 1_000, true),
    (Some(700), 1_000, false),
];

#[test]
fn a_packet_is_shown_once_a_second(rt: HostRuntime) {
    let (it, other) = (node_of(&rt, 3, 2), node_of(&rt, 3, 1));
    for &(went, now, due) in SHOWN {
        let mut peers = Peers::new(Times::new(None, None));
        if let Some(at) = went {
            peers.show(it, at);
        }
        let is = (peers.is_due(it, now), peers.is_due(other, now));
        same(&rt, (went, now, is), (went, now, (due, true)));
    }
}
