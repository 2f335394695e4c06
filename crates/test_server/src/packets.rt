//! Packets as tables: how datagrams are sent, what bytes that came hold, and which letters go together.
use crate::comparing::{ensure, same};
use crate::group::{Boxed, Group, node_of};
use node::To;
use server::pack;
use server_packets::{Packet, first_frame, frames_in};
use site_drive::Letter;
use site_ids::NodeId;
use std::alloc::Global;
use std::process::Abort;

/// Datagrams, and the bytes that are sent for them.
type Sent = (&'static [&'static [u8]], &'static [u8]);

const SENT: &[Sent] = &[
    (&[], &[3]),
    (&[&[1, 6, 1]], &[1, 6, 1]),
    (&[&[1, 6], &[2]], &[3, 0, 0, 0, 2, 1, 6, 0, 0, 0, 1, 2]),
    (&[&[], &[9]], &[3, 0, 0, 0, 0, 0, 0, 0, 1, 9]),
    (
        &[&[3], &[3], &[3]],
        &[3, 0, 0, 0, 1, 3, 0, 0, 0, 1, 3, 0, 0, 0, 1, 3],
    ),
];

/// The packet takes one more datagram.
fn take(rt: &impl Abort, packet: &mut Packet, datagram: &[u8]) {
    ensure(rt, packet.has_room(datagram.len()), datagram);
    packet.push(datagram).expect(rt, "memory");
}

#[test]
fn datagrams_are_sent_as_one(rt: HostRuntime) {
    let mut packet = Packet::new(rt.alloc()).expect(&rt, "memory");
    for &(datagrams, sent) in SENT {
        packet.clear();
        for &datagram in datagrams {
            take(&rt, &mut packet, datagram);
        }
        let is = (packet.is_empty(), packet.bytes());
        same(&rt, is, (datagrams.is_empty(), sent));
    }
}

/// Bytes that came, and the datagrams of the packet that they are; `None` if they are no packet.
type Came = (&'static [u8], Option<&'static [&'static [u8]]>);

const CAME: &[Came] = &[
    (&[3], Some(&[])),
    (
        &[3, 0, 0, 0, 2, 1, 6, 0, 0, 0, 1, 2],
        Some(&[&[1, 6], &[2]]),
    ),
    (&[3, 0, 0, 0, 0, 0, 0, 0, 1, 9], Some(&[&[], &[9]])),
    (&[3, 0, 0, 0, 1, 7], Some(&[&[7]])),
    // No mark; a part of a length; a part of a datagram; a byte too many; a length past the end.
    (&[], None),
    (&[1, 6, 1, 0, 0, 0, 1], None),
    (&[2, 0, 0, 0, 1, 7], None),
    (&[3, 0, 0, 0], None),
    (&[3, 0, 0, 0, 2, 1], None),
    (&[3, 0, 0, 0, 1, 7, 0], None),
    (&[3, 255, 255, 255, 255, 7], None),
];

/// The frames hold these datagrams, and nothing after them.
fn hold(rt: &impl Abort, frames: &[u8], datagrams: &[&[u8]]) {
    let mut rest = frames;
    for &datagram in datagrams {
        let (first, behind) = first_frame(rest).expect(rt, "a datagram");
        same(rt, first, datagram);
        rest = behind;
    }
    ensure(rt, rest.is_empty(), frames);
}

#[test]
fn packets_that_came_are_opened(rt: HostRuntime) {
    for &(bytes, datagrams) in CAME {
        match (frames_in(bytes), datagrams) {
            (Some(frames), Some(datagrams)) => hold(&rt, frames, datagrams),
            (None, None) => {}
            _ => ensure(&rt, false, bytes),
        }
    }
}

/// The bytes of a first datagram, those of a second one, and whether they go together: 1,400 bytes are the
/// most, with five before the first and four before the second.
const ROOM: &[(usize, usize, bool)] = &[
    (1000, 391, true),
    (1000, 392, false),
    (1391, 0, true),
    (1392, 0, false),
    (32_790, 7, false),
];

/// As many bytes as `len`.
fn bytes(rt: &impl Abort, alloc: Global, len: usize) -> Vec<u8> {
    let mut bytes = Vec::new(alloc);
    bytes.resize(len, 7).expect(rt, "memory");
    bytes
}

#[test]
fn a_packet_has_a_bound(rt: HostRuntime) {
    let mut packet = Packet::new(rt.alloc()).expect(&rt, "memory");
    for &(first, second, together) in ROOM {
        packet.clear();
        take(&rt, &mut packet, bytes(&rt, rt.alloc(), first).as_slice());
        let is = (packet.bytes().len(), second, packet.has_room(second));
        same(&rt, is, (first, second, together));
    }
}

/// How many letters go into a packet, and how many bytes it has; `None` if it is empty.
type Packed = (usize, Option<usize>);

/// Letters: whom each is for, 0 for all, and how many bytes it has; and what goes into the first packet for
/// node 2.
const PACKINGS: &[(&[(u8, usize)], Packed)] = &[
    (&[], (0, None)),
    (&[(1, 9), (3, 9)], (2, None)),
    (&[(2, 9)], (1, Some(9))),
    (&[(0, 9), (1, 9), (2, 9)], (3, Some(27))),
    (&[(1, 9), (0, 800), (2, 800), (0, 9)], (2, Some(800))),
    (&[(0, 700), (2, 686), (3, 9), (2, 9)], (3, Some(1395))),
    (&[(0, 32_790), (2, 9)], (1, Some(32_790))),
];

/// Whom of three a letter is for.
fn addressee(rt: &impl Abort, number: u8) -> To {
    match number {
        0 => To::All,
        _ => To::One(node_of(rt, 3, number)),
    }
}

/// Letters of such rows.
fn written(rt: &impl Abort, alloc: Global, rows: &[(u8, usize)]) -> Vec<Letter> {
    let mut letters = Vec::new(alloc);
    for &(number, len) in rows {
        let to = addressee(rt, number);
        let bytes = bytes(rt, alloc, len);
        letters.push(Letter { to, bytes }).expect(rt, "memory");
    }
    letters
}

/// What goes into a packet for that node.
fn packed(
    rt: &impl Abort,
    packet: &mut Packet,
    letters: &[Letter],
    to: NodeId,
    alone: bool,
) -> Packed {
    let count = pack(letters, to, alone, packet).expect(rt, "memory");
    let holds = !packet.is_empty();
    (count, holds.then_some(packet.bytes().len()))
}

#[test]
fn letters_for_a_node_go_together(rt: HostRuntime) {
    let to = node_of(&rt, 3, 2);
    let mut packet = Packet::new(rt.alloc()).expect(&rt, "memory");
    for &(rows, wanted) in PACKINGS {
        let letters = written(&rt, rt.alloc(), rows);
        let is = packed(&rt, &mut packet, letters.as_slice(), to, false);
        same(&rt, (rows, is), (rows, wanted));
    }
}

/// The same, if that node reads no packets.
const ALONE: &[(&[(u8, usize)], Packed)] = &[
    (&[], (0, None)),
    (&[(1, 9), (3, 9)], (2, None)),
    (&[(0, 9), (1, 9), (2, 9)], (2, Some(9))),
    (&[(0, 32_790), (2, 9)], (1, Some(32_790))),
];

#[test]
fn letters_for_a_node_without_packets_go_one_by_one(rt: HostRuntime) {
    let to = node_of(&rt, 3, 2);
    let mut packet = Packet::new(rt.alloc()).expect(&rt, "memory");
    for &(rows, wanted) in ALONE {
        let letters = written(&rt, rt.alloc(), rows);
        let is = packed(&rt, &mut packet, letters.as_slice(), to, true);
        same(&rt, (rows, is), (rows, wanted));
    }
}

/// How many bytes a datagram has, and how many a packet of only that datagram has.
const ALONE_AS_PACKETS: &[(usize, Option<usize>)] = &[
    (0, Some(5)),
    (9, Some(14)),
    (1395, Some(1400)),
    (1396, None),
];

#[test]
fn a_datagram_alone_may_be_a_packet(rt: HostRuntime) {
    let mut packet = Packet::new(rt.alloc()).expect(&rt, "memory");
    for &(len, wanted) in ALONE_AS_PACKETS {
        packet.clear();
        take(&rt, &mut packet, bytes(&rt, rt.alloc(), len).as_slice());
        let is = packet.as_packet().map(|bytes| bytes.len());
        same(&rt, (len, is), (len, wanted));
    }
}

/// A piece that came, and how many of its datagrams are no message.
const PIECES: &[(&[u8], u64)] = &[
    (&[1, 6, 1, 0, 0, 0, 1], 0),
    (&[9], 1),
    (&[3], 0),
    (
        &[
            3, 0, 0, 0, 7, 1, 6, 1, 0, 0, 0, 1, 0, 0, 0, 1, 9, 0, 0, 0, 0,
        ],
        2,
    ),
    (&[3, 0, 0, 0, 9, 1, 6, 1, 0, 0, 0, 1], 1),
];

/// A server takes in a piece. Its step reports how many datagrams are no message; `None` if it halts.
fn malformed_in(rt: &impl Abort, server: &mut Boxed, piece: &[u8]) -> Option<u64> {
    server.mail.take_in(piece, 0).expect(rt, "memory");
    match server.step(0) {
        Ok(stepped) => Some(stepped.malformed),
        Err(_) => None,
    }
}

#[test]
fn a_piece_waits_as_its_datagrams(rt: HostRuntime) {
    let mut group = Group::new(&rt, rt.alloc(), 1);
    for &(piece, malformed) in PIECES {
        let is = malformed_in(&rt, group.server(&rt, 1), piece);
        same(&rt, (piece, is), (piece, Some(malformed)));
    }
}
