//! Links over sockets on loopback, in one thread.
use crate::comparing::{ensure, same};
use crate::driven::datagrams::PROMISE_OF_2;
use crate::driven::driven_node::{DrivenNode, long, passes};
use crate::samples::node_of;
use site_drive::{LastCall, Link, UdpLink};
use std::alloc::Global;
use std::net::{Ipv4Addr, Net, SocketAddr, UdpSocket};
use std::process::Abort;
use std::time::Duration;
use wire::MAX_MESSAGE;

/// A port of that number, or one that the system picks.
fn loopback(port: u16) -> SocketAddr {
    SocketAddr::from((Ipv4Addr::LOCALHOST, port))
}

/// A receive waits a few milliseconds at most.
fn socket(rt: &(impl Net + Abort)) -> UdpSocket {
    let socket = UdpSocket::bind(rt, loopback(0)).expect(rt, "a socket");
    let set = socket.set_read_timeout(Some(Duration::from_millis(5)));
    set.expect(rt, "a timeout");
    socket
}

fn address(rt: &impl Abort, socket: &UdpSocket) -> SocketAddr {
    socket.local_addr().expect(rt, "an address")
}

/// Node 1 over its socket, with the addresses of all nodes.
fn server(
    rt: &impl Abort,
    alloc: Global,
    socket: UdpSocket,
    addresses: &[SocketAddr],
) -> Box<DrivenNode<UdpLink>> {
    let peers = Vec::from_slice(alloc, addresses).expect(rt, "addresses");
    let size = u8::try_from(addresses.len()).expect(rt, "a size");
    DrivenNode::new(rt, alloc, size, UdpLink::new(socket, peers))
}

/// Datagrams of the longest length: more than the queue of any socket holds.
const MANY: u32 = 1_000;

/// How many datagrams wait at a socket. Each is whole, of the longest length or a question.
fn drained(rt: &impl Abort, socket: &UdpSocket, buf: &mut [u8]) -> u32 {
    let mut count: u32 = 0;
    for _ in 0..MANY {
        let Ok((length, _)) = socket.recv_from(buf) else {
            break;
        };
        ensure(rt, length == MAX_MESSAGE || length == 7, length);
        count = count.saturating_add(1);
    }
    count
}

/// Sends more to node 2 than its queue holds, and then a question.
fn overfill(rt: &impl Abort, server: &mut DrivenNode<UdpLink>, datagram: &[u8]) {
    let two = node_of(rt, server.node.cluster(), 2);
    for number in 0..MANY {
        ensure(rt, server.link.send(two, datagram).is_ok(), number);
    }
    passes(rt, server.drive(0), 0, 0);
}

/// Nobody reads the socket of node 2. After the loss the next question arrives.
fn lose(rt: &impl Abort, server: &mut DrivenNode<UdpLink>, reader: &UdpSocket) {
    let mut datagram = long(rt, server.alloc, "", MAX_MESSAGE);
    overfill(rt, server, datagram.as_slice());
    let count = drained(rt, reader, datagram.as_mut_slice());
    ensure(rt, 0 < count && count < MANY, count);
    passes(rt, server.drive(0), 0, 0);
    same(rt, drained(rt, reader, datagram.as_mut_slice()), 1);
    same(rt, server.link.failures(), 0);
}

#[test]
fn a_full_queue_loses_datagrams_alone(rt: HostRuntime) {
    let here = socket(&rt);
    let reader = socket(&rt);
    let addresses = [address(&rt, &here), address(&rt, &reader)];
    let mut server = server(&rt, rt.alloc(), here, &addresses);
    lose(&rt, &mut server, &reader);
}

/// Nothing can be sent to node 2, whose port is 0. What node 1 sends to itself comes.
fn fail(rt: &impl Abort, server: &mut DrivenNode<UdpLink>) {
    passes(rt, server.drive(1), 0, 1);
    passes(rt, server.drive(1), 0, 1);
    same(rt, server.link.failures(), 2);
}

#[test]
fn a_datagram_to_nowhere_is_a_failure(rt: HostRuntime) {
    let here = socket(&rt);
    let addresses = [address(&rt, &here), loopback(0)];
    let mut server = server(&rt, rt.alloc(), here, &addresses);
    fail(&rt, &mut server);
}

/// The longest promise, and the same with more after it, which a receive cuts: lengths, and how many are
/// malformed.
const LENGTHS: &[(usize, u32)] = &[(32_790, 0), (32_791, 1), (40_000, 1)];

fn send(rt: &impl Abort, alloc: Global, length: usize, from: &UdpSocket, to: SocketAddr) {
    let datagram = long(rt, alloc, PROMISE_OF_2, length);
    ensure(rt, from.send_to(datagram.as_slice(), to).is_ok(), length);
}

fn hear_each(rt: &impl Abort, server: &mut DrivenNode<UdpLink>, peer: &UdpSocket, to: SocketAddr) {
    for &(length, malformed) in LENGTHS {
        send(rt, server.alloc, length, peer, to);
        passes(rt, server.turns(1, LastCall::Nothing), malformed, 0);
    }
}

#[test]
fn a_cut_datagram_is_malformed(rt: HostRuntime) {
    let here = socket(&rt);
    let there = socket(&rt);
    let to = address(&rt, &here);
    let mut server = server(&rt, rt.alloc(), here, &[to, address(&rt, &there), to]);
    hear_each(&rt, &mut server, &there, to);
}
