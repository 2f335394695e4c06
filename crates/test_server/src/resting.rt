//! A server that begins: nothing waits and nobody is seated. How long it rests after a step depends on what
//! it saw.
use crate::comparing::{ensure, same};
use crate::group::{Boxed, fresh};
use server::Stepped;
use site_ids::{Cluster, NodeSet};
use std::alloc::Global;
use std::process::Abort;

/// A question of node 1 about instance 1.
const QUESTION: &[u8] = &[1, 6, 1, 0, 0, 0, 1];

/// What a server that begins saw in a step: whether datagrams came, requests were answered, bytes of clients
/// moved, and a datagram waits since; how many microseconds it rests after that step, and after the next one,
/// in which nothing came. It begins quiet; a response wakes it, and so do bytes of a client.
const RESTS: &[(bool, bool, bool, bool, Option<u64>, Option<u64>)] = &[
    (false, false, false, false, Some(20_000), Some(20_000)),
    (true, false, false, false, None, Some(20_000)),
    (false, true, false, false, None, Some(0)),
    (false, false, true, false, None, Some(0)),
    (true, true, true, false, None, Some(0)),
    (false, false, false, true, None, None),
    (false, true, false, true, None, None),
];

/// The only server of its group.
fn alone(rt: &impl Abort, alloc: Global) -> Boxed {
    let cluster = Cluster::new(1).expect(rt, "a cluster");
    let me = cluster.node(1).expect(rt, "a node");
    fresh(alloc, cluster, me).expect(rt, "memory")
}

/// A step in which datagrams came or not, and requests were answered or not.
fn step_of(came: bool, answered: bool) -> Stepped {
    Stepped {
        came,
        malformed: 0,
        heard: NodeSet::new(),
        answered,
    }
}

#[test]
fn a_server_begins_with_nothing(rt: HostRuntime) {
    let server = alone(&rt, rt.alloc());
    ensure(&rt, server.mail.is_empty(), "mail");
    same(&rt, server.mail.letters().len(), 0);
    same(&rt, server.seats.len(), 0);
}

#[test]
fn a_server_rests_by_what_it_saw(rt: HostRuntime) {
    for &(came, answered, moved, waits, first, then) in RESTS {
        let mut server = alone(&rt, rt.alloc());
        if waits {
            server.mail.take_in(QUESTION, 0).expect(&rt, "memory");
        }
        let saw = step_of(came, answered);
        let rest = server.rest(saw, moved);
        let next = server.rest(step_of(false, false), false);
        same(
            &rt,
            (came, answered, moved, rest, next),
            (came, answered, moved, first, then),
        );
    }
}
