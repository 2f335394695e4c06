//! A server with one allocation that fails. Its result is the same as without, or it ends for lack of memory.
//! Then another server opens over its disk, and has that result.
//!
//! Each test tries everything twice. A second program, `tools/gate/refuse-growths`, runs each test once for
//! each of its allocations, and makes that one fail: the first try meets it, the second does not. Without
//! that program no allocation fails.
use crate::client::Client;
use crate::comparing::{ensure, same};
use crate::group::{Boxed, fresh, reopened, turn};
use server::{Partings, ServerFault};
use server_pace::Times;
use site_ids::Cluster;
use std::alloc::{AllocError, Global};
use std::process::Abort;

const POST: &[u8] = b"POST /_submit/1/1 HTTP/1.1\r\nHost: a\r\nContent-Length: 8\r\n\r\nrelease\n";

/// A packet with a question of node 1 itself, and with a datagram that is no message.
const CAME: &[u8] = &[3, 0, 0, 0, 7, 1, 6, 1, 0, 0, 0, 1, 0, 0, 0, 1, 255];

/// A server takes a client and a packet.
fn takes(alloc: Global, server: &mut Boxed) -> Result<(), AllocError> {
    let client = Client::new(alloc, POST, usize::MAX)?;
    drop(server.seats.admit(client, 0)?);
    server.mail.take_in(CAME, 0)
}

/// Whether the server ended because an allocation failed. (A disk in memory that cannot allocate has failed.)
fn wants_memory(fault: &ServerFault) -> bool {
    matches!(fault, ServerFault::OutOfMemory | ServerFault::Stopped)
}

/// Whether it takes them, and goes on for `millis` milliseconds. If not, an allocation failed.
fn goes_on(rt: &impl Abort, alloc: Global, server: &mut Boxed, millis: u64) -> bool {
    if takes(alloc, server).is_err() {
        return false;
    }
    for now in 0..millis {
        if let Err(fault) = turn(server, now) {
            ensure(rt, wants_memory(&fault), now);
            return false;
        }
    }
    true
}

/// Node 1 of one, over a new record. It is made once more if an allocation failed.
fn first(rt: &impl Abort, alloc: Global, cluster: Cluster) -> Boxed {
    let me = cluster.node(1).expect(rt, "a node");
    match fresh(alloc, cluster, me) {
        Some(server) => server,
        None => fresh(alloc, cluster, me).expect(rt, "memory"),
    }
}

#[test]
fn steps(rt: HostRuntime) {
    let alloc = rt.alloc();
    let cluster = Cluster::new(1).expect(&rt, "a cluster");
    let me = cluster.node(1).expect(&rt, "a node");
    let mut server = first(&rt, alloc, cluster);
    if !goes_on(&rt, alloc, &mut server, 40) {
        server = reopened(alloc, cluster, me, server, None).expect(&rt, "memory");
        ensure(&rt, goes_on(&rt, alloc, &mut server, 40), "again");
    }
    same(&rt, server.served.node.newest(), 1);
}

/// Room for clients that have their last response. It is made once more if an allocation failed.
fn room(rt: &impl Abort, alloc: Global) -> Partings<Client> {
    let times = Times::new(None, None);
    match Partings::new(alloc, times) {
        Ok(all) => all,
        Err(_) => Partings::new(alloc, times).expect(rt, "memory"),
    }
}

/// A client that sends nothing. It is made once more if an allocation failed.
fn silent(rt: &impl Abort, alloc: Global) -> Client {
    match Client::new(alloc, b"", usize::MAX) {
        Ok(client) => client,
        Err(_) => Client::new(alloc, b"", usize::MAX).expect(rt, "memory"),
    }
}

#[test]
fn partings_have_their_room(rt: HostRuntime) {
    let alloc = rt.alloc();
    let mut all = room(&rt, alloc);
    for k in 0..66 {
        let gone = all.take_in(silent(&rt, alloc), k);
        same(&rt, (k, gone.is_some()), (k, k > 63));
        drop(gone);
    }
    same(&rt, all.len(), 64);
    drop(all);
}
