//! Groups of servers by scripts: posts at each node, a node that was away, a power cut, clients that send a
//! byte at a time.
use crate::comparing::same;
use crate::group::Group;
use std::alloc::Global;
use std::process::Abort;

const QUEUED: &[u8] =
    b"HTTP/1.1 202 Accepted\r\nContent-Type: text/plain; charset=utf-8\r\nContent-Length: 7\r\n\r\nqueued\n";

const NEWEST: &[u8] = b"GET /_newest HTTP/1.1\r\nHost: a\r\n\r\n";

const HEAD: &[u8] = b"HTTP/1.1 200 OK\r\n";

/// A release, under a ticket of that editor and number.
fn post(rt: &impl Abort, alloc: Global, editor: u8, number: u8) -> String {
    format!(in alloc;
        "POST /_submit/{editor}/{number} HTTP/1.1\r\nHost: a\r\nContent-Length: 8\r\n\r\nrelease\n"
    ).expect(rt, "memory")
}

/// Clients come to a node, `count` of them. Each posts a release, in pieces of `piece` bytes.
fn posts(rt: &impl Abort, group: &mut Group, node: u8, count: u8, piece: usize) {
    for number in 1..=count {
        let sends = post(rt, group.alloc, node, number);
        group.comes(rt, node, sends.as_bytes(), piece);
    }
}

#[test]
fn sixty_four_posts_at_each_of_three_nodes_are_known_at_each(rt: HostRuntime) {
    let mut group = Group::new(&rt, rt.alloc(), 3);
    for node in 1..=3 {
        posts(&rt, &mut group, node, 64, usize::MAX);
    }
    group.goes_on(&rt, 2_000, &[]);
    for node in 1..=3 {
        group.stands(&rt, node, 192, 192);
        group.got(&rt, node, 64, QUEUED, QUEUED);
    }
}

#[test]
fn a_node_that_was_away_comes_back(rt: HostRuntime) {
    let mut group = Group::new(&rt, rt.alloc(), 3);
    posts(&rt, &mut group, 1, 40, usize::MAX);
    group.goes_on(&rt, 500, &[3]);
    group.stands(&rt, 1, 40, 40);
    group.stands(&rt, 3, 0, 0);
    group.goes_on(&rt, 1_000, &[]);
    group.stands(&rt, 3, 40, 40);
}

/// How much of what was not synced a power cut leaves.
const CHOICES: &[u8] = &[0, 1, 7];

#[test]
fn a_power_cut_loses_nothing_that_is_known(rt: HostRuntime) {
    for &choice in CHOICES {
        let mut group = Group::new(&rt, rt.alloc(), 3);
        posts(&rt, &mut group, 1, 3, usize::MAX);
        group.goes_on(&rt, 200, &[]);
        group.stands(&rt, 2, 3, 3);
        group.crash(&rt, choice);
        posts(&rt, &mut group, 2, 1, usize::MAX);
        group.goes_on(&rt, 3_000, &[]);
        for node in 1..=3 {
            group.stands(&rt, node, 4, 4);
        }
    }
}

#[test]
fn a_byte_at_a_time_is_one_submission_and_holds_nobody_up(rt: HostRuntime) {
    let mut group = Group::new(&rt, rt.alloc(), 1);
    posts(&rt, &mut group, 1, 2, 1);
    group.comes(&rt, 1, NEWEST, usize::MAX);
    // The quick one is answered at once, while the slow ones still send.
    group.goes_on(&rt, 3, &[]);
    group.stands(&rt, 1, 0, 0);
    group.goes_on(&rt, 400, &[]);
    group.stands(&rt, 1, 2, 2);
    group.got(&rt, 1, 3, b"HTTP/1.1 20", b"\n");
}

#[test]
fn each_client_gets_its_own_response(rt: HostRuntime) {
    let mut group = Group::new(&rt, rt.alloc(), 1);
    group.comes(&rt, 1, NEWEST, usize::MAX);
    posts(&rt, &mut group, 1, 1, usize::MAX);
    group.goes_on(&rt, 2, &[]);
    group.next_got(&rt, 1, HEAD, b"\n0\n");
    let posted = group.leaves(&rt, 1).expect(&rt, "a client");
    same(&rt, posted.got(), QUEUED);
}
