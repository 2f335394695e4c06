//! A server that begins over a record with values lets requests wait until it knows them, for two seconds at
//! most.
use crate::comparing::same;
use crate::group::Group;
use command::write;
use node::Submitted;
use site_ids::{Ticket, Value};
use std::alloc::Global;
use std::process::Abort;

const ASKS: &[u8] = b"GET /_newest HTTP/1.1\r\nHost: a\r\n\r\n";

const POSTS: &[u8] = b"POST /_submit/2/1 HTTP/1.1\r\nHost: a\r\nContent-Length: 8\r\n\r\nrelease\n";

const NONE: &[u8] =
    b"HTTP/1.1 200 OK\r\nContent-Type: text/plain; charset=utf-8\r\nContent-Length: 2\r\n\r\n0\n";

const ONE: &[u8] =
    b"HTTP/1.1 200 OK\r\nContent-Type: text/plain; charset=utf-8\r\nContent-Length: 2\r\n\r\n1\n";

const QUEUED: &[u8] =
    b"HTTP/1.1 202 Accepted\r\nContent-Type: text/plain; charset=utf-8\r\nContent-Length: 7\r\n\r\nqueued\n";

/// Which servers are away after all ended and began again, what a client sends the first one, the moment, and
/// what the client has by then.
const ROWS: &[(&[u8], &[u8], u64, &[u8])] = &[
    (&[2, 3], ASKS, 1_999, b""),
    (&[2, 3], ASKS, 2_000, NONE),
    (&[2, 3], POSTS, 1_999, b""),
    (&[2, 3], POSTS, 2_000, QUEUED),
    (&[], ASKS, 150, ONE),
    (&[3], POSTS, 150, QUEUED),
];

/// A release.
fn release(rt: &impl Abort, alloc: Global) -> Value {
    let ticket = Ticket {
        editor: 1,
        number: 1,
    };
    let bytes = write(alloc, ticket, b"release\n").expect(rt, "a command");
    Value::from_bytes(bytes).expect(rt, "a value")
}

/// Three servers that know a release are ended, and begin again.
fn begun_again(rt: &impl Abort, alloc: Global) -> Group {
    let mut group = Group::new(rt, alloc, 3);
    let value = release(rt, alloc);
    let done = group.server(rt, 1).served.node.submit(&value);
    same(rt, done, Ok(Submitted::Queued));
    group.goes_on(rt, 100, &[]);
    group.stands(rt, 1, 1, 1);
    group.crash(rt, 0);
    group
}

#[test]
fn requests_are_left_until_a_server_knows_what_it_had(rt: HostRuntime) {
    for &(away, sends, until, wanted) in ROWS {
        let mut group = begun_again(&rt, rt.alloc());
        group.comes(&rt, 1, sends, usize::MAX);
        let millis = until.saturating_sub(group.now);
        group.goes_on(&rt, millis, away);
        let client = group.leaves(&rt, 1).expect(&rt, "a client");
        same(&rt, (until, client.got()), (until, wanted));
    }
}

#[test]
fn a_server_over_an_empty_record_answers_at_once(rt: HostRuntime) {
    let mut group = Group::new(&rt, rt.alloc(), 3);
    group.comes(&rt, 1, ASKS, usize::MAX);
    group.goes_on(&rt, 1, &[2, 3]);
    let client = group.leaves(&rt, 1).expect(&rt, "a client");
    same(&rt, client.got(), NONE);
}
