//! A server waits for a receipt that is not there yet, and holds back for a moment what goes before it.
use crate::comparing::same;
use crate::group::Group;
use server::Hold;
use server_pace::Times;
use std::alloc::Global;
use std::process::Abort;

const ASKS: &[u8] = b"GET /_ticket/1/1 HTTP/1.1\r\nHost: a\r\n\r\n";

/// The same path, percent-encoded.
const ASKS_OTHERWISE: &[u8] = b"GET /%5Fticket/1/1 HTTP/1.1\r\nHost: a\r\n\r\n";

const ASKS_TWICE: &[u8] =
    b"GET /_ticket/1/1 HTTP/1.1\r\nHost: a\r\n\r\nGET /_ticket/1/2 HTTP/1.1\r\nHost: a\r\n\r\n";

const POSTS_AND_ASKS: &[u8] =
    b"POST /_submit/1/1 HTTP/1.1\r\nHost: a\r\nContent-Length: 8\r\n\r\nrelease\nGET /_ticket/1/1 HTTP/1.1\r\nHost: a\r\n\r\n";

const UNKNOWN: &[u8] =
    b"HTTP/1.1 404 Not Found\r\nContent-Type: text/plain; charset=utf-8\r\nContent-Length: 8\r\n\r\nunknown\n";

const UNKNOWN_TWICE: &[u8] =
    b"HTTP/1.1 404 Not Found\r\nContent-Type: text/plain; charset=utf-8\r\nContent-Length: 8\r\n\r\nunknown\nHTTP/1.1 404 Not Found\r\nContent-Type: text/plain; charset=utf-8\r\nContent-Length: 8\r\n\r\nunknown\n";

const QUEUED_AND_KNOWN: &[u8] =
    b"HTTP/1.1 202 Accepted\r\nContent-Type: text/plain; charset=utf-8\r\nContent-Length: 7\r\n\r\nqueued\nHTTP/1.1 200 OK\r\nContent-Type: text/plain; charset=utf-8\r\nContent-Length: 2\r\n\r\n1\n";

const POSTS: &[u8] = b"POST /_submit/1/1 HTTP/1.1\r\nHost: a\r\nContent-Length: 8\r\n\r\nrelease\n";

/// A byte of the question is missing.
const POSTS_AND_BEGINS_TO_ASK: &[u8] =
    b"POST /_submit/1/1 HTTP/1.1\r\nHost: a\r\nContent-Length: 8\r\n\r\nrelease\nGET /_ticket/1/1 HTTP/1.1\r\nHost: a\r\n\r";

const POSTS_AND_ASKS_MORE: &[u8] =
    b"POST /_submit/1/1 HTTP/1.1\r\nHost: a\r\nContent-Length: 8\r\n\r\nrelease\nGET /_newest HTTP/1.1\r\nHost: a\r\n\r\nGET /_ticket/1/1 HTTP/1.1\r\nHost: a\r\n\r\n";

const QUEUED: &[u8] =
    b"HTTP/1.1 202 Accepted\r\nContent-Type: text/plain; charset=utf-8\r\nContent-Length: 7\r\n\r\nqueued\n";

const QUEUED_AND_NONE: &[u8] =
    b"HTTP/1.1 202 Accepted\r\nContent-Type: text/plain; charset=utf-8\r\nContent-Length: 7\r\n\r\nqueued\nHTTP/1.1 200 OK\r\nContent-Type: text/plain; charset=utf-8\r\nContent-Length: 2\r\n\r\n0\n";

const QUEUED_AND_UNKNOWN: &[u8] =
    b"HTTP/1.1 202 Accepted\r\nContent-Type: text/plain; charset=utf-8\r\nContent-Length: 7\r\n\r\nqueued\nHTTP/1.1 404 Not Found\r\nContent-Type: text/plain; charset=utf-8\r\nContent-Length: 8\r\n\r\nunknown\n";

/// What a client sends at once, how long a server of its own goes on, and what the client has by then. The
/// bytes come in the first millisecond. In the second the server begins its attempt. It sends itself four
/// messages, one in each millisecond; then the receipt is there.
const ROWS: &[(&[u8], u64, &[u8])] = &[
    (ASKS, 100, b""),
    (ASKS, 101, UNKNOWN),
    (ASKS_OTHERWISE, 1, UNKNOWN),
    (ASKS_TWICE, 100, b""),
    (ASKS_TWICE, 102, UNKNOWN_TWICE),
    (POSTS, 1, QUEUED),
    (POSTS_AND_ASKS, 1, b""),
    (POSTS_AND_ASKS, 5, b""),
    (POSTS_AND_ASKS, 6, QUEUED_AND_KNOWN),
    (POSTS_AND_ASKS, 100, QUEUED_AND_KNOWN),
];

/// The same at a server that hears no majority, so the receipt never comes. What goes before the question is
/// held back for five milliseconds, if all of the question is there.
const ALONE: &[(&[u8], u64, &[u8])] = &[
    (POSTS, 1, QUEUED),
    (POSTS_AND_BEGINS_TO_ASK, 1, QUEUED),
    (POSTS_AND_ASKS, 5, b""),
    (POSTS_AND_ASKS, 6, QUEUED),
    (POSTS_AND_ASKS, 100, QUEUED),
    (POSTS_AND_ASKS, 101, QUEUED_AND_UNKNOWN),
    (POSTS_AND_ASKS_MORE, 5, b""),
    (POSTS_AND_ASKS_MORE, 6, QUEUED_AND_NONE),
];

/// What a client of a server has after the milliseconds of the row. The client's calls move `piece` bytes at
/// most.
fn check_got(
    rt: &impl Abort,
    mut group: Group,
    row: (&[u8], u64, &[u8]),
    piece: usize,
    away: &[u8],
) {
    let (sends, millis, wanted) = row;
    group.comes(rt, 1, sends, piece);
    group.goes_on(rt, millis, away);
    let client = group.leaves(rt, 1).expect(rt, "a client");
    same(rt, (millis, piece, client.got()), (millis, piece, wanted));
    drop(client);
    drop(group);
}

fn check(rt: &impl Abort, alloc: Global, sends: &[u8], millis: u64, wanted: &[u8]) {
    let group = Group::new(rt, alloc, 1);
    check_got(rt, group, (sends, millis, wanted), usize::MAX, &[]);
}

#[test]
fn a_receipt_is_waited_for_and_told_as_it_comes(rt: HostRuntime) {
    for &(sends, millis, wanted) in ROWS {
        check(&rt, rt.alloc(), sends, millis, wanted);
    }
}

#[test]
fn what_goes_before_a_receipt_is_held_back(rt: HostRuntime) {
    for &row in ALONE {
        let group = Group::new(&rt, rt.alloc(), 3);
        check_got(&rt, group, row, usize::MAX, &[2, 3]);
    }
}

/// A client sends and reads slowly, once for each number of bytes that its calls move at most.
#[test]
fn a_post_and_its_question_in_pieces(rt: HostRuntime) {
    for piece in 1..POSTS_AND_ASKS.len() {
        let group = Group::new(&rt, rt.alloc(), 1);
        check_got(
            &rt,
            group,
            (POSTS_AND_ASKS, 400, QUEUED_AND_KNOWN),
            piece,
            &[],
        );
    }
}

/// Whether the next request asks for a receipt, for how many milliseconds no bytes came, and whether what
/// waits is held back.
const HOLDS: &[(bool, u64, bool)] = &[
    (false, 0, false),
    (false, 4, false),
    (true, 0, true),
    (true, 4, true),
    (true, 5, false),
    (true, u64::MAX, false),
];

#[test]
fn a_response_is_held_back_for_so_long(rt: HostRuntime) {
    for &(asked, since, held) in HOLDS {
        let is_on = Hold { asked, since }.is_on(Times::new(None, None));
        same(&rt, (asked, since, is_on), (asked, since, held));
    }
}
