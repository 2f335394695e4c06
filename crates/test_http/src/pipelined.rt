//! Requests that a client sends at once: their responses wait one after another, in order, up to 16 KB.
use crate::comparing::{ensure, same};
use crate::desk::{Desk, desk_of, open_desk, took};
use crate::served_several::GET;
use crate::steps::{AMPLE, Room, led, waits};
use crate::texts::times;
use std::alloc::Global;
use std::process::Abort;
use test_ends::{Pieces, in_pieces, whole};

/// A submission, and requests for its receipt and for pages.
const FIVE: &[u8] =
    b"POST /_submit/1/5 HTTP/1.1\r\nHost: a\r\nContent-Length: 8\r\n\r\nrelease\nGET /_ticket/1/5 HTTP/1.1\r\nHost: a\r\n\r\nGET /h HTTP/1.1\r\nHost: a\r\n\r\nHEAD /h HTTP/1.1\r\nHost: a\r\n\r\nGET /h HTTP/1.1\r\nHost: a\r\nConnection: close\r\n\r\n";

const FIVE_ANSWERS: &[u8] =
    b"HTTP/1.1 202 Accepted\r\nContent-Type: text/plain; charset=utf-8\r\nContent-Length: 7\r\n\r\nqueued\nHTTP/1.1 404 Not Found\r\nContent-Type: text/plain; charset=utf-8\r\nContent-Length: 8\r\n\r\nunknown\nHTTP/1.1 200 OK\r\nContent-Type: text/html; charset=utf-8\r\nContent-Length: 3\r\n\r\nHi\nHTTP/1.1 200 OK\r\nContent-Type: text/html; charset=utf-8\r\nContent-Length: 3\r\n\r\nHTTP/1.1 200 OK\r\nContent-Type: text/html; charset=utf-8\r\nContent-Length: 3\r\nConnection: close\r\n\r\nHi\n";

/// Checks a client with a service of its own, which sends and receives its bytes so: it receives these bytes.
/// One submission is made.
fn check(
    rt: &impl Abort,
    alloc: Global,
    reader: Pieces<'_>,
    room: Room,
    written: &[u8],
    of: usize,
) {
    let mut desk = open_desk(alloc, 1);
    let run = led(&mut desk, reader, room);
    same(rt, (of, run.written.as_slice()), (of, written));
    ensure(rt, run.is_over && run.result.is_ok(), of);
    took(rt, &desk, 1);
    drop(run);
    drop(desk);
}

/// Checks each cut into two, and pieces of each size.
fn check_cuts(rt: &impl Abort, alloc: Global, sent: &[u8], written: &[u8]) {
    for cut in 0..=sent.len() {
        let halves = in_pieces(sent, cut, usize::MAX, usize::MAX);
        check(rt, alloc, halves, AMPLE, written, cut);
        let pieces = in_pieces(sent, cut, cut, usize::MAX);
        check(rt, alloc, pieces, AMPLE, written, cut);
    }
}

/// Checks writers that take pieces of each size.
fn check_writers(rt: &impl Abort, alloc: Global, sent: &[u8], written: &[u8]) {
    for piece in 1..=written.len() {
        let room = (usize::MAX, piece);
        check(rt, alloc, whole(sent), room, written, piece);
    }
}

#[test]
fn five_requests_at_once(rt: HostRuntime) {
    check_cuts(&rt, rt.alloc(), FIVE, FIVE_ANSWERS);
    check_writers(&rt, rt.alloc(), FIVE, FIVE_ANSWERS);
}

/// How long a page is (its response has 77 bytes more, and the digits of its length); how many requests for
/// it come at once; how many of them are answered before anything is written; and how many bytes wait then.
const WAITS: &[(usize, usize, u32, usize)] = &[
    (3, 1, 1, 81),
    (3, 99, 99, 8_019),
    (3, 101, 100, 8_119),
    (8_110, 3, 3, 24_573),
    (8_111, 3, 2, 16_384),
    (16_301, 3, 2, 32_766),
    (16_302, 3, 1, 16_384),
    (60_000, 3, 1, 60_082),
    (1_000, 15, 15, 16_215),
    (1_000, 16, 16, 17_296),
    (1_000, 17, 16, 17_296),
];

/// Checks how many of these requests are answered, and how many bytes wait, if they come at once.
fn check_waits(rt: &impl Abort, desk: &mut Desk<'_>, count: usize, answered: u32, bytes: usize) {
    let sent = times(rt, desk.alloc, GET, count);
    let is = waits(desk, whole(sent.as_bytes()));
    same(rt, (count, is), (count, Some((answered, bytes))));
}

#[test]
fn so_many_bytes_wait(rt: HostRuntime) {
    for &(len, count, answered, bytes) in WAITS {
        let page = times(&rt, rt.alloc(), "x", len);
        let mut desk = desk_of(rt.alloc(), page.as_str(), 1);
        check_waits(&rt, &mut desk, count, answered, bytes);
        drop(desk);
    }
}
