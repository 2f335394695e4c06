//! Connections whose bytes come and go in many steps: cut in every way, with calls that come too early, up to
//! a fault, and up to the last response.
use crate::comparing::{ensure, same};
use crate::desk::{Desk, open_desk, took};
use crate::responses::{BAD, LAST_PAGE, PAGE};
use crate::served_several::{BOTH, BOTH_PAGES, COUNTS, GET, pages};
use crate::steps::{AMPLE, Room, Run, led};
use crate::texts::times;
use std::process::Abort;
use test_ends::{Pieces, in_pieces, whole};

/// Whether the connection is over, and this many requests are answered.
fn is_over(run: &Run, answered: u32) -> bool {
    run.is_over && run.result.is_ok() && run.answered == answered
}

/// Checks what is written, and how many requests are answered, for what this reader gives.
fn check(
    rt: &impl Abort,
    desk: &mut Desk<'_>,
    reader: Pieces<'_>,
    room: Room,
    written: &[u8],
    answered: u32,
    of: usize,
) {
    let run = led(desk, reader, room);
    same(rt, (of, run.written.as_slice()), (of, written));
    ensure(rt, is_over(&run, answered), of);
    drop(run);
}

/// Checks the same for bytes that come in a first piece and then in pieces of one size.
fn check_pieces(
    rt: &impl Abort,
    desk: &mut Desk<'_>,
    bytes: &[u8],
    first: usize,
    piece: usize,
    written: &[u8],
    answered: u32,
) {
    let reader = in_pieces(bytes, first, piece, usize::MAX);
    check(rt, desk, reader, AMPLE, written, answered, first);
}

/// Checks two requests, cut into two after each byte and in pieces of each size.
fn check_cuts(rt: &impl Abort, desk: &mut Desk<'_>, both: &[u8], pages: &[u8]) {
    for cut in 0..=both.len() {
        check_pieces(rt, desk, both, cut, cut, pages, 2);
        check_pieces(rt, desk, both, cut, usize::MAX, pages, 2);
    }
}

/// Checks writers that take each number of bytes at a time.
fn check_writers(rt: &impl Abort, desk: &mut Desk<'_>, both: &[u8], pages: &[u8]) {
    for piece in 1..=pages.len() {
        let room = (usize::MAX, piece);
        check(rt, desk, whole(both), room, pages, 2, piece);
    }
}

/// Checks a writer that fails after these bytes of the responses. Both requests were answered before.
fn check_begun(rt: &impl Abort, desk: &mut Desk<'_>, begun: &[u8]) {
    let room = begun.len();
    let writer = (room, usize::MAX);
    check(rt, desk, whole(BOTH), writer, begun, 2, room);
}

/// Checks writers that fail after each number of bytes.
fn check_broken(rt: &impl Abort, desk: &mut Desk<'_>) {
    for room in 0..BOTH_PAGES.len() {
        check_begun(rt, desk, &BOTH_PAGES[..room]);
    }
}

/// Checks a client that sends no more after this many bytes, and a reader that fails there: each whole
/// request is answered.
fn check_short(rt: &impl Abort, desk: &mut Desk<'_>, len: usize, written: &[u8], answered: u32) {
    let front = whole(&BOTH[..len.min(BOTH.len())]);
    check(rt, desk, front, AMPLE, written, answered, len);
    let failing = in_pieces(BOTH, 1, 1, len);
    check(rt, desk, failing, AMPLE, written, answered, len);
}

/// Checks the same for each number of bytes in this range.
fn check_each_short(
    rt: &impl Abort,
    desk: &mut Desk<'_>,
    from: usize,
    to: usize,
    written: &[u8],
    answered: u32,
) {
    for len in from..to {
        check_short(rt, desk, len, written, answered);
    }
}

fn check_readers(rt: &impl Abort, desk: &mut Desk<'_>) {
    check_cuts(rt, desk, BOTH, BOTH_PAGES);
    check_each_short(rt, desk, 0, GET.len(), b"", 0);
    let (from, to) = (GET.len(), BOTH.len());
    check_each_short(rt, desk, from, to, PAGE.as_bytes(), 1);
}

#[test]
fn a_page_and_one_that_moved_in_steps(rt: HostRuntime) {
    let mut desk = open_desk(rt.alloc(), 1);
    check_readers(&rt, &mut desk);
    check_writers(&rt, &mut desk, BOTH, BOTH_PAGES);
    check_broken(&rt, &mut desk);
    drop(desk);
}

const POST: &[u8] = b"POST /_submit/1/5 HTTP/1.1\r\nHost: a\r\nContent-Length: 8\r\n\r\nrelease\n";

pub(crate) const QUEUED: &[u8] =
    b"HTTP/1.1 202 Accepted\r\nContent-Type: text/plain; charset=utf-8\r\nContent-Length: 7\r\n\r\nqueued\n";

/// Checks that a submission cut after this byte is accepted once, and answered once, by a writer that takes a
/// byte at a time.
fn check_taken(rt: &impl Abort, mut desk: Desk<'_>, cut: usize) {
    let reader = in_pieces(POST, cut, usize::MAX, usize::MAX);
    check(rt, &mut desk, reader, (usize::MAX, 1), QUEUED, 1, cut);
    took(rt, &desk, 1);
    drop(desk);
}

#[test]
fn a_submission_in_steps(rt: HostRuntime) {
    for cut in 0..POST.len() {
        check_taken(&rt, open_desk(rt.alloc(), 1), cut);
    }
}

/// Checks that nothing comes of a request that is not whole.
fn check_cut_off(rt: &impl Abort, desk: &mut Desk<'_>, begun: &[u8]) {
    check(rt, desk, whole(begun), AMPLE, b"", 0, begun.len());
}

/// A submission that ends before its last byte is not accepted.
#[test]
fn a_submission_cut_short(rt: HostRuntime) {
    let mut desk = open_desk(rt.alloc(), 1);
    for len in 0..POST.len() {
        check_cut_off(&rt, &mut desk, &POST[..len]);
    }
    took(&rt, &desk, 0);
    drop(desk);
}

/// What a client sends, and what is written for it. After a last response nothing is answered, and no
/// submission is accepted.
const LAST: &[(&str, &str)] = &[
    (
        "GET /h HTTP/1.1\r\n\r\nPOST /_submit/1/5 HTTP/1.1\r\nHost: a\r\nContent-Length: 8\r\n\r\nrelease\n",
        BAD,
    ),
    (
        "POST /_submit/1/5 HTTP/1.1\r\nContent-Length: 8\r\n\r\nrelease\n",
        BAD,
    ),
    (
        "GET /h HTTP/1.0\r\n\r\nPOST /_submit/1/5 HTTP/1.1\r\nHost: a\r\nContent-Length: 8\r\n\r\nrelease\n",
        LAST_PAGE,
    ),
    (
        "GET /h HTTP/1.1\r\nHost: a\r\nConnection: close\r\n\r\nPOST /_submit/1/5 HTTP/1.1\r\nHost: a\r\nContent-Length: 8\r\n\r\nrelease\n",
        LAST_PAGE,
    ),
];

fn check_last(rt: &impl Abort, desk: &mut Desk<'_>, sent: &str, written: &str, piece: usize) {
    let (bytes, last) = (sent.as_bytes(), written.as_bytes());
    check_pieces(rt, desk, bytes, piece, piece, last, 1);
}

fn check_each_last(rt: &impl Abort, desk: &mut Desk<'_>, piece: usize) {
    for &(sent, written) in LAST {
        check_last(rt, desk, sent, written, piece);
    }
    took(rt, desk, 0);
}

#[test]
fn a_last_response(rt: HostRuntime) {
    let mut desk = open_desk(rt.alloc(), 1);
    check_each_last(&rt, &mut desk, 1);
    check_each_last(&rt, &mut desk, 7);
    check_each_last(&rt, &mut desk, usize::MAX);
    drop(desk);
}

/// Checks this many requests, of which a hundred are answered.
fn check_many(rt: &impl Abort, desk: &mut Desk<'_>, count: usize, answered: u32) {
    let sent = times(rt, desk.alloc, GET, count);
    let written = pages(rt, desk.alloc, count);
    let reader = whole(sent.as_bytes());
    check(rt, desk, reader, AMPLE, written.as_bytes(), answered, count);
}

#[test]
fn a_hundred_requests_in_steps(rt: HostRuntime) {
    let mut desk = open_desk(rt.alloc(), 1);
    for &(count, answered) in COUNTS {
        check_many(&rt, &mut desk, count, answered);
    }
    drop(desk);
}
