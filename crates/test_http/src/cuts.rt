//! Requests cut in every way, cut off after each byte, and read by a reader that fails at each call.
use crate::pieces::{Input, check_one};
use std::alloc::Global;
use std::process::Abort;
use test_ends::{Pieces, in_pieces};

const FIRST: &str = "GET /%68?x HTTP/1.1\r\nHost: a\r\n\r\n";

const SUBMISSION: &str =
    "POST /_submit/1/5 HTTP/1.1\r\nHost: a\r\nTransfer-Encoding: chunked\r\n\r\n4\r\nrele\r\n4\r\nase\n\r\n0\r\n\r\n";

/// Checks that the reader's one request reads as expected, after this many failed calls.
fn check_alone(
    rt: &impl Abort,
    alloc: Global,
    reader: Pieces<'_>,
    expected: &str,
    failures: u64,
    of: usize,
) {
    let mut input = Input::new(alloc, reader);
    input.comes(rt, expected, ("number", of));
    input.failed(rt, failures);
    drop(input);
}

/// Checks the request in a first piece and then in pieces of one size.
fn check_pieces(
    rt: &impl Abort,
    alloc: Global,
    whole: &[u8],
    first: usize,
    piece: usize,
    expected: &str,
) {
    let reader = in_pieces(whole, first, piece, usize::MAX);
    check_alone(rt, alloc, reader, expected, 0, first);
}

/// Checks each cut into two, and pieces of each size.
fn check_cuts(rt: &impl Abort, alloc: Global, whole: &[u8], expected: &str) {
    for cut in 0..whole.len() {
        check_pieces(rt, alloc, whole, cut, usize::MAX, expected);
        check_pieces(rt, alloc, whole, cut, cut, expected);
    }
}

/// Checks that the input ended early if it is cut off after any byte.
fn check_short(rt: &impl Abort, alloc: Global, whole: &[u8]) {
    check_pieces(rt, alloc, b"", 5, 5, "ended");
    for len in 1..whole.len() {
        check_pieces(rt, alloc, &whole[..len], 5, 5, "ended early");
    }
}

/// Checks a read that fails at each call.
fn check_failures(rt: &impl Abort, alloc: Global, whole: &[u8]) {
    for good in 0..whole.len() {
        let reader = in_pieces(whole, 1, 1, good);
        check_alone(rt, alloc, reader, "read failed", 1, good);
    }
}

/// Checks that no call is made after the last byte: a reader that would fail there does no harm.
fn check_last(rt: &impl Abort, alloc: Global, whole: &[u8], expected: &str) {
    let reader = in_pieces(whole, 1, 1, whole.len());
    check_alone(rt, alloc, reader, expected, 0, whole.len());
}

fn check_all(rt: &impl Abort, alloc: Global, text: &str, expected: &str) {
    check_one(rt, alloc, text, expected);
    let whole = text.as_bytes();
    check_cuts(rt, alloc, whole, expected);
    check_short(rt, alloc, whole);
    check_failures(rt, alloc, whole);
    check_last(rt, alloc, whole, expected);
}

#[test]
fn the_first_request(rt: HostRuntime) {
    check_all(&rt, rt.alloc(), FIRST, "GET /h");
}

#[test]
fn a_submission_by_chunks(rt: HostRuntime) {
    let expected = "POST /_submit/1/5 with release\n";
    check_all(&rt, rt.alloc(), SUBMISSION, expected);
}

/// A head that no continuation makes valid is refused as soon as it is seen. The reader does not read on.
#[test]
fn a_bad_head_is_not_passed_over(rt: HostRuntime) {
    let bad = b"GET / HTTP/1.1\r\nHost : a\r\n";
    check_alone(&rt, rt.alloc(), in_pieces(bad, 1, 1, 26), "400", 0, 26);
}
