//! Several requests on one connection: after each the inbox and the reader have what follows it.
use crate::pieces::Input;
use crate::texts::{joined, times};
use std::alloc::Global;
use std::process::Abort;

/// Checks the requests of these bytes, one after another, in pieces of one size. No call fails.
fn check_each(rt: &impl Abort, alloc: Global, bytes: &[u8], piece: usize, expected: &[&str]) {
    let mut input = Input::in_pieces(alloc, bytes, piece, piece);
    for one in expected {
        input.comes(rt, one, (one, piece));
    }
    input.failed(rt, 0);
    drop(input);
}

const CONNECTION: &[u8] =
    b"GET /a HTTP/1.1\r\nHost: a\r\n\r\n\r\nPOST /b HTTP/1.1\r\nHost: a\r\nContent-Length: 3\r\n\r\nabcPOST /c HTTP/1.1\r\nHost: a\r\nTransfer-Encoding: chunked\r\n\r\n2\r\nde\r\n0\r\nA: b\r\n\r\nHEAD /d HTTP/1.0\r\n\r\n";

const FIVE: &[&str] = &[
    "GET /a",
    "POST /b with abc",
    "POST /c with de",
    "HEAD /d and closes",
    "ended",
    "ended",
];

#[test]
fn one_behind_another(rt: HostRuntime) {
    for piece in 1..130 {
        check_each(&rt, rt.alloc(), CONNECTION, piece, FIVE);
    }
}

/// Checks sixty requests with that result, and then the end.
fn check_many(rt: &impl Abort, alloc: Global, bytes: &[u8], piece: usize, expected: &str) {
    let mut input = Input::in_pieces(alloc, bytes, piece, piece);
    for _ in 0..60 {
        input.comes(rt, expected, ("", piece));
    }
    input.comes(rt, "ended", ("", piece));
    drop(input);
}

const PIECES: &[usize] = &[1, 100, 1_049, 5_000, 16_384, 99_999];

/// Checks requests with that body of a thousand bytes, in pieces of several sizes.
fn check_long(rt: &impl Abort, alloc: Global, connection: &str, body: &str) {
    let expected = joined(rt, alloc, "POST / with ", body, "");
    for &piece in PIECES {
        check_many(rt, alloc, connection.as_bytes(), piece, expected.as_str());
    }
}

const HEAD: &str = "POST / HTTP/1.1\r\nHost: a\r\nContent-Length: 1000\r\n\r\n";

/// Many times as many bytes as an inbox has room for.
#[test]
fn a_long_connection(rt: HostRuntime) {
    let alloc = rt.alloc();
    let body = times(&rt, alloc, "a", 1_000);
    let one = joined(&rt, alloc, HEAD, body.as_str(), "");
    let connection = times(&rt, alloc, one.as_str(), 60);
    check_long(&rt, alloc, connection.as_str(), body.as_str());
}

/// Two requests, and how long the first one is.
const BOTH: &[u8] =
    b"POST /a HTTP/1.1\r\nHost: a\r\nContent-Length: 3\r\n\r\nabcPOST /b HTTP/1.1\r\nHost: a\r\nContent-Length: 2\r\n\r\nde";

const FIRST: usize = 51;

/// Checks both requests if they come at once, and the second is cut off after some bytes.
fn check_end(rt: &impl Abort, alloc: Global, bytes: &[u8], second: &str) {
    check_each(rt, alloc, bytes, usize::MAX, &["POST /a with abc", second]);
}

#[test]
fn the_second_cut_off(rt: HostRuntime) {
    check_end(&rt, rt.alloc(), &BOTH[..FIRST], "ended");
    for end in FIRST + 1..BOTH.len() {
        check_end(&rt, rt.alloc(), &BOTH[..end], "ended early");
    }
    check_end(&rt, rt.alloc(), BOTH, "POST /b with de");
}

/// After a request, line breaks begin the next request.
#[test]
fn line_breaks_alone(rt: HostRuntime) {
    check_each(&rt, rt.alloc(), b"", 1, &["ended"]);
    check_each(&rt, rt.alloc(), b"\r\n", 1, &["ended early"]);
    check_each(&rt, rt.alloc(), b"\n\n", 1, &["ended early"]);
}
