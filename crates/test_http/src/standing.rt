//! How far the reading of a request is after each of its pieces.
use crate::comparing::{ensure, same};
use crate::reading::Reading;
use http_read::{Awaited, Incoming};
use std::alloc::Global;
use std::process::Abort;

/// A piece that makes no request whole, and what the reading awaits after it: `None` within a head.
type Row = (&'static str, Option<Awaited>);

/// Whether the request with that body came, or nothing if `body` is `None`.
fn is_due(came: Option<Incoming>, body: Option<&[u8]>) -> bool {
    let is_due = match &came {
        Some(Incoming::Request(asked)) => body == Some(asked.body.as_slice()),
        Some(_) => false,
        None => body.is_none(),
    };
    drop(came);
    is_due
}

/// Whether a piece makes the request with that body whole, or no request if `body` is `None`.
fn brings(alloc: Global, reading: &mut Reading, piece: &[u8], body: Option<&[u8]>) -> bool {
    if !reading.takes(piece) {
        return false;
    }
    match reading.go_on(alloc) {
        Ok(came) => is_due(came, body),
        Err(_) => false,
    }
}

/// Checks a piece that makes no request whole.
fn check_piece(rt: &impl Abort, alloc: Global, reading: &mut Reading, row: &Row) {
    ensure(rt, brings(alloc, reading, row.0.as_bytes(), None), row.0);
    let awaits = reading.progress.awaits();
    ensure(rt, awaits == row.1, (row.0, awaits));
}

fn check_pieces(rt: &impl Abort, alloc: Global, reading: &mut Reading, rows: &[Row]) {
    for row in rows {
        check_piece(rt, alloc, reading, row);
    }
}

/// Checks the pieces one after another, and then a last piece: it makes the request with that body whole, and
/// leaves these bytes.
fn check_awaited(
    rt: &impl Abort,
    alloc: Global,
    rows: &[Row],
    last: &str,
    body: &[u8],
    left: &[u8],
) {
    let mut reading = Reading::new(alloc);
    check_pieces(rt, alloc, &mut reading, rows);
    let is_whole = brings(alloc, &mut reading, last.as_bytes(), Some(body));
    ensure(rt, is_whole && reading.progress.awaits().is_none(), last);
    same(rt, reading.inbox.held(), left);
    drop(reading);
}

const STATED: &[Row] = &[
    ("POST / HTT", None),
    ("P/1.1\r\nHost: a\r\nContent-Length: 5\r\n\r", None),
    ("\n", Some(Awaited::Fixed(5))),
    ("ab", Some(Awaited::Fixed(3))),
    ("cd", Some(Awaited::Fixed(1))),
];

#[test]
fn a_body_of_a_stated_length(rt: HostRuntime) {
    check_awaited(&rt, rt.alloc(), STATED, "eGET", b"abcde", b"GET");
}

const CHUNKED: &[Row] = &[
    ("POST / HTTP/1.1\r\nHost: a\r\n", None),
    ("Transfer-Encoding: chunked\r\n\r\n", Some(Awaited::Line)),
    ("4", Some(Awaited::Line)),
    (";x\r", Some(Awaited::Line)),
    ("\n", Some(Awaited::Chunk(4))),
    ("rel", Some(Awaited::Chunk(1))),
    ("e", Some(Awaited::Break)),
    ("\r", Some(Awaited::Break)),
    ("\n4\r\nas", Some(Awaited::Chunk(2))),
    ("e\n\r\n0", Some(Awaited::Line)),
    ("\r\n", Some(Awaited::Trailer)),
    ("A: b\r\n\r", Some(Awaited::Trailer)),
];

#[test]
fn a_body_by_chunks(rt: HostRuntime) {
    check_awaited(&rt, rt.alloc(), CHUNKED, "\n", b"release\n", b"");
}
