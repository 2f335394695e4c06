//! Requests and connections with one failed allocation. A call returns as ever; or the allocation failed,
//! nothing was written and nothing accepted, and then another connection with the same bytes is answered as
//! ever.
//!
//! Each test tries twice. The reason is a second program, `tools/gate/refuse-growths`: it runs each test once
//! for each allocation, and makes that one fail. The first try meets the failure, the second does not.
//! Without that program no allocation of a test fails.
use crate::comparing::{ensure, same};
use crate::desk::{Desk, open_desk, took};
use crate::ends::{Connection, served};
use crate::reading::Reading;
use crate::steps::{AMPLE, Run, led};
use http_read::{Counted, Inbox, Incoming, ReadFault, request};
use http_serve::ServeFault;
use std::alloc::Global;
use std::process::Abort;
use test_ends::whole;

/// A request, its path and its body.
type Posted = (&'static [u8], &'static str, &'static [u8]);

/// A POST, by chunks and by a stated length.
const POSTED: &[Posted] = &[
    (
        b"POST http://a/%68 HTTP/1.1\r\nHost: a\r\nTransfer-Encoding: chunked\r\n\r\n4\r\nrele\r\n0\r\n\r\n",
        "/h",
        b"rele",
    ),
    (
        b"POST /h HTTP/1.1\r\nHost: a\r\nContent-Length: 3\r\n\r\nabc",
        "/h",
        b"abc",
    ),
];

/// The same in pieces, with a trailer and with a longer body.
const IN_PIECES: &[Posted] = &[
    (
        b"POST http://a/%68 HTTP/1.1\r\nHost: a\r\nTransfer-Encoding: chunked\r\n\r\n4\r\nrele\r\n0\r\nA: b\r\n\r\n",
        "/h",
        b"rele",
    ),
    (
        b"POST /h HTTP/1.1\r\nHost: a\r\nContent-Length: 4\r\n\r\nrele",
        "/h",
        b"rele",
    ),
];

/// 65 field lines, for which the room has to grow.
const MANY: &[u8] =
    b"GET / HTTP/1.1\r\nHost: a\r\na:\na:\na:\na:\na:\na:\na:\na:\na:\na:\na:\na:\na:\na:\na:\na:\na:\na:\na:\na:\na:\na:\na:\na:\na:\na:\na:\na:\na:\na:\na:\na:\na:\na:\na:\na:\na:\na:\na:\na:\na:\na:\na:\na:\na:\na:\na:\na:\na:\na:\na:\na:\na:\na:\na:\na:\na:\na:\na:\na:\na:\na:\na:\na:\n\r\n";

fn is_posted(came: Incoming, row: &Posted) -> bool {
    let is_posted = match &came {
        Incoming::Request(asked) => asked.path.as_str() == row.1 && asked.body.as_slice() == row.2,
        _ => false,
    };
    drop(came);
    is_posted
}

/// Whether it is refused for too many field lines.
fn is_too_many(came: Incoming) -> bool {
    let is_refused = matches!(
        &came,
        Incoming::Refused {
            status: 431,
            head: false
        }
    );
    drop(came);
    is_refused
}

fn asked(alloc: Global, bytes: &[u8]) -> Result<Incoming, ReadFault> {
    request(alloc, &mut Counted::new(bytes), &mut Inbox::new(alloc))
}

/// The result for these bytes. If an allocation failed, the call is made once more.
fn asked_again(rt: &impl Abort, alloc: Global, bytes: &[u8]) -> Incoming {
    match asked(alloc, bytes) {
        Ok(came) => came,
        Err(fault) => {
            ensure(rt, matches!(fault, ReadFault::OutOfMemory), bytes);
            asked(alloc, bytes).expect(rt, "a request")
        }
    }
}

fn check_posted(rt: &impl Abort, alloc: Global, row: &Posted) {
    let came = asked_again(rt, alloc, row.0);
    ensure(rt, is_posted(came, row), row.0);
}

#[test]
fn requests(rt: HostRuntime) {
    for row in POSTED {
        check_posted(&rt, rt.alloc(), row);
    }
    let came = asked_again(&rt, rt.alloc(), MANY);
    ensure(&rt, is_too_many(came), 431);
}

/// Reads on. If an allocation failed, the same call is made once more, and goes on where the first one
/// stopped.
fn go_on_again(rt: &impl Abort, alloc: Global, reading: &mut Reading) -> Option<Incoming> {
    match reading.go_on(alloc) {
        Ok(came) => came,
        Err(_) => reading.go_on(alloc).expect(rt, "memory"),
    }
}

/// Whether the next piece brings the row's request. `None` if it brings nothing.
fn brings(
    rt: &impl Abort,
    alloc: Global,
    reading: &mut Reading,
    piece: &[u8],
    row: &Posted,
) -> Option<bool> {
    ensure(rt, reading.takes(piece) || reading.takes(piece), piece);
    match go_on_again(rt, alloc, reading) {
        Some(came) => Some(is_posted(came, row)),
        None => None,
    }
}

/// Whether the row's request comes, in pieces of two bytes.
fn comes(rt: &impl Abort, alloc: Global, reading: &mut Reading, row: &Posted) -> bool {
    for piece in row.0.chunks(2) {
        if let Some(is_so) = brings(rt, alloc, reading, piece, row) {
            return is_so;
        }
    }
    false
}

#[test]
fn requests_in_pieces(rt: HostRuntime) {
    for row in IN_PIECES {
        let mut reading = Reading::new(rt.alloc());
        ensure(&rt, comes(&rt, rt.alloc(), &mut reading, row), row.0);
        drop(reading);
    }
}

/// What is sent; the response that may be written if an allocation failed for the next one; and the end of
/// what is written.
type Row = (&'static str, &'static str, &'static str);

const ROWS: &[Row] = &[
    ("GET /h HTTP/1.1\r\nHost: a\r\n\r\n", "", "Hi\n"),
    ("HEAD /_newest HTTP/1.1\r\nHost: a\r\n\r\n", "", "\r\n\r\n"),
    (
        "GET /_ticket/1/5 HTTP/1.1\r\nHost: a\r\n\r\n",
        "",
        "unknown\n",
    ),
    (
        "GET /_submit/1/5 HTTP/1.1\r\nHost: a\r\n\r\n",
        "",
        "method not allowed\n",
    ),
    ("GET /alt HTTP/1.1\r\nHost: a\r\n\r\n", "", "moved to /é\n"),
    ("GET /h HTTP/1.1\r\n\r\n", "", "bad request\n"),
    (
        "POST /_submit/1/5 HTTP/1.1\r\nHost: a\r\nContent-Length: 22\r\n\r\nput template t\n{{a}}{{",
        "",
        "5 Template 1 UnclosedTag at 5\n",
    ),
];

/// Queued, or already there if the first try failed as it was written.
const SUBMISSION: &Row = &(
    "POST /_submit/1/5 HTTP/1.1\r\nHost: a\r\nContent-Length: 8\r\n\r\nrelease\n",
    "",
    "",
);

/// Two requests on a connection. After a failed allocation nothing is written, or only the whole first
/// response.
const TWO: &Row = &(
    "GET /h HTTP/1.1\r\nHost: a\r\n\r\nPOST /_submit/1/5 HTTP/1.1\r\nHost: a\r\nContent-Length: 8\r\n\r\nrelease\n",
    "HTTP/1.1 200 OK\r\nContent-Type: text/html; charset=utf-8\r\nContent-Length: 3\r\n\r\nHi\n",
    "",
);

/// Whether nothing was accepted, and nothing except that response was written.
fn is_untouched(desk: &Desk<'_>, written: &[u8], first: &str) -> bool {
    (written.is_empty() || written == first.as_bytes()) && desk.values.is_empty()
}

/// Whether an allocation failed before anything was accepted, with at most that response written; or the
/// writer itself failed to allocate.
fn is_refused(rt: &impl Abort, desk: &Desk<'_>, run: &Connection, row: &Row) -> bool {
    match run.result {
        Err(ServeFault::OutOfMemory) => {
            ensure(rt, is_untouched(desk, run.written.as_slice(), row.1), row.0);
            true
        }
        Err(ServeFault::Write) => {
            same(rt, run.failed_writes, 1);
            true
        }
        _ => false,
    }
}

/// Whether what was written begins and ends as the row says.
fn is_answer(written: &[u8], row: &Row) -> bool {
    written.starts_with(row.1.as_bytes()) && written.ends_with(row.2.as_bytes())
}

/// Whether a connection was answered as ever. Otherwise an allocation failed.
fn answers(rt: &impl Abort, desk: &mut Desk<'_>, row: &Row) -> bool {
    let run = served(desk, whole(row.0.as_bytes()));
    let is_answered = !is_refused(rt, desk, &run, row);
    if is_answered {
        let is_so = run.result.is_ok() && is_answer(run.written.as_slice(), row);
        ensure(rt, is_so, row.0);
    }
    drop(run);
    is_answered
}

/// Checks that a connection is answered, or else the next one.
fn tried_again(rt: &impl Abort, desk: &mut Desk<'_>, row: &Row) {
    ensure(rt, answers(rt, desk, row) || answers(rt, desk, row), row.0);
}

#[test]
fn connections(rt: HostRuntime) {
    let mut desk = open_desk(rt.alloc(), 1);
    for row in ROWS {
        tried_again(&rt, &mut desk, row);
    }
    took(&rt, &desk, 0);
    tried_again(&rt, &mut desk, SUBMISSION);
    took(&rt, &desk, 1);
    drop(desk);
}

#[test]
fn two_requests(rt: HostRuntime) {
    let mut desk = open_desk(rt.alloc(), 1);
    tried_again(&rt, &mut desk, TWO);
    took(&rt, &desk, 1);
    drop(desk);
}

/// Whether a connection in steps is over as an allocation failed, before anything was accepted and with at
/// most that response written; or the writer itself failed to allocate.
fn is_ended(rt: &impl Abort, desk: &Desk<'_>, run: &Run, row: &Row) -> bool {
    ensure(rt, run.is_over, row.0);
    if run.result.is_err() {
        ensure(rt, is_untouched(desk, run.written.as_slice(), row.1), row.0);
        return true;
    }
    run.is_broken
}

/// Whether a connection in steps was answered as ever. Otherwise an allocation failed.
fn answers_in_steps(rt: &impl Abort, desk: &mut Desk<'_>, row: &Row) -> bool {
    let run = led(desk, whole(row.0.as_bytes()), AMPLE);
    let is_answered = !is_ended(rt, desk, &run, row);
    if is_answered {
        ensure(rt, is_answer(run.written.as_slice(), row), row.0);
    }
    drop(run);
    is_answered
}

/// Checks that a connection in steps is answered, or else the next one.
fn led_again(rt: &impl Abort, desk: &mut Desk<'_>, row: &Row) {
    let is_answered = answers_in_steps(rt, desk, row) || answers_in_steps(rt, desk, row);
    ensure(rt, is_answered, row.0);
}

#[test]
fn lines(rt: HostRuntime) {
    let mut desk = open_desk(rt.alloc(), 1);
    for row in ROWS {
        led_again(&rt, &mut desk, row);
    }
    took(&rt, &desk, 0);
    led_again(&rt, &mut desk, TWO);
    took(&rt, &desk, 1);
    drop(desk);
}
