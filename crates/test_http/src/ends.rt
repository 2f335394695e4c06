//! A connection between a reader and a writer in memory. Both work in pieces, and may fail.

use crate::comparing::{ensure, same};
use crate::desk::Desk;
use http_read::Counted;
use http_serve::{ServeFault, serve};
use std::alloc::{AllocError, Global};
use std::fmt::Debug;
use std::process::Abort;
use test_ends::{Pieces, Sink, in_pieces, whole};

/// How a connection ends: with a fault or without one.
pub(crate) type Outcome = Result<(), ServeFault>;

/// What came of a connection.
#[derive(Drop)]
pub(crate) struct Connection {
    pub result: Outcome,
    pub written: Vec<u8>,
    pub failed_reads: u64,
    pub failed_writes: u64,
}

fn serve_all(
    desk: &mut Desk<'_>,
    reader: &mut Counted<Pieces<'_>>,
    writer: &mut Counted<Sink>,
) -> Outcome {
    serve(desk.alloc, reader, writer, desk)
}

/// Serves a connection over this writer.
fn served_into(desk: &mut Desk<'_>, reader: Pieces<'_>, writer: Sink) -> Connection {
    let mut reader = Counted::new(reader);
    let mut writer = Counted::new(writer);
    let result = serve_all(desk, &mut reader, &mut writer);
    let failed_writes = writer.failures();
    Connection {
        result,
        written: writer.into_inner().into_taken(),
        failed_reads: reader.failures(),
        failed_writes,
    }
}

/// Serves a connection whose writer never fails.
pub(crate) fn served(desk: &mut Desk<'_>, reader: Pieces<'_>) -> Connection {
    let writer = Sink::with_room(desk.alloc, usize::MAX);
    served_into(desk, reader, writer)
}

/// Whether a connection ended with that result. A fault of its reader or its writer is exactly one failed
/// call.
fn is_result(run: &Connection, wanted: Outcome) -> bool {
    let (reads, writes) = match wanted {
        Err(ServeFault::Read) => (1, 0),
        Err(ServeFault::Write) => (0, 1),
        _ => (0, 0),
    };
    run.result == wanted && run.failed_reads == reads && run.failed_writes == writes
}

/// Checks that a connection ended with that result, and that this was written.
fn ends<T: PartialEq + Debug + Copy>(
    rt: &impl Abort,
    run: &Connection,
    outcome: Outcome,
    written: &[u8],
    of: T,
) {
    same(rt, (of, run.written.as_slice()), (of, written));
    ensure(rt, is_result(run, outcome), of);
}

/// Checks the result, and what is written, if this reader gives the input.
pub(crate) fn reads(
    rt: &impl Abort,
    desk: &mut Desk<'_>,
    reader: Pieces<'_>,
    outcome: Outcome,
    written: &[u8],
    of: usize,
) {
    let run = served(desk, reader);
    ends(rt, &run, outcome, written, of);
    drop(run);
}

/// Checks the same for bytes that are sent at once.
pub(crate) fn sends(
    rt: &impl Abort,
    desk: &mut Desk<'_>,
    bytes: &[u8],
    outcome: Outcome,
    written: &[u8],
    of: usize,
) {
    reads(rt, desk, whole(bytes), outcome, written, of);
}

/// Checks the answer to bytes that come in a first piece and then in pieces of one size.
pub(crate) fn answers(
    rt: &impl Abort,
    desk: &mut Desk<'_>,
    bytes: &[u8],
    first: usize,
    piece: usize,
    written: &[u8],
) {
    let reader = in_pieces(bytes, first, piece, usize::MAX);
    reads(rt, desk, reader, Ok(()), written, first);
}

/// Checks what is sent at once over a writer with that much room, which takes pieces of that size.
pub(crate) fn writes(
    rt: &impl Abort,
    desk: &mut Desk<'_>,
    bytes: &[u8],
    writer: (usize, usize),
    outcome: Outcome,
    written: &[u8],
) {
    let (room, piece) = writer;
    let taken = Vec::new(desk.alloc);
    let sink = Sink { taken, room, piece };
    let run = served_into(desk, whole(bytes), sink);
    ends(rt, &run, outcome, written, room.min(piece));
    drop(run);
}

/// A response: status and reason; the type; a line of its own, or nothing; the line that closes, or nothing;
/// the body.
pub(crate) type Row = (
    &'static str,
    &'static str,
    &'static str,
    &'static str,
    &'static str,
);

pub(crate) const HTML: &str = "text/html";

pub(crate) const PLAIN: &str = "text/plain";

pub(crate) const CLOSE: &str = "Connection: close\r\n";

/// The bytes of the response, or only of its head. The client lets its connection stay.
pub(crate) fn response(alloc: Global, row: &Row, to_head: bool) -> Result<String, AllocError> {
    let body = if to_head { "" } else { row.4 };
    format!(in alloc;
        "HTTP/1.1 {}\r\nContent-Type: {}; charset=utf-8\r\n{}Content-Length: {}\r\n{}\r\n{body}",
        row.0,
        row.1,
        row.2,
        row.4.len(),
        row.3
    )
}

/// Checks that the request is answered so, and that no call failed.
pub(crate) fn check(rt: &impl Abort, desk: &mut Desk<'_>, request: &str, expected: &str) {
    let run = served(desk, whole(request.as_bytes()));
    ends(rt, &run, Ok(()), expected.as_bytes(), request);
    drop(run);
}

/// Checks that the request has this response, or only its head.
pub(crate) fn responds(
    rt: &impl Abort,
    desk: &mut Desk<'_>,
    request: &str,
    row: &Row,
    to_head: bool,
) {
    let expected = response(desk.alloc, row, to_head).expect(rt, "memory");
    check(rt, desk, request, expected.as_str());
}
