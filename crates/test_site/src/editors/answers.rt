//! Answers of a node, cut in every way.
use crate::comparing::{ensure, same};
use editor_http::{NodeAnswer, NodeAnswerFault, read_answer};
use engine_common::Feed;
use http_read::Counted;
use std::alloc::{AllocError, Global};
use std::process::Abort;
use test_ends::Pieces;

/// What a connection gives, and the lines that report its answers. The last line says why no answer follows.
const CONNECTIONS: &[(&str, &str)] = &[
    (
        "HTTP/1.1 200 OK\r\nContent-Type: text/plain; charset=utf-8\r\nContent-Length: 2\r\n\r\n7\n",
        "200 7\n; ended",
    ),
    (
        "HTTP/1.1 202 Accepted\r\ncontent-length:7\r\n\r\nqueued\nHTTP/1.1 503 Service Unavailable\r\nContent-Length: 5\r\nConnection: close\r\n\r\nbusy\n",
        "202 queued\n; 503 busy\n; ended",
    ),
    // The first of two lengths counts; an empty body is a body.
    (
        "HTTP/1.1 404 Not Found\r\nContent-Length: 0\r\nContent-Length: 5\r\n\r\nHTTP/1.1 200\r\nContent-Length: 1\r\n\r\na",
        "404 ; 200 a; ended",
    ),
    ("", "ended"),
    ("HTTP/1.1 200 OK\r\nContent-Length: 2\r\n\r\n7", "ended"),
    ("HTTP/1.1 200 OK\r\nContent-Le", "ended"),
    // No length, another coding, a length that is invalid or too large, and what is not a response.
    ("HTTP/1.1 200 OK\r\n\r\nall", "no answer"),
    (
        "HTTP/1.1 200 OK\r\nTransfer-Encoding: chunked\r\n\r\n0\r\n\r\n",
        "no answer",
    ),
    (
        "HTTP/1.1 200 OK\r\nContent-Length: 02\r\n\r\n7\n",
        "no answer",
    ),
    (
        "HTTP/1.1 200 OK\r\nContent-Length: +2\r\n\r\n7\n",
        "no answer",
    ),
    (
        "HTTP/1.1 200 OK\r\nContent-Length: 2, 2\r\n\r\n7\n",
        "no answer",
    ),
    (
        "HTTP/1.1 200 OK\r\nContent-Length: 2000001\r\n\r\n",
        "no answer",
    ),
    (
        "HTTP/1.1 200 OK\r\nContent-Length: 18446744073709551616\r\n\r\n",
        "no answer",
    ),
    ("SSH-2.0-OpenSSH_9.2\r\n", "no answer"),
    (
        "HTTP/1.1 20 OK\r\nContent-Length: 2\r\n\r\n7\n",
        "no answer",
    ),
];

/// Why no answer follows.
fn reason(fault: NodeAnswerFault) -> &'static str {
    match fault {
        NodeAnswerFault::Read => "failed",
        NodeAnswerFault::Ended => "ended",
        NodeAnswerFault::NoAnswer => "no answer",
        NodeAnswerFault::OutOfMemory => "out of memory",
    }
}

fn text_of(alloc: Global, answer: &NodeAnswer) -> Result<String, AllocError> {
    let status = answer.status;
    let body = str::from_utf8(&answer.body).unwrap_or("?");
    format!(in alloc; "{status} {body}; ")
}

fn tell(rt: &impl Abort, alloc: Global, text: &mut String, answer: &NodeAnswer) {
    let told = text_of(alloc, answer).expect(rt, "memory");
    text.push_str(told.as_str()).expect(rt, "memory");
}

/// Prints the next answer, or why none follows. Returns whether one may follow.
fn tell_next(
    rt: &impl Abort,
    alloc: Global,
    reader: &mut Counted<Pieces<'_>>,
    feed: &mut Feed,
    text: &mut String,
) -> bool {
    match read_answer(alloc, reader, feed) {
        Ok(answer) => {
            tell(rt, alloc, text, &answer);
            true
        }
        Err(fault) => {
            text.push_str(reason(fault)).expect(rt, "memory");
            false
        }
    }
}

/// Prints answers of a connection until none follows, at most ten.
fn tell_all(
    rt: &impl Abort,
    alloc: Global,
    reader: &mut Counted<Pieces<'_>>,
    feed: &mut Feed,
    text: &mut String,
) {
    for _ in 0..10 {
        if !tell_next(rt, alloc, reader, feed, text) {
            return;
        }
    }
}

/// Checks how a connection's answers are reported.
fn is_told(rt: &impl Abort, alloc: Global, reader: &mut Counted<Pieces<'_>>, wanted: &str) {
    let mut text = String::new(alloc);
    tell_all(rt, alloc, reader, &mut Feed::new(alloc), &mut text);
    same(rt, text.as_str(), wanted);
}

fn in_pieces(bytes: &[u8], piece: usize, good: usize) -> Counted<Pieces<'_>> {
    Counted::new(test_ends::in_pieces(bytes, piece, piece, good))
}

const SIZES: &[usize] = &[1, 2, 7, 8_192];

fn connection(rt: &impl Abort, alloc: Global, bytes: &str, wanted: &str) {
    for &piece in SIZES {
        let mut reader = in_pieces(bytes.as_bytes(), piece, usize::MAX);
        is_told(rt, alloc, &mut reader, wanted);
    }
}

#[test]
fn connections(rt: HostRuntime) {
    for &(bytes, wanted) in CONNECTIONS {
        connection(&rt, rt.alloc(), bytes, wanted);
    }
}

/// After how many good reads of one byte the connection fails, and what is reported.
const FAILING: &[(usize, &str)] = &[
    (0, "failed"),
    (35, "failed"),
    (36, "200 a; failed"),
    (71, "200 a; failed"),
];

const TWO: &str =
    "HTTP/1.1 200\r\nContent-Length: 1\r\n\r\naHTTP/1.1 200\r\nContent-Length: 1\r\n\r\nb";

fn fail(rt: &impl Abort, alloc: Global, good: usize, wanted: &str) {
    let mut reader = in_pieces(TWO.as_bytes(), 1, good);
    is_told(rt, alloc, &mut reader, wanted);
    ensure(rt, reader.failures() == 1, good);
}

#[test]
fn failing(rt: HostRuntime) {
    for &(good, wanted) in FAILING {
        fail(&rt, rt.alloc(), good, wanted);
    }
}
