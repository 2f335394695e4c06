//! Requests at the limits of their parts, and one past each limit.
use crate::pieces::check_one;
use crate::texts::{joined, times};
use std::alloc::Global;
use std::process::Abort;

/// What comes before, a part, how often it is repeated, what comes after, and the result.
type Row = (
    &'static str,
    &'static str,
    usize,
    &'static str,
    &'static str,
);

const BEGUN: &str = "GET / HTTP/1.1\r\nHost: a\r\nA: b\r\nX: ";

const HEADS: &[Row] = &[
    // 8,192 bytes with three field lines, and one more.
    (BEGUN, "a", 8_154, "\r\n\r\n", "GET /"),
    (BEGUN, "a", 8_155, "\r\n\r\n", "431"),
    (
        "HEAD / HTTP/1.1\r\nHost: a\r\nX: ",
        "a",
        8_160,
        "\r\n\r\n",
        "431",
    ),
    // A request line without an end, of 8,192 bytes and of one more.
    ("GET /", "a", 8_187, "", "ended early"),
    ("GET /", "a", 8_188, "", "414"),
    ("\r\n\nGET /", "a", 8_185, "", "414"),
    ("GET /a ", "a", 8_186, "", "400"),
    // A method without an end.
    ("", "a", 8_192, "", "ended early"),
    ("", "a", 8_193, "", "431"),
    (BEGUN, "a", 8_158, "", "ended early"),
    (BEGUN, "a", 8_159, "", "431"),
    // Only line breaks.
    ("", "\r\n", 4_096, "", "ended early"),
    ("", "\r\n", 4_097, "", "431"),
];

const HOST: &str = "GET / HTTP/1.1\r\nHost: a\r\n";

const FIELD_LINES: &[Row] = &[
    (HOST, "A: b\r\n", 63, "\r\n", "GET /"),
    (HOST, "A: b\r\n", 64, "\r\n", "431"),
    (
        "HEAD / HTTP/1.1\r\nHost: a\r\n",
        "A: b\r\n",
        64,
        "\r\n",
        "431 to HEAD",
    ),
    // Before the test of Host, and only in a whole head.
    ("GET / HTTP/1.1\r\n", "A: b\r\n", 65, "\r\n", "431"),
    ("GET / HTTP/1.1\r\n", "A: b\r\n", 64, "\r\n", "400"),
    (HOST, "A: b\r\n", 64, "", "ended early"),
    (HOST, "A: b\r\n", 64, "A : b\r\n\r\n", "400"),
    // As many as fit.
    (HOST, "A: b\r\n", 1_300, "\r\n", "431"),
    ("GET / HTTP/1.1\r\n", "a:\n", 2_725, "\n", "431"),
];

const CHUNKED: &str = "POST / HTTP/1.1\r\nHost: a\r\nTransfer-Encoding: chunked\r\n\r\n";

/// After `CHUNKED`.
const CHUNK_LINES: &[Row] = &[
    // 256 bytes with the line feed, and one more.
    ("0;", "a", 252, "\r\n\r\n", "POST /"),
    ("0;", "a", 253, "\r\n\r\n", "400"),
    // 255 bytes without one and 256.
    ("0;", "a", 253, "", "ended early"),
    ("0;", "a", 254, "", "400"),
];

/// After `CHUNKED`.
const TRAILERS: &[Row] = &[
    ("0\r\n", "A: b\r\n", 64, "\r\n", "POST /"),
    ("0\r\n", "A: b\r\n", 65, "\r\n", "431"),
    ("0\r\n", "A: b\r\n", 65, "", "ended early"),
    ("0\r\n", "A: b\r\n", 65, "A : b\r\n\r\n", "400"),
    // 8,192 bytes, and one more; a line without an end.
    ("0\r\nA: ", "a", 8_185, "\r\n\r\n", "POST /"),
    ("0\r\nA: ", "a", 8_186, "\r\n\r\n", "431"),
    ("0\r\nA: ", "a", 8_189, "", "ended early"),
    ("0\r\nA: ", "a", 8_190, "", "431"),
];

/// Checks the row's request after these bytes.
fn check_row(rt: &impl Abort, alloc: Global, ahead: &str, row: &Row) {
    let middle = times(rt, alloc, row.1, row.2);
    let front = joined(rt, alloc, ahead, row.0, middle.as_str());
    let text = joined(rt, alloc, front.as_str(), row.3, "");
    check_one(rt, alloc, text.as_str(), row.4);
}

fn check_rows(rt: &impl Abort, alloc: Global, ahead: &str, rows: &[Row]) {
    for row in rows {
        check_row(rt, alloc, ahead, row);
    }
}

#[test]
fn heads(rt: HostRuntime) {
    check_rows(&rt, rt.alloc(), "", HEADS);
}

#[test]
fn field_lines(rt: HostRuntime) {
    check_rows(&rt, rt.alloc(), "", FIELD_LINES);
}

#[test]
fn chunk_lines(rt: HostRuntime) {
    check_rows(&rt, rt.alloc(), CHUNKED, CHUNK_LINES);
}

#[test]
fn trailers(rt: HostRuntime) {
    check_rows(&rt, rt.alloc(), CHUNKED, TRAILERS);
}

/// Checks that a POST of this many letters is read as these letters.
fn check_letters(rt: &impl Abort, alloc: Global, request: &str, letters: &str) {
    let expected = joined(rt, alloc, "POST / with ", letters, "");
    check_one(rt, alloc, request, expected.as_str());
}

const HEAD: &str = "POST / HTTP/1.1\r\nHost: a\r\nContent-Length: 40000\r\n\r\n";

fn check_by_length(rt: &impl Abort, alloc: Global, letters: &str) {
    let text = joined(rt, alloc, HEAD, letters, "");
    check_letters(rt, alloc, text.as_str(), letters);
}

/// These chunks after the head.
fn chunked(rt: &impl Abort, alloc: Global, chunks: &str) -> String {
    joined(rt, alloc, CHUNKED, chunks, "0\r\n\r\n")
}

fn check_in_a_chunk(rt: &impl Abort, alloc: Global, letters: &str) {
    let chunk = joined(rt, alloc, "9c40\r\n", letters, "\r\n");
    let text = chunked(rt, alloc, chunk.as_str());
    check_letters(rt, alloc, text.as_str(), letters);
}

/// 40,000 letters, as a whole after a head and in one chunk.
#[test]
fn bodies(rt: HostRuntime) {
    let letters = times(&rt, rt.alloc(), "a", 40_000);
    check_by_length(&rt, rt.alloc(), letters.as_str());
    check_in_a_chunk(&rt, rt.alloc(), letters.as_str());
}

/// This many chunks of one letter.
fn many_chunks(rt: &impl Abort, alloc: Global, count: usize) -> String {
    let chunks = times(rt, alloc, "1\r\na\r\n", count);
    chunked(rt, alloc, chunks.as_str())
}

#[test]
fn bodies_in_many_chunks(rt: HostRuntime) {
    let alloc = rt.alloc();
    let letters = times(&rt, alloc, "a", 40_000);
    let most = many_chunks(&rt, alloc, 40_000);
    check_letters(&rt, alloc, most.as_str(), letters.as_str());
    let more = many_chunks(&rt, alloc, 40_001);
    check_one(&rt, alloc, more.as_str(), "413");
}
