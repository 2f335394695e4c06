//! Bodies by length and by chunks.
use crate::pieces::{Row, check};

/// What follows `POST /p HTTP/1.1` and a Host line: a Content-Length line, and what comes after the head.
const BY_LENGTH: &[Row] = &[
    ("Content-Length: 3\r\n\r\nabc", "POST /p with abc"),
    (
        "Content-Length: 00000000000000000003\r\n\r\nabc",
        "POST /p with abc",
    ),
    ("Content-Length: 3\r\n\r\nab", "ended early"),
    ("Content-Length: 40000\r\n\r\nab", "ended early"),
    ("content-length: 2 \r\n\r\n\r\n", "POST /p with \r\n"),
];

/// What follows a head with chunked coding.
const BY_CHUNKS: &[Row] = &[
    (
        "4\r\nrele\r\n4\r\nase\n\r\n0\r\n\r\n",
        "POST /p with release\n",
    ),
    ("8\r\nrelease\n\r\n0\r\n\r\n", "POST /p with release\n"),
    ("0\r\n\r\n", "POST /p"),
    ("000\r\n\r\n", "POST /p"),
    ("A\r\n0123456789\r\n0\r\n\r\n", "POST /p with 0123456789"),
    ("a\r\n0123456789\r\n0\r\n\r\n", "POST /p with 0123456789"),
    ("0000000000000001\r\na\r\n0\r\n\r\n", "POST /p with a"),
    // Chunk extensions are ignored, and so are spaces after the size.
    ("3;x=y\r\nabc\r\n0;z\r\n\r\n", "POST /p with abc"),
    ("3 \t\r\nabc\r\n0\r\n\r\n", "POST /p with abc"),
    ("3 ;\r\nabc\r\n0\r\n\r\n", "POST /p with abc"),
    // Trailer fields are ignored, whatever they say.
    ("0\r\nA: b\r\nContent-Length: 9\r\n\r\n", "POST /p"),
    ("0\r\nA: b\n\n", "POST /p"),
    ("0\r\n\n", "POST /p"),
    ("0\r\n(a: b\r\n\r\n", "400"),
    ("0\r\nA : b\r\n\r\n", "400"),
    ("0\r\nA: b\r\n c\r\n\r\n", "400"),
    ("0\r\n\rX", "400"),
    // Invalid lines.
    ("x\r\n", "400"),
    ("\r\n", "400"),
    ("-1\r\n", "400"),
    ("+1\r\n", "400"),
    (" 1\r\n", "400"),
    ("0x1\r\n", "400"),
    ("1\n", "400"),
    ("1\r\r\n", "400"),
    ("00000000000000001\r\n", "400"),
    // Chunks that are longer or shorter than their line says.
    ("3\r\nabcXY", "400"),
    ("3\r\nabc\n0", "400"),
    ("3\r\nabcd\r\n", "400"),
    ("3\r\nab\r\n0\r\n", "400"),
    // Over 40,000 bytes in all: the refusal comes at the chunk that exceeds the limit.
    ("9C41\r\n", "413"),
    ("FFFFFFFFFFFFFFFF\r\n", "413"),
    ("3\r\nabc\r\n9C3E\r\n", "413"),
    ("3\r\nabcXY\r\n9C3E\r\n", "400"),
    // An input that ends within the body.
    ("", "ended early"),
    ("3", "ended early"),
    ("3\r", "ended early"),
    ("3\r\nab", "ended early"),
    ("3\r\nabc", "ended early"),
    ("3\r\nabcX", "ended early"),
    ("3\r\nabc\r\n", "ended early"),
    ("3\r\nabc\r\n9C3D\r\n", "ended early"),
    ("9C40\r\n", "ended early"),
    ("0\r\n", "ended early"),
    ("0\r\nA: b\r\n\r", "ended early"),
];

/// What follows a HEAD request's head with chunked coding: a refusal in the body still says that it is of
/// HEAD.
const BEHIND_HEAD: &[Row] = &[
    ("3\r\nabc\r\n0\r\n\r\n", "HEAD / with abc"),
    ("9C41\r\n", "413 to HEAD"),
    ("0\r\n(\r\n\r\n", "400 to HEAD"),
];

#[test]
fn by_length(rt: HostRuntime) {
    let before = "POST /p HTTP/1.1\r\nHost: a\r\n";
    check(&rt, rt.alloc(), before, BY_LENGTH, "");
}

#[test]
fn by_chunks(rt: HostRuntime) {
    let before = "POST /p HTTP/1.1\r\nHost: a\r\nTransfer-Encoding: , Chunked\t,\r\n\r\n";
    check(&rt, rt.alloc(), before, BY_CHUNKS, "");
}

#[test]
fn behind_a_head_of_head(rt: HostRuntime) {
    let before = "HEAD / HTTP/1.1\r\nHost: a\r\nTransfer-Encoding: chunked\r\n\r\n";
    check(&rt, rt.alloc(), before, BEHIND_HEAD, "");
}
