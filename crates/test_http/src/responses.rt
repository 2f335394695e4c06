//! Single requests, with the whole bytes of their responses.
use crate::desk::{Desk, open_desk, took};
use crate::ends::{CLOSE, PLAIN, Row, check, responds};
use crate::texts::{joined, times};
use std::process::Abort;

pub(crate) const PAGE: &str =
    "HTTP/1.1 200 OK\r\nContent-Type: text/html; charset=utf-8\r\nContent-Length: 3\r\n\r\nHi\n";

pub(crate) const LAST_PAGE: &str =
    "HTTP/1.1 200 OK\r\nContent-Type: text/html; charset=utf-8\r\nContent-Length: 3\r\nConnection: close\r\n\r\nHi\n";

const PAGE_HEAD: &str =
    "HTTP/1.1 200 OK\r\nContent-Type: text/html; charset=utf-8\r\nContent-Length: 3\r\n\r\n";

pub(crate) const BAD: &str =
    "HTTP/1.1 400 Bad Request\r\nContent-Type: text/plain; charset=utf-8\r\nContent-Length: 12\r\nConnection: close\r\n\r\nbad request\n";

const BAD_HEAD: &str =
    "HTTP/1.1 400 Bad Request\r\nContent-Type: text/plain; charset=utf-8\r\nContent-Length: 12\r\nConnection: close\r\n\r\n";

const ROWS: &[(&str, &str)] = &[
    ("GET /%68?x HTTP/1.1\r\nHost: a\r\n\r\n", PAGE),
    ("HEAD /%68?x HTTP/1.1\r\nHost: a\r\n\r\n", PAGE_HEAD),
    ("GET /h HTTP/1.0\r\n\r\n", LAST_PAGE),
    // What follows the last request is ignored.
    (
        "GET /h HTTP/1.1\r\nHost: a\r\nConnection: close\r\n\r\nGET /lost HTTP/1.1\r\n",
        LAST_PAGE,
    ),
    ("GET /%68?x HTTP/1.1\r\n\r\n", BAD),
    ("GET * HTTP/1.1\r\nHost: a\r\n\r\n", BAD),
    ("HEAD /%68?x HTTP/1.1\r\n\r\n", BAD_HEAD),
    ("HEAD /h HTTP/1.1\r\nHost : a\r\n\r\n", BAD),
    (
        "POST /h HTTP/1.1\r\nHost: a\r\n\r\n",
        "HTTP/1.1 405 Method Not Allowed\r\nContent-Type: text/plain; charset=utf-8\r\nAllow: GET, HEAD\r\nContent-Length: 19\r\n\r\nmethod not allowed\n",
    ),
    (
        "HEAD /_submit/1/5 HTTP/1.1\r\nHost: a\r\n\r\n",
        "HTTP/1.1 405 Method Not Allowed\r\nContent-Type: text/plain; charset=utf-8\r\nAllow: POST\r\nContent-Length: 19\r\n\r\n",
    ),
];

const BAD_REQUEST: &Row = &("400 Bad Request", PLAIN, "", CLOSE, "bad request\n");

const NOT_IMPLEMENTED: &Row = &("501 Not Implemented", PLAIN, "", CLOSE, "not implemented\n");

const TOO_LARGE: &Row = &("413 Content Too Large", PLAIN, "", CLOSE, "too large\n");

const BEGUN: &str = "GET /h HTTP/1.1\r\nHost: a\r\n";

/// What comes after `BEGUN`, and its refusal.
const REFUSED: &[(&str, &Row)] = &[
    ("Transfer-Encoding: gzip\r\n\r\n", BAD_REQUEST),
    ("Transfer-Encoding: gzip, chunked\r\n\r\n", NOT_IMPLEMENTED),
    (
        "Content-Length: 0\r\nTransfer-Encoding: chunked\r\n\r\n",
        BAD_REQUEST,
    ),
    ("Content-Length: 40001\r\n\r\n", TOO_LARGE),
    ("Transfer-Encoding: chunked\r\n\r\n9C41\r\n", TOO_LARGE),
];

/// Heads that are too long, for 414 and for 431: what comes before 8,188 letters and after them, and the
/// refusal.
const LONG: &[(&str, &str, Row)] = &[
    (
        "GET /",
        "",
        ("414 URI Too Long", PLAIN, "", CLOSE, "uri too long\n"),
    ),
    (
        "GET / HTTP/1.1\r\nHost: a\r\nX: ",
        "\r\n\r\n",
        (
            "431 Request Header Fields Too Large",
            PLAIN,
            "",
            CLOSE,
            "head too large\n",
        ),
    ),
];

/// Checks the refusal of a request in three parts.
fn check_refused(
    rt: &impl Abort,
    desk: &mut Desk<'_>,
    before: &str,
    part: &str,
    behind: &str,
    row: &Row,
) {
    let request = joined(rt, desk.alloc, before, part, behind);
    responds(rt, desk, request.as_str(), row, false);
}

fn check_rows(rt: &impl Abort, desk: &mut Desk<'_>) {
    for &(request, expected) in ROWS {
        check(rt, desk, request, expected);
    }
}

fn check_refusals(rt: &impl Abort, desk: &mut Desk<'_>) {
    for &(behind, row) in REFUSED {
        check_refused(rt, desk, BEGUN, behind, "", row);
    }
}

#[test]
fn single_requests(rt: HostRuntime) {
    let mut desk = open_desk(rt.alloc(), 1);
    check_rows(&rt, &mut desk);
    check_refusals(&rt, &mut desk);
    took(&rt, &desk, 0);
    drop(desk);
}

fn check_long(rt: &impl Abort, desk: &mut Desk<'_>, letters: &str) {
    for row in LONG {
        check_refused(rt, desk, row.0, letters, row.1, &row.2);
    }
}

#[test]
fn long_heads(rt: HostRuntime) {
    let mut desk = open_desk(rt.alloc(), 1);
    let letters = times(&rt, rt.alloc(), "a", 8_188);
    check_long(&rt, &mut desk, letters.as_str());
    drop(desk);
}
