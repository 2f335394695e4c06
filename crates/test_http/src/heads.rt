//! Heads: request lines, fields, the tests in their order.
use crate::pieces::{Row, check};

/// Request lines, with one Host line after them.
const LINES: &[Row] = &[
    ("GET /%68?x HTTP/1.1\r\n", "GET /h"),
    ("HEAD /%68?x HTTP/1.1\r\n", "HEAD /h"),
    ("POST /%68?x HTTP/1.1\r\n", "POST /h"),
    ("GET / HTTP/1.0\r\n", "GET / and closes"),
    ("GET / HTTP/1.1\n", "GET /"),
    // Line breaks before the request line are ignored.
    ("\r\n\n\r\nGET / HTTP/1.1\r\n", "GET /"),
    ("\rGET / HTTP/1.1\r\n", "400"),
    ("\r\n GET / HTTP/1.1\r\n", "400"),
    // No other version, no extra space.
    ("GET / HTTP/1.2\r\n", "400"),
    ("GET / HTTP/2.0\r\n", "400"),
    ("GET / http/1.1\r\n", "400"),
    ("GET /\r\n", "400"),
    ("GET\r\n", "400"),
    ("GET  / HTTP/1.1\r\n", "400"),
    ("GET / HTTP/1.1 \r\n", "400"),
    ("GET / HTTP/1.1\r", "400"),
    (" / HTTP/1.1\r\n", "400"),
    // Methods differ by case; any token is one.
    ("PUT / HTTP/1.1\r\n", "501"),
    ("get / HTTP/1.1\r\n", "501"),
    ("M-SEARCH / HTTP/1.1\r\n", "501"),
    ("G@T / HTTP/1.1\r\n", "400"),
    // The method is tested before the target.
    ("OPTIONS * HTTP/1.1\r\n", "501"),
    ("CONNECT a:80 HTTP/1.1\r\n", "501"),
    ("DELETE /#a HTTP/1.1\r\n", "501"),
];

/// Field lines after `GET / HTTP/1.1`, up to the empty line.
const FIELDS: &[Row] = &[
    ("Host: a\r\n", "GET /"),
    ("host:a\r\n", "GET /"),
    ("HOST: \t a \t \r\n", "GET /"),
    ("Host:\r\n", "GET /"),
    ("Host: a\n", "GET /"),
    ("Host: a\r\nX: é\t\"\r\n", "GET /"),
    // One Host line.
    ("", "400"),
    ("X: a\r\n", "400"),
    ("Host: a\r\nHost: a\r\n", "400"),
    ("Host: a\r\nhOST: b\r\n", "400"),
    // No space before the colon, no folded line, no line without a colon or a name.
    ("Host : a\r\n", "400"),
    (" Host: a\r\n", "400"),
    ("Host: a\r\nX: b\r\n c\r\n", "400"),
    ("Host: a\r\nX\r\n", "400"),
    ("Host: a\r\n: b\r\n", "400"),
    ("Host: a\r\nX(: b\r\n", "400"),
    // No control byte except the tab.
    ("Host: a\rX: b\r\n", "400"),
    ("Host: a\r\nX: \0\r\n", "400"),
    ("Host: a\r\nX: \x7f\r\n", "400"),
    // Transfer codings end in chunked, and no other coding is known.
    ("Host: a\r\nTransfer-Encoding: gzip\r\n", "400"),
    ("Host: a\r\nTransfer-Encoding: gzip, chunked\r\n", "501"),
    (
        "Host: a\r\nTransfer-Encoding: gzip\r\ntransfer-encoding: chunked\r\n",
        "501",
    ),
    (
        "Host: a\r\nTransfer-Encoding: chunked\r\nTransfer-Encoding: gzip\r\n",
        "400",
    ),
    ("Host: a\r\nTransfer-Encoding: chunked, chunked\r\n", "501"),
    ("Host: a\r\nTransfer-Encoding: ,\r\n", "400"),
    ("Host: a\r\nTransfer-Encoding:\r\n", "400"),
    ("Host: a\r\nTransfer-Encoding: chunked;q=1\r\n", "400"),
    ("Host: a\r\nTransfer-Encoding: x;a=\"b,chunked\"\r\n", "400"),
    (
        "Host: a\r\nTransfer-Encoding: x;a=\"b,\", chunked\r\n",
        "501",
    ),
    (
        "Host: a\r\nTransfer-Encoding: chunked\r\nContent-Length: 0\r\n",
        "400",
    ),
    (
        "Host: a\r\nTransfer-Encoding: gzip, chunked\r\nContent-Length: 0\r\n",
        "400",
    ),
    // One length, in digits.
    ("Host: a\r\nContent-Length: 0\r\n", "GET /"),
    (
        "Host: a\r\nContent-Length: 00000000000000000000\r\n",
        "GET /",
    ),
    (
        "Host: a\r\nContent-Length: 0\r\nContent-Length: 0\r\n",
        "400",
    ),
    ("Host: a\r\nContent-Length: +5\r\n", "400"),
    ("Host: a\r\nContent-Length: -5\r\n", "400"),
    ("Host: a\r\nContent-Length: 5,5\r\n", "400"),
    ("Host: a\r\nContent-Length: 5 5\r\n", "400"),
    ("Host: a\r\nContent-Length: 0x5\r\n", "400"),
    ("Host: a\r\nContent-Length:\r\n", "400"),
    ("Host: a\r\nContent-Length: 40001\r\n", "413"),
    ("Host: a\r\nContent-Length: 99999999999999999999\r\n", "413"),
];

/// Connection lines after `GET / HTTP/1.1` and a Host line: the word `close` closes, between commas and in
/// any case.
const CONNECTIONS: &[Row] = &[
    ("", "GET /"),
    ("Connection: close\r\n", "GET / and closes"),
    ("connection:CLOSE\r\n", "GET / and closes"),
    ("CONNECTION: \t Close \t \r\n", "GET / and closes"),
    ("Connection: keep-alive, close\r\n", "GET / and closes"),
    ("Connection: close\t,keep-alive\r\n", "GET / and closes"),
    ("Connection: a,,close,\r\n", "GET / and closes"),
    (
        "Connection: keep-alive\r\nX: y\r\nConnection: close\r\n",
        "GET / and closes",
    ),
    ("Connection: keep-alive\r\n", "GET /"),
    ("Connection:\r\n", "GET /"),
    ("Connection: ,\r\n", "GET /"),
    ("Connection: closed\r\n", "GET /"),
    ("Connection: close x\r\n", "GET /"),
    ("Connection: \"close\"\r\n", "GET /"),
    ("Proxy-Connection: close\r\n", "GET /"),
];

/// The same after `GET / HTTP/1.0`: it closes in any case.
const OLD_CONNECTIONS: &[Row] = &[
    ("Connection: keep-alive\r\n", "GET / and closes"),
    ("Connection: close\r\n", "GET / and closes"),
];

/// Whole heads that fail one test or two: the first failed test sets the status. HTTP/1.0 may leave Host out
/// and has no transfer codings.
const ORDER: &[Row] = &[
    ("GET / HTTP/1.0\r\n\r\n", "GET / and closes"),
    ("GET / HTTP/1.0\r\nHost: a\r\nHost: a\r\n\r\n", "400"),
    (
        "GET / HTTP/1.0\r\nTransfer-Encoding: chunked\r\n\r\n",
        "400",
    ),
    ("HEAD / HTTP/1.1\r\n\r\n", "400 to HEAD"),
    ("HEAD /#a HTTP/1.1\r\nHost: a\r\n\r\n", "400 to HEAD"),
    ("HEAD / HTTP/1.1\r\nHost : a\r\n\r\n", "400"),
    (
        "HEAD / HTTP/1.1\r\nHost: a\r\nTransfer-Encoding: gzip, chunked\r\n\r\n",
        "501 to HEAD",
    ),
    (
        "HEAD / HTTP/1.1\r\nHost: a\r\nContent-Length: 40001\r\n\r\n",
        "413 to HEAD",
    ),
    ("PUT / HTTP/1.1\r\n\r\n", "400"),
    (
        "PUT / HTTP/1.1\r\nHost: a\r\nContent-Length: 40001\r\n\r\n",
        "413",
    ),
    ("PUT /#a HTTP/1.1\r\nHost: a\r\n\r\n", "501"),
    (
        "GET / HTTP/1.1\r\nTransfer-Encoding: gzip, chunked\r\n\r\n",
        "400",
    ),
];

#[test]
fn request_lines(rt: HostRuntime) {
    check(&rt, rt.alloc(), "", LINES, "Host: a\r\n\r\n");
}

#[test]
fn field_lines(rt: HostRuntime) {
    check(&rt, rt.alloc(), "GET / HTTP/1.1\r\n", FIELDS, "\r\n");
}

#[test]
fn connection_lines(rt: HostRuntime) {
    let before = "GET / HTTP/1.1\r\nHost: a\r\n";
    check(&rt, rt.alloc(), before, CONNECTIONS, "\r\n");
}

#[test]
fn old_connection_lines(rt: HostRuntime) {
    let before = "GET / HTTP/1.0\r\n";
    check(&rt, rt.alloc(), before, OLD_CONNECTIONS, "\r\n");
}

#[test]
fn the_first_test_that_fails(rt: HostRuntime) {
    check(&rt, rt.alloc(), "", ORDER, "");
}
