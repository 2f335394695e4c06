//! A request cut in every way, cut off after each byte, with readers and writers that fail at each place.
use crate::comparing::same;
use crate::desk::{Desk, open_desk};
use crate::each_end::{
    answers_in_pieces, ends_early, fails_behind, fails_to_read, fails_to_write, writes_in_pieces,
};
use std::process::Abort;

const REQUEST: &[u8] = b"GET /%68?x HTTP/1.1\r\nHost: a\r\n\r\n";

const RESPONSE: &[u8] =
    b"HTTP/1.1 200 OK\r\nContent-Type: text/html; charset=utf-8\r\nContent-Length: 3\r\n\r\nHi\n";

/// Checks each cut, each early end, and each reader that fails. If the reader fails after the last byte, that
/// is a fault of the next request: the response was written.
fn check_readers(rt: &impl Abort, desk: &mut Desk<'_>, request: &[u8], response: &[u8]) {
    let nothing: &[u8] = b"";
    answers_in_pieces(rt, desk, request, response);
    ends_early(rt, desk, request, 0, nothing);
    fails_to_read(rt, desk, request, 0, nothing);
    fails_behind(rt, desk, request, request.len(), response);
}

fn check_writers(rt: &impl Abort, desk: &mut Desk<'_>) {
    same(rt, RESPONSE.len(), 81);
    writes_in_pieces(rt, desk, REQUEST, RESPONSE);
    fails_to_write(rt, desk, REQUEST, RESPONSE);
}

#[test]
fn a_page_in_pieces(rt: HostRuntime) {
    let mut desk = open_desk(rt.alloc(), 1);
    check_readers(&rt, &mut desk, REQUEST, RESPONSE);
    check_writers(&rt, &mut desk);
    drop(desk);
}
