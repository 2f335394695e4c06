//! A connection that is cut, cut off or broken at each place.

use crate::desk::Desk;
use crate::ends::{answers, reads, sends, writes};
use http_serve::ServeFault;
use std::process::Abort;
use test_ends::in_pieces;

/// Checks that these bytes are answered so, cut into two after each byte and in pieces of each size.
pub(crate) fn answers_in_pieces(
    rt: &impl Abort,
    desk: &mut Desk<'_>,
    bytes: &[u8],
    written: &[u8],
) {
    for cut in 0..=bytes.len() {
        answers(rt, desk, bytes, cut, usize::MAX, written);
        answers(rt, desk, bytes, cut, cut, written);
    }
}

/// Checks each end within the bytes, from this length on: the input ended early, and that is written.
pub(crate) fn ends_early(
    rt: &impl Abort,
    desk: &mut Desk<'_>,
    bytes: &[u8],
    from: usize,
    written: &[u8],
) {
    for len in from..bytes.len() {
        let early = Err(ServeFault::EndedEarly);
        sends(rt, desk, &bytes[..len], early, written, len);
    }
}

/// Checks a reader that gives one byte a call and fails after `good` bytes: the fault is the reader's, and
/// that is written.
pub(crate) fn fails_behind(
    rt: &impl Abort,
    desk: &mut Desk<'_>,
    bytes: &[u8],
    good: usize,
    written: &[u8],
) {
    let reader = in_pieces(bytes, 1, 1, good);
    reads(rt, desk, reader, Err(ServeFault::Read), written, good);
}

/// Checks the same at each place within the bytes, from this length on.
pub(crate) fn fails_to_read(
    rt: &impl Abort,
    desk: &mut Desk<'_>,
    bytes: &[u8],
    from: usize,
    written: &[u8],
) {
    for good in from..bytes.len() {
        fails_behind(rt, desk, bytes, good, written);
    }
}

/// Checks a writer that fails after each number of bytes: the fault is the writer's, and those bytes are
/// written.
pub(crate) fn fails_to_write(rt: &impl Abort, desk: &mut Desk<'_>, bytes: &[u8], written: &[u8]) {
    for room in 0..written.len() {
        let begun = &written[..room];
        let failed = Err(ServeFault::Write);
        writes(rt, desk, bytes, (room, usize::MAX), failed, begun);
    }
}

/// Checks writers that take pieces of each size.
pub(crate) fn writes_in_pieces(rt: &impl Abort, desk: &mut Desk<'_>, bytes: &[u8], written: &[u8]) {
    for piece in 1..=written.len() {
        writes(rt, desk, bytes, (usize::MAX, piece), Ok(()), written);
    }
}
