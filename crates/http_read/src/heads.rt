//! Finds the head of a request at the front of an input (RFC 9112, sections 2 to 5).
//!
//! The first 8,192 bytes are looked at again as they grow. If exactly that many have no head, and then the
//! input ends, it ended early.

ghost use Rattle.std.specs.Prelude.{◌≡◌, if◌then◌else◌, ◌≤◌, length, IfOk};
ghost use Rattle.http_read.specs.declared.heads.TheConstants.{HEAD_LIMIT};
ghost use Rattle.http_read.specs.Heads.{window, skip_breaks, is_long_line};
ghost use Rattle.http_read.specs.Looks.{Sees, Finds};

use httparse::spans::{EMPTY_HEADER_SPAN, HeaderSpan, RequestSpans, parse_request};
use httparse::{Error, Status};
use std::alloc::AllocError;

/// The most bytes of a head, its request line and its last line among them.
pub(crate) const HEAD_LIMIT: usize = 8192;

/// The most field lines that this many bytes can be: each has at least three.
pub(crate) const FIELD_ROOM: usize = HEAD_LIMIT / 3;

/// What the bytes so far say of a head.
pub(crate) enum Look {
    /// A whole head, at these spans.
    Head(RequestSpans),
    /// No bytes can follow that make a head.
    Never,
    /// More bytes are needed.
    Open,
}

/// What is at the front of an input.
pub(crate) enum Found {
    /// A head, at these spans.
    At(RequestSpans),
    /// No head: the status of the refusal.
    Refused(u16),
    /// More bytes are needed.
    Wanted,
}

/// The first 8,192 bytes.
pub(crate) fn first_bytes(held: &[u8]) -> &[u8]
    ensures window { result.now ≡ window held.now }
    ensures short { length result.now ≤ HEAD_LIMIT }
{
    &held[..HEAD_LIMIT.min(held.len())]
}

/// Looks for a head in these bytes. The spans grow if its field lines are more than they have room for.
fn look_within(bytes: &[u8], spans: &mut Vec<HeaderSpan>) -> Result<Look, AllocError>
    requires { length bytes.now ≤ HEAD_LIMIT }
    ensures { IfOk result (Sees bytes.now spans.new.items) }
{
    loop {
        match parse_request(bytes, spans.as_mut_slice()) {
            Ok(Status::Complete(found)) => return Ok(Look::Head(found)),
            Ok(Status::Partial) => return Ok(Look::Open),
            Err(Error::TooManyHeaders) => spans.resize(FIELD_ROOM, EMPTY_HEADER_SPAN)?,
            Err(_) => return Ok(Look::Never),
        }
    }
}

/// The bytes without the line breaks at their front.
fn without_breaks(bytes: &[u8]) -> &[u8]
    ensures { result.now ≡ skip_breaks bytes.now }
{
    let mut rest = bytes;
    while let [first, others @ ..] = rest {
        if *first != b'\r' && *first != b'\n' {
            return rest;
        }
        rest = others;
    }
    rest
}

/// The status for a full window without a head.
fn overlong(bytes: &[u8]) -> u16
    ensures { result ≡ (if is_long_line bytes.now then 414 else 431) }
{
    let line = without_breaks(bytes);
    if line.contains(&b' ') && !line.contains(&b'\n') {
        414
    } else {
        431
    }
}

/// Looks for a head, or a reason to refuse what is held.
pub(crate) fn find_head(held: &[u8], spans: &mut Vec<HeaderSpan>) -> Result<Found, AllocError>
    ensures { IfOk result (Finds held.now spans.new.items) }
{
    let bytes = first_bytes(held);
    match look_within(bytes, spans)? {
        Look::Head(found) => Ok(Found::At(found)),
        Look::Never => Ok(Found::Refused(400)),
        Look::Open => {
            if held.len() > HEAD_LIMIT {
                Ok(Found::Refused(overlong(bytes)))
            } else {
                Ok(Found::Wanted)
            }
        }
    }
}
