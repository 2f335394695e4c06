//! Reads the field lines after the last chunk, the trailer section (RFC 9112, section 7.1.2).
ghost use Rattle.std.specs.Prelude.{◌≡◌, ◌≤◌, length, IfOk, OnErr};
ghost use Rattle.http_read.specs.declared.heads.TheConstants.{HEAD_LIMIT};
ghost use Rattle.http_read.specs.Sections.{SeesSection};
ghost use Rattle.http_read.specs.BodySteps.{ShowsTrailer};

use crate::checks::FIELD_LIMIT;
use crate::heads::{FIELD_ROOM, HEAD_LIMIT, first_bytes};
use crate::inbox::Inbox;
use httparse::spans::{EMPTY_HEADER_SPAN, HeaderSpan, parse_headers};
use httparse::{Error, Status};
use std::alloc::AllocError;

/// What the bytes so far say of a section of field lines.
pub(crate) enum Section {
    /// A whole section: how many bytes it has, and how many field lines.
    Whole(usize, usize),
    /// No bytes can follow that make one.
    Never,
    /// More bytes are needed.
    Open,
}

/// Looks for a section in these bytes. The spans grow if its field lines are more than they have room for.
fn look_for_section(bytes: &[u8], spans: &mut Vec<HeaderSpan>) -> Result<Section, AllocError>
    requires { length bytes.now ≤ HEAD_LIMIT }
    ensures { IfOk result (SeesSection bytes.now) }
{
    loop {
        match parse_headers(bytes, spans.as_mut_slice()) {
            Ok(Status::Complete((len, count))) => return Ok(Section::Whole(len, count)),
            Ok(Status::Partial) => return Ok(Section::Open),
            Err(Error::TooManyHeaders) => spans.resize(FIELD_ROOM, EMPTY_HEADER_SPAN)?,
            Err(_) => return Ok(Section::Never),
        }
    }
}

/// What is at the front.
#[derive(Clone, Copy)]
pub(crate) enum TrailerRead {
    /// More bytes are needed.
    Open,
    /// A whole section was there.
    Whole,
    /// Field lines that are refused: the status of the refusal.
    Refused(u16),
}

/// Reads the field lines and consumes them.
pub(crate) fn pass_trailer(
    inbox: &mut Inbox,
    spans: &mut Vec<HeaderSpan>,
) -> Result<TrailerRead, AllocError>
    ensures shows { IfOk result (λ read. ShowsTrailer read inbox.old inbox.new) }
    ensures kept { OnErr result (inbox.new ≡ inbox.old) }
{
    let held = inbox.held();
    match look_for_section(first_bytes(held), spans)? {
        Section::Whole(_, count) if count > FIELD_LIMIT => Ok(TrailerRead::Refused(431)),
        Section::Whole(len, _) => {
            inbox.pass(len);
            Ok(TrailerRead::Whole)
        }
        Section::Never => Ok(TrailerRead::Refused(400)),
        Section::Open if held.len() > HEAD_LIMIT => Ok(TrailerRead::Refused(431)),
        Section::Open => Ok(TrailerRead::Open),
    }
}
