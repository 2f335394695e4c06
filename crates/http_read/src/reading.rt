//! Reads one request.
//!
//! `serve` (so `sitecluster`) and tests call `request`, which waits for the whole request. `sited` goes by
//! `Server::step`: its connections take in what has come, and do not wait.
//!
//! After a failed read no other read is made. A failed read differs from the input's end only by the count
//! (`StopsAt`).

ghost use Rattle.std.specs.Prelude.{◌≡◌, ◌≢◌, IfOk, IfErr, IfSome, IsErrOf, OnOk};
ghost use Rattle.std.specs.Io.KnownBytes.{IsAtEnd, Keeps};
ghost use Rattle.http_read.specs.Counted.{inside, failed, RoseByOne};
ghost use Rattle.http_read.specs.Input.{input_of, StopsAt, HasBegun};
ghost use Rattle.http_read.specs.Requests.{Answers, IsCutShort, stops};
ghost use Rattle.http_read.specs.Incoming.{Shows};

use crate::checks::FIELD_LIMIT;
use crate::counted::Counted;
use crate::fault::ReadFault;
use crate::inbox::Inbox;
use crate::incoming::Incoming;
use crate::progress::{Progress, advance};
use httparse::spans::{EMPTY_HEADER_SPAN, HeaderSpan};
use std::alloc::{AllocError, Global};
use std::io::Read;

/// Room for as many field lines as a head may have.
fn room_for_fields(alloc: Global) -> Result<Vec<HeaderSpan>, AllocError> {
    vec![in alloc; EMPTY_HEADER_SPAN; FIELD_LIMIT]
}

/// Whether there is a byte of a request. If none is held, one reading waits for it.
fn has_begun<R: Read>(reader: &mut Counted<R>, inbox: &mut Inbox) -> Result<bool, ReadFault>
    ensures input { OnOk result (Keeps (input_of inbox.old (R.remaining (inside reader.old)))
        (input_of inbox.new (R.remaining (inside reader.new)))) }
    ensures begun { IfOk result (λ begun. HasBegun begun inbox.new (R.remaining (inside reader.new))) }
    ensures unread { IsErrOf result ReadFault.Read →
        StopsAt (input_of inbox.old (R.remaining (inside reader.old)))
        (R.remaining (inside reader.new)) IsCutShort }
    ensures never { ¬ (IsErrOf result ReadFault.EndedEarly) }
    ensures failed { IsErrOf result ReadFault.Read → RoseByOne (failed reader.old) (failed reader.new) }
    ensures quiet { ¬ (IsErrOf result ReadFault.Read) → failed reader.new ≡ failed reader.old }
{
    if inbox.held().len() > 0 {
        return Ok(true);
    }
    match inbox.read_more(reader) {
        Ok(()) => Ok(true),
        Err(ReadFault::EndedEarly) => Ok(false),
        Err(ReadFault::Read) => Err(ReadFault::Read),
        Err(ReadFault::OutOfMemory) => Err(ReadFault::OutOfMemory),
    }
}

/// Reads one request, with this room for field lines.
fn read_one<R: Read>(
    alloc: Global,
    reader: &mut Counted<R>,
    inbox: &mut Inbox,
    spans: &mut Vec<HeaderSpan>,
) -> Result<Incoming, ReadFault>
    ensures answer { IfOk result (λ incoming. IfSome (input_of inbox.old (R.remaining (inside reader.old)))
        (Shows incoming (input_of inbox.new (R.remaining (inside reader.new))))) }
    ensures stopped { IfErr result (λ fault. fault ≢ ReadFault.OutOfMemory →
        StopsAt (input_of inbox.old (R.remaining (inside reader.old)))
        (R.remaining (inside reader.new)) IsCutShort) }
    ensures ended { IsErrOf result ReadFault.EndedEarly → IsAtEnd (R.remaining (inside reader.new)) }
    ensures failed { IsErrOf result ReadFault.Read → RoseByOne (failed reader.old) (failed reader.new) }
    ensures quiet { ¬ (IsErrOf result ReadFault.Read) → failed reader.new ≡ failed reader.old }
{
    let mut progress = Progress::Head;
    loop {
        match advance(alloc, &mut progress, inbox, spans)? {
            Some(incoming) => return Ok(incoming),
            None => inbox.read_more(reader)?,
        }
    }
}

/// Reads one request, at the front of what the inbox holds and then of what the reader gives.
///
/// After a request the inbox and the reader have exactly the bytes that follow it. After a refusal or a fault
/// no clause says what they have: the connection is to be closed. No call that failed is made again. Before a
/// first byte has come, only the inbox allocates.
///
/// A head has at most 8,192 bytes and 64 field lines, a body 40,000 bytes. Beyond the inbox a call allocates
/// at most 90 KB for where field lines are (2 KB for a head of up to 64), 40 KB for a body, and 8 KB each for
/// a copy of the target and for its path.
pub fn request<R: Read>(
    alloc: Global,
    reader: &mut Counted<R>,
    inbox: &mut Inbox,
) -> Result<Incoming, ReadFault>
    ensures answer { IfOk result (λ incoming. IfSome (input_of inbox.old (R.remaining (inside reader.old)))
        (Shows incoming (input_of inbox.new (R.remaining (inside reader.new))))) }
    ensures ended { IsErrOf result ReadFault.EndedEarly
        → IfSome (input_of inbox.old (R.remaining (inside reader.old))) (λ input. Answers input stops) }
    ensures unread { IsErrOf result ReadFault.Read
        → StopsAt (input_of inbox.old (R.remaining (inside reader.old)))
        (R.remaining (inside reader.new)) IsCutShort }
    ensures failed { IsErrOf result ReadFault.Read → RoseByOne (failed reader.old) (failed reader.new) }
    ensures quiet { ¬ (IsErrOf result ReadFault.Read) → failed reader.new ≡ failed reader.old }
{
    if has_begun(reader, inbox)? {
        let mut spans = room_for_fields(alloc)?;
        read_one(alloc, reader, inbox, &mut spans)
    } else {
        Ok(Incoming::Ended)
    }
}
