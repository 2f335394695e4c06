//! What a client of a server sends, and what it shows of an answer.
//!
//! All faults of sockets are one fault. A call waits for a second at most, since one thread is both ends.

ghost use Rattle.std.specs.Prelude.{◌≡◌, IfOk, MatchOption};
ghost use Rattle.engine_script.specs.Client.{post_request, get_request, IsResponse, HasNoAnswer, IsShown};

use crate::loopback_fault::LoopbackFault;
use httparse::Status;
use httparse::spans::{EMPTY_HEADER_SPAN, parse_response};
use site_ids::Ticket;
use std::alloc::{AllocError, Global};

/// The most field lines of an answer. A server of this project gives four at most.
const FIELDS: usize = 16;

/// A command text as a submission under a ticket.
pub(crate) fn post_request(
    alloc: Global,
    ticket: Ticket,
    text: &[u8],
) -> Result<Vec<u8>, AllocError>
    ensures { IfOk result (λ request. request.items ≡ post_request ticket text.now) }
{
    let Ticket { editor, number } = ticket;
    let len = text.len();
    let head = format!(in alloc;
        "POST /_submit/{editor}/{number} HTTP/1.1\r\n\
         Host: localhost\r\n\
         Connection: close\r\n\
         Content-Length: {len}\r\n\r\n"
    )?;
    let mut request = head.into_bytes();
    request.extend_from_slice(text)?;
    Ok(request)
}

/// A request for a target.
pub(crate) fn get_request(alloc: Global, target: &[u8]) -> Result<Vec<u8>, AllocError>
    ensures { IfOk result (λ request. request.items ≡ get_request target.now) }
{
    let mut request = Vec::from_slice(alloc, b"GET ")?;
    request.extend_from_slice(target)?;
    request.extend_from_slice(b" HTTP/1.1\r\nHost: localhost\r\nConnection: close\r\n\r\n")?;
    Ok(request)
}

/// The status and the body of an answer.
fn answer_in(received: &[u8]) -> Option<(u16, &[u8])>
    ensures { MatchOption result (HasNoAnswer received.now) (λ a. IsResponse received.now a.0 a.1.now) }
{
    let mut spans = [EMPTY_HEADER_SPAN; FIELDS];
    match parse_response(received, &mut spans) {
        Ok(Status::Complete(head)) => Some((head.code, &received[head.len..])),
        Ok(Status::Partial) => None,
        Err(_) => None,
    }
}

/// What is printed of an answer.
pub(crate) fn shown(alloc: Global, received: &[u8]) -> Result<Vec<u8>, LoopbackFault>
    ensures { IfOk result (λ text. IsShown received.now text.items) }
{
    let Some((status, body)) = answer_in(received) else {
        return Err(LoopbackFault::Socket);
    };
    let len = body.len();
    let line = format!(in alloc; "{status} {len}\n")?;
    let mut text = line.into_bytes();
    text.extend_from_slice(body)?;
    Ok(text)
}
