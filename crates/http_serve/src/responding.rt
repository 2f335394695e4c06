//! The response to a request.
ghost use Rattle.std.specs.Prelude.{◌≡◌, ◌⊎◌, IfOk, OnErr, Some, decimal, option_map, string_bytes};
ghost use Rattle.http_read.specs.Incoming.{request_of};
ghost use Rattle.http_serve.specs.Connections.{IsResponse};
ghost use Rattle.http_serve.specs.Paths.{submission};
ghost use Rattle.http_serve.specs.Resources.{resource_shown};
ghost use Rattle.http_serve.specs.Shown.{line_of as line_shown, written_in, write_as, closing, whole};
ghost use Rattle.http_serve.specs.Replies.{Reply, stays_behind};
ghost use Rattle.http_serve.specs.Responses.{plain as plain_reply, refusal, wrong_method as wrong_reply};
ghost use Rattle.http_serve.specs.Responses.{receipt_reply, moved_line as moved_reply, page_reply};
ghost use Rattle.http_serve.specs.Responses.{asked_reply, outcome_reply, line, RepliesToPost, RefusesPost};
ghost use Rattle.http_serve.specs.Responses.{Refuses};
ghost use Rattle.http_serve.specs.Services.{Outcome, Submits};

use crate::fixed::{FixedReply, Room};
use crate::replies::{Manner, Message, OwnLine, Response, message_of};
use crate::resource::{Resource, resource_of};
use crate::service::Service;
use crate::submission::{Submission, SubmitFault};
use command::fault_line;
use http_read::{Method, Request};
use itoa::Buffer;
use release::{Answer, AnswerFault};
use site_ids::Ticket;
use std::alloc::{AllocError, Global};

/// The text, and a line feed after it.
fn line_of(alloc: Global, text: &str) -> Result<Vec<u8>, AllocError>
    ensures { IfOk result (λ bytes. bytes.items ≡ line text.now) }
{
    Ok(format!(in alloc; "{text}\n")?.into_bytes())
}

/// A plain response.
fn plain(alloc: Global, manner: Manner, status: u16, text: &str) -> Result<Message, AllocError>
    ensures { IfOk result (λ message. written_in message ≡ write_as manner (plain_reply status text.now)) }
{
    let body = line_of(alloc, text)?;
    message_of(
        alloc,
        manner,
        &Response {
            status,
            is_page: false,
            own: OwnLine::Absent,
            body,
        },
    )
}

/// The response if another method has to be used.
fn wrong_method(alloc: Global, manner: Manner, methods: &'static str) -> Result<Message, AllocError>
    ensures { IfOk result (λ message. written_in message ≡ write_as manner (wrong_reply methods.now)) }
{
    let body = line_of(alloc, "method not allowed")?;
    message_of(
        alloc,
        manner,
        &Response {
            status: 405,
            is_page: false,
            own: OwnLine::Allow(methods),
            body,
        },
    )
}

/// The response to a request that was refused as it was read. No connection stays after it.
pub(crate) fn refused(alloc: Global, to_head: bool, status: u16) -> Result<Message, AllocError>
    ensures { IfOk result (λ message. written_in message ≡ write_as (closing to_head) (refusal status)) }
{
    let text = match status {
        413 => "too large",
        414 => "uri too long",
        431 => "head too large",
        501 => "not implemented",
        _ => "bad request",
    };
    let manner = Manner {
        to_head,
        keep: false,
    };
    plain(alloc, manner, status, text)
}

/// A number as a plain response.
fn number(alloc: Global, manner: Manner, n: u64) -> Result<Message, AllocError>
    ensures { IfOk result (λ message. written_in message ≡ write_as manner (plain_reply 200 (decimal n))) }
{
    let mut buffer = Buffer::new();
    plain(alloc, manner, 200, buffer.format(n))
}

/// The receipt of a ticket.
fn receipt<S: Service>(
    alloc: Global,
    manner: Manner,
    service: &S,
    ticket: Ticket,
) -> Result<Message, AllocError>
    ensures { IfOk result (λ message. written_in message
        ≡ write_as manner (receipt_reply (S.offered.receipt_is service.now ticket))) }
{
    match service.receipt(ticket) {
        Some(instance) => number(alloc, manner, instance.number() as u64),
        None => plain(alloc, manner, 404, "unknown"),
    }
}

/// The line of a page that moved.
fn moved_line(location: Option<String>) -> OwnLine
    ensures { line_shown result ≡ moved_reply (option_map string_bytes location) }
{
    match location {
        None => OwnLine::Absent,
        Some(path) => OwnLine::Location(path),
    }
}

/// The page of a release.
fn page<S: Service>(
    alloc: Global,
    manner: Manner,
    service: &S,
    n: u64,
    path: &str,
) -> Result<Message, AllocError>
    ensures { IfOk result (λ message. written_in message
        ≡ write_as manner (page_reply (S.offered.page_is service.now n path.now))) }
{
    match service.answer(alloc, n, path) {
        Ok(
            Answer {
                status,
                body,
                location,
            },
        ) => {
            let body = body.into_bytes();
            let own = moved_line(location);
            message_of(
                alloc,
                manner,
                &Response {
                    status,
                    is_page: status == 200,
                    own,
                    body,
                },
            )
        }
        Err(AnswerFault::NoSuchRelease) => plain(alloc, manner, 404, "no release"),
        Err(AnswerFault::OutOfMemory) => Err(AllocError),
    }
}

/// The response to GET, or to HEAD.
fn shown<S: Service>(
    alloc: Global,
    manner: Manner,
    service: &S,
    path: &str,
    resource: Resource<'_>,
) -> Result<Message, AllocError>
    ensures { IfOk result (λ message. written_in message
        ≡ write_as manner (asked_reply S.offered service.now path.now (resource_shown resource.entry))) }
{
    match resource {
        Resource::Submission(_) => wrong_method(alloc, manner, "POST"),
        Resource::Receipt(ticket) => receipt(alloc, manner, service, ticket),
        Resource::Newest => number(alloc, manner, service.newest()),
        Resource::Release { n, rest } => page(alloc, manner, service, n, rest),
        Resource::Unknown => plain(alloc, manner, 404, "not found"),
        Resource::Page => match service.newest() {
            0 => plain(alloc, manner, 404, "no release"),
            newest => page(alloc, manner, service, newest, path),
        },
    }
}

/// Submits, and returns the response. Room for it is made first, except for a fault's line: that is made when
/// nothing was accepted.
fn submitted<S: Service>(
    alloc: Global,
    keep: bool,
    service: &mut S,
    ticket: Ticket,
    text: &[u8],
) -> Result<Message, AllocError>
    ensures answered { IfOk result (λ message. (done : Outcome) × (reply : Reply)
        × Submits S.offered service.old ticket text.now done service.new
        × (outcome_reply done ≡ Some reply) × (written_in message ≡ write_as (whole keep) reply)) }
    ensures refused { OnErr result ((service.new ≡ service.old)
        ⊎ RefusesPost S.offered service.old text.now (submission ticket) service.new) }
{
    let room = Room::new(alloc)?;
    match service.submit(alloc, ticket, text) {
        Ok(Submission::Queued) => Ok(room.hold(FixedReply::Queued, keep)),
        Ok(Submission::Already) => Ok(room.hold(FixedReply::Already, keep)),
        Err(SubmitFault::Busy) => Ok(room.hold(FixedReply::Busy, keep)),
        Err(SubmitFault::Stopped) => Ok(room.hold(FixedReply::Stopped, keep)),
        Err(SubmitFault::Command(fault)) => {
            let line = fault_line(alloc, &fault)?;
            let manner = Manner {
                to_head: false,
                keep,
            };
            plain(alloc, manner, 422, line.as_str())
        }
        Err(SubmitFault::OutOfMemory) => Err(AllocError),
    }
}

/// The response to POST.
fn posted<S: Service>(
    alloc: Global,
    keep: bool,
    service: &mut S,
    body: &[u8],
    resource: Resource<'_>,
) -> Result<Message, AllocError>
    ensures answered { IfOk result (λ message. (reply : Reply)
        × RepliesToPost S.offered service.old body.now (resource_shown resource.entry) service.new reply
        × (written_in message ≡ write_as (whole keep) reply)) }
    ensures refused { OnErr result ((service.new ≡ service.old)
        ⊎ RefusesPost S.offered service.old body.now (resource_shown resource.entry) service.new) }
{
    let manner = Manner {
        to_head: false,
        keep,
    };
    match resource {
        Resource::Submission(ticket) => submitted(alloc, keep, service, ticket, body),
        Resource::Unknown => plain(alloc, manner, 404, "not found"),
        Resource::Receipt(_)
        | Resource::Newest
        | Resource::Release { n: _, rest: _ }
        | Resource::Page => { wrong_method(alloc, manner, "GET, HEAD") }
    }
}

/// The response to a request, after which the connection may be kept or not.
pub(crate) fn respond<S: Service>(
    alloc: Global,
    keep: bool,
    request: &Request,
    service: &mut S,
) -> Result<Message, AllocError>
    ensures answered { IfOk result (λ message. (reply : Reply) × (message.stays ≡ stays_behind keep reply)
        × IsResponse S.offered service.old
        (request_of request.now) service.new reply message.stays message.bytes.items) }
    ensures refused { OnErr result ((service.new ≡ service.old)
        ⊎ Refuses S.offered service.old (request_of request.now) service.new) }
{
    let path = request.path.as_str();
    let resource = resource_of(path);
    match request.method {
        Method::Get => shown(
            alloc,
            Manner {
                to_head: false,
                keep,
            },
            service,
            path,
            resource,
        ),
        Method::Head => shown(
            alloc,
            Manner {
                to_head: true,
                keep,
            },
            service,
            path,
            resource,
        ),
        Method::Post => posted(alloc, keep, service, request.body.as_slice(), resource),
    }
}
