//! The bytes of a response.
//!
//! A page's status is printed as it comes; unknown ones have an empty reason.

ghost use Rattle.std.specs.Prelude.{◌≡◌, ◌≤◌, ◌&&◌, not, length, [], IfOk, string_bytes};
ghost use Rattle.http_serve.specs.Shown.{line_of, reply_of, written_in, write_as};
ghost use Rattle.http_serve.specs.Replies.{line_before, reply_head, reason, media_type, closes as is_closing};
ghost use Rattle.http_serve.specs.Replies.{head_end};

use http_read::ESCAPED;
use percent_encoding::utf8_percent_encode;
use std::alloc::{AllocError, Global};

/// A line of the head that only some responses have.
#[derive(Drop)]
pub(crate) enum OwnLine {
    Absent,
    /// The path that a page moved to.
    Location(String),
    /// The methods that are allowed, if another was used.
    Allow(&'static str),
}

/// A response before it is written.
#[derive(Drop)]
pub(crate) struct Response {
    pub status: u16,
    /// Whether the body is a page.
    pub is_page: bool,
    pub own: OwnLine,
    pub body: Vec<u8>,
}

/// How a response is given.
#[derive(Clone, Copy)]
pub(crate) struct Manner {
    /// Only its head is sent, as the method is HEAD.
    pub to_head: bool,
    /// The connection may be kept.
    pub keep: bool,
}

/// A response as it is written.
#[derive(Drop)]
pub(crate) struct Message {
    pub bytes: Vec<u8>,
    /// Whether the connection stays after it.
    pub stays: bool,
}

/// The reason phrase of a status; a status without one has none.
#[tactic(auto, unfolding(crate::specs::Replies::reason))]
fn reason_of(status: u16) -> &'static str
    ensures { result.now ≡ reason status }
{
    match status {
        200 => "OK",
        202 => "Accepted",
        301 => "Moved Permanently",
        400 => "Bad Request",
        404 => "Not Found",
        405 => "Method Not Allowed",
        413 => "Content Too Large",
        414 => "URI Too Long",
        422 => "Unprocessable Content",
        431 => "Request Header Fields Too Large",
        500 => "Internal Server Error",
        501 => "Not Implemented",
        503 => "Service Unavailable",
        _ => "",
    }
}

/// The media type of a page, or of a plain text.
fn media_of(is_page: bool) -> &'static str
    ensures { result.now ≡ media_type is_page }
{
    if is_page {
        "text/html; charset=utf-8"
    } else {
        "text/plain; charset=utf-8"
    }
}

/// Whether a connection is closed after a response of this status.
fn closes(status: u16) -> bool
    ensures { result ≡ is_closing status }
{
    status == 400 || status == 413 || status == 414 || status == 431 || status == 501
}

/// Whether a connection stays after a response of this status.
fn stays_behind(keep: bool, status: u16) -> bool
    ensures { result ≡ (keep && not (is_closing status)) }
{
    keep && !closes(status)
}

/// The end of a head.
pub(crate) fn end_of_head(stays: bool) -> &'static str
    ensures value { result.now ≡ head_end stays }
    ensures few { length result.now ≤ 23 }
{
    if stays {
        "\r\n\r\n"
    } else {
        "\r\nConnection: close\r\n\r\n"
    }
}

/// The line that only some responses have, with its end.
fn own_line(alloc: Global, own: &OwnLine) -> Result<String, AllocError>
    ensures { IfOk result (λ line. string_bytes line ≡ line_before (line_of own.now) []) }
{
    match own {
        OwnLine::Absent => Ok(String::new(alloc)),
        OwnLine::Location(path) => {
            let path = utf8_percent_encode(path.as_str(), ESCAPED);
            format!(in alloc; "Location: {path}\r\n")
        }
        OwnLine::Allow(methods) => format!(in alloc; "Allow: {methods}\r\n"),
    }
}

/// The head of a response.
fn head_of(alloc: Global, stays: bool, response: &Response) -> Result<String, AllocError>
    ensures { IfOk result (λ text. string_bytes text ≡ reply_head stays (reply_of response.now)) }
{
    let own = own_line(alloc, &response.own)?;
    let status = response.status;
    let reason = reason_of(status);
    let media = media_of(response.is_page);
    let size = response.body.len();
    let end = end_of_head(stays);
    format!(in alloc;
        "HTTP/1.1 {status} {reason}\r\nContent-Type: {media}\r\n{own}Content-Length: {size}{end}"
    )
}

/// The whole response, or only its head if the request is HEAD.
pub(crate) fn message_of(
    alloc: Global,
    manner: Manner,
    response: &Response,
) -> Result<Message, AllocError>
    ensures { IfOk result (λ message. written_in message ≡ write_as manner (reply_of response.now)) }
{
    let stays = stays_behind(manner.keep, response.status);
    let mut bytes = head_of(alloc, stays, response)?.into_bytes();
    if !manner.to_head {
        bytes.extend_from_slice(response.body.as_slice())?;
    }
    Ok(Message { bytes, stays })
}
