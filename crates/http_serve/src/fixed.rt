//! Responses to submissions that are known in advance. Room for any of them is made first, so that none fails
//! after a submission that was accepted.

ghost use Rattle.std.specs.Prelude.{◌≡◌, ◌≤◌, ◌++◌, Bool, [], length, vec_capacity};
ghost use Rattle.http_serve.specs.declared.fixed.TheConstants.{LONGEST};
ghost use Rattle.http_serve.specs.Fixed.{fixed_reply};
ghost use Rattle.http_serve.specs.Replies.{reply_head, head_end};
ghost use Rattle.http_serve.specs.Shown.{whole, written_in, write_as};

use crate::replies::{Message, end_of_head};
use std::alloc::{AllocError, Global};

/// How many bytes the longest has: its head without an end, the end, and the body.
const LONGEST: usize = 92 + 23 + 8;

/// The answer to a submission, except for a fault's line.
#[derive(Clone, Copy, Drop)]
pub(crate) enum FixedReply {
    Queued,
    Already,
    Busy,
    Stopped,
}

/// Room for any of them.
#[derive(Drop)]
pub(crate) struct Room {
    bytes: Vec<u8>,
    ghost empty: { bytes.items ≡ [] },
    ghost long: { LONGEST ≤ vec_capacity bytes },
}

impl Room {
    pub(crate) fn new(alloc: Global) -> Result<Room, AllocError> {
        let bytes = Vec::with_capacity(alloc, LONGEST)?;
        Ok(Room { bytes })
    }

    /// The whole response, for a connection that may be kept or not. It does not allocate.
    pub(crate) fn hold(self, reply: FixedReply, keep: bool) -> Message
        ensures { written_in result ≡ write_as (whole keep) (fixed_reply reply) }
    {
        let mut bytes = self.bytes;
        let _ = bytes.extend_from_slice(reply.head().as_bytes());
        let _ = bytes.extend_from_slice(end_of_head(keep).as_bytes());
        let _ = bytes.extend_from_slice(reply.body().as_bytes());
        Message { bytes, stays: keep }
    }
}

impl FixedReply {
    /// The head, except for what ends it.
    fn head(self) -> &'static str
        ensures value { (stays : Bool) → result.now ++ head_end stays ≡ reply_head stays (fixed_reply self) }
        ensures few { length result.now ≤ 92 }
    {
        match self {
            FixedReply::Queued => {
                "HTTP/1.1 202 Accepted\r\nContent-Type: text/plain; charset=utf-8\r\nContent-Length: 7"
            }
            FixedReply::Already => {
                "HTTP/1.1 200 OK\r\nContent-Type: text/plain; charset=utf-8\r\nContent-Length: 8"
            }
            FixedReply::Busy => {
                "HTTP/1.1 503 Service Unavailable\r\n\
                 Content-Type: text/plain; charset=utf-8\r\n\
                 Content-Length: 5"
            }
            FixedReply::Stopped => {
                "HTTP/1.1 503 Service Unavailable\r\n\
                 Content-Type: text/plain; charset=utf-8\r\n\
                 Content-Length: 8"
            }
        }
    }

    fn body(self) -> &'static str
        ensures value { result.now ≡ (fixed_reply self).body }
        ensures few { length result.now ≤ 8 }
    {
        match self {
            FixedReply::Queued => "queued\n",
            FixedReply::Already => "already\n",
            FixedReply::Busy => "busy\n",
            FixedReply::Stopped => "stopped\n",
        }
    }
}
