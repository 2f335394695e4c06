//! Reads a head and tests it.
ghost use Rattle.std.specs.Prelude.{◌≡◌, IfOk, OnErr};
ghost use Rattle.http_read.specs.Opened.{ShowsHead};

use crate::body::Body;
use crate::heads::{Found, find_head, first_bytes};
use crate::inbox::Inbox;
use crate::judging::{Judged, asks_for_head, judge};
use crate::progress::Begun;
use httparse::spans::HeaderSpan;
use std::alloc::{AllocError, Global};

/// What came of a head.
#[derive(Drop)]
pub(crate) enum Opened {
    /// More bytes are needed.
    Open,
    /// A head that passes its tests, and nothing of the body.
    Head(Begun),
    /// A refusal: its status, and whether it is of a whole head whose method is HEAD.
    Refused(u16, bool),
}

/// Reads a head and consumes it.
pub(crate) fn open_head(
    alloc: Global,
    inbox: &mut Inbox,
    spans: &mut Vec<HeaderSpan>,
) -> Result<Opened, AllocError>
    ensures head { IfOk result (λ opened. ShowsHead opened inbox.old inbox.new) }
    ensures kept { OnErr result (inbox.new ≡ inbox.old) }
{
    let bytes = first_bytes(inbox.held());
    let found = match find_head(inbox.held(), spans)? {
        Found::At(found) => found,
        Found::Refused(status) => return Ok(Opened::Refused(status, false)),
        Found::Wanted => return Ok(Opened::Open),
    };
    let of_head = asks_for_head(bytes, spans, found);
    match judge(alloc, bytes, spans, found)? {
        Judged::Asks(passed, path) => {
            let body = Body::new(alloc, passed.cut)?;
            inbox.pass(found.len);
            Ok(Opened::Head(Begun {
                passed,
                path,
                of_head,
                body,
            }))
        }
        Judged::Refused(status) => Ok(Opened::Refused(status, of_head)),
    }
}
