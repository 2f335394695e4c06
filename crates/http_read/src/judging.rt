//! What a whole head asks for.
ghost use Rattle.std.specs.Prelude.{◌≡◌, take, IfOk};
ghost use Rattle.httparse.specs.Grammar.{RequestHead};
ghost use Rattle.httparse.specs.Spans.{IsRequestWithin, IsRequestAt};
ghost use Rattle.http_read.specs.Framings.{Judges};
ghost use Rattle.http_read.specs.Requests.{is_head};
ghost use Rattle.http_read.specs.Spans.{LieIn};

use crate::checks::{Passed, pass};
use crate::targets::target_path;
use httparse::spans::{HeaderSpan, RequestSpans};
use std::alloc::{AllocError, Global};

/// What is known before the body is read.
#[derive(Drop)]
pub(crate) enum Judged {
    /// A request: its method and framing, and the path.
    Asks(Passed, String),
    /// A refusal: its status.
    Refused(u16),
}

/// Whether the head's method is HEAD.
pub(crate) fn asks_for_head(bytes: &[u8], spans: &[HeaderSpan], found: RequestSpans) -> bool
    requires { IsRequestWithin bytes.now spans.now found }
    ensures { (head : RequestHead) → IsRequestAt bytes.now spans.now found head → result ≡ is_head head }
{
    found.method.of(bytes) == b"HEAD".as_slice()
}

/// The spans of the head's fields.
fn fields_of<'s>(bytes: &[u8], spans: &'s [HeaderSpan], found: RequestSpans) -> &'s [HeaderSpan]
    requires { IsRequestWithin bytes.now spans.now found }
    ensures fields { result.now ≡ take found.headers spans.now }
    ensures within { LieIn bytes.now result.now }
{
    &spans[..found.headers]
}

/// Tests the head, and reads its target.
pub(crate) fn judge(
    alloc: Global,
    bytes: &[u8],
    spans: &[HeaderSpan],
    found: RequestSpans,
) -> Result<Judged, AllocError>
    requires { IsRequestWithin bytes.now spans.now found }
    ensures { IfOk result (λ judged. (head : RequestHead) → IsRequestAt bytes.now spans.now found head
        → Judges head judged) }
{
    let fields = fields_of(bytes, spans, found);
    match pass(found.version, found.method.of(bytes), bytes, fields) {
        Err(status) => Ok(Judged::Refused(status)),
        Ok(passed) => match target_path(alloc, found.path.of(bytes))? {
            Some(path) => Ok(Judged::Asks(passed, path)),
            None => Ok(Judged::Refused(400)),
        },
    }
}
