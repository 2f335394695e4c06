//! Reads the line break after a chunk (RFC 9112, section 7.1).
ghost use Rattle.http_read.specs.BodySteps.{ShowsBreak};

use crate::inbox::Inbox;

/// What is at the front.
#[derive(Clone, Copy)]
pub(crate) enum BreakRead {
    /// More bytes are needed.
    Open,
    /// Two other bytes.
    Wrong,
    /// A line break was there.
    Passed,
}

/// Reads a line break and consumes it.
pub(crate) fn pass_break(inbox: &mut Inbox) -> BreakRead
    ensures { ShowsBreak result inbox.old inbox.new }
{
    let held = inbox.held();
    if held.len() < 2 {
        return BreakRead::Open;
    }
    if held[0] == b'\r' && held[1] == b'\n' {
        inbox.pass(2);
        BreakRead::Passed
    } else {
        BreakRead::Wrong
    }
}
