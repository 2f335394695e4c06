//! Takes a number of bytes of what is held.
ghost use Rattle.std.specs.Prelude.{◌≡◌, [], ◌<◌, IfOk, OnErr};
ghost use Rattle.http_read.specs.Taken.{TakesHeld};

use crate::inbox::Inbox;
use std::alloc::AllocError;

/// Adds to the body what is held of this many bytes, and consumes it. Returns how many bytes are still
/// missing.
pub(crate) fn take_held(
    inbox: &mut Inbox,
    n: usize,
    body: &mut Vec<u8>,
) -> Result<usize, AllocError>
    ensures taken { IfOk result (TakesHeld n inbox.old inbox.new body.old.items body.new.items) }
    ensures all { IfOk result (λ missing. 0 < missing → inbox.new ≡ []) }
    ensures kept { OnErr result ((inbox.new ≡ inbox.old) × (body.new.items ≡ body.old.items)) }
{
    let held = inbox.held();
    let len = n.min(held.len());
    body.extend_from_slice(&held[..len])?;
    inbox.pass(len);
    Ok(n - len)
}
