//! An answer at the front of what was read.
ghost use Rattle.std.specs.Prelude.{IfOk};
ghost use Rattle.editor_http.specs.Answers.{Sees};

use crate::fields::stated_length;
use crate::node_answer::NodeAnswer;
use httparse::Status;
use httparse::spans::{EMPTY_HEADER_SPAN, parse_response};
use std::alloc::{AllocError, Global};

/// The most field lines of an answer. A node sends at most five, a proxy before it some more.
pub(crate) const FIELDS: usize = 32;

/// The most bytes of a body. A node's page costs 1,000,000 at most.
pub(crate) const MAX_BODY: u64 = 2_000_000;

/// What the bytes so far say of an answer.
#[derive(Drop)]
pub(crate) enum Look {
    /// A whole answer, and how many bytes it is.
    Whole(NodeAnswer, usize),
    /// More bytes are needed.
    Open,
    /// This is not an answer of a node.
    Never,
}

/// Looks for an answer at the front.
pub(crate) fn seen_in(alloc: Global, held: &[u8]) -> Result<Look, AllocError>
    ensures { IfOk result (Sees held.now) }
{
    let mut spans = [EMPTY_HEADER_SPAN; FIELDS];
    let head = match parse_response(held, &mut spans) {
        Ok(Status::Complete(head)) => head,
        Ok(Status::Partial) => return Ok(Look::Open),
        Err(_) => return Ok(Look::Never),
    };
    let Some(stated) = stated_length(held, &spans[..head.headers]) else {
        return Ok(Look::Never);
    };
    if stated > MAX_BODY {
        return Ok(Look::Never);
    }
    let length = stated as usize;
    let behind = &held[head.len..];
    if length > behind.len() {
        return Ok(Look::Open);
    }
    let answer = NodeAnswer {
        status: head.code,
        body: Vec::from_slice(alloc, &behind[..length])?,
    };
    Ok(Look::Whole(answer, head.len + length))
}
