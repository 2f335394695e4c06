//! Reads the line before a chunk.
ghost use Rattle.std.specs.Prelude.{◌≡◌, length, MatchOption};
ghost use Rattle.http_read.specs.Bodies.{IsFirstLine};
ghost use Rattle.httparse.specs.Grammar.{ChunkLine, IsChunkLine, print_chunk_line};
ghost use Rattle.http_read.specs.Lines.{ShowsLine, IsLineOf};

use crate::inbox::Inbox;
use crate::lines::{LINE_LIMIT, line_len};
use httparse::{Status, parse_chunk_size};

/// What is at the front.
#[derive(Clone, Copy)]
pub(crate) enum LineRead {
    /// More bytes are needed.
    Open,
    /// What is there is not a chunk line.
    Wrong,
    /// A chunk line, which states this size.
    Size(u64),
}

/// The size on a line, if it is a chunk line.
fn size_on(line: &[u8]) -> Option<u64>
    requires { IsFirstLine line.now (length line.now) }
    ensures { MatchOption result ((l : ChunkLine) → IsChunkLine l → ¬ (line.now ≡ print_chunk_line l))
        (IsLineOf line.now) }
{
    match parse_chunk_size(line) {
        Ok(Status::Complete((_, size))) => Some(size),
        Ok(Status::Partial) => None,
        Err(_) => None,
    }
}

/// Reads a chunk line and consumes it.
pub(crate) fn chunk_line(inbox: &mut Inbox) -> LineRead
    ensures { ShowsLine result inbox.old inbox.new }
{
    let held = inbox.held();
    let Some(len) = line_len(held) else {
        return if held.len() < LINE_LIMIT {
            LineRead::Open
        } else {
            LineRead::Wrong
        };
    };
    match size_on(&held[..len]) {
        Some(size) => {
            inbox.pass(len);
            LineRead::Size(size)
        }
        None => LineRead::Wrong,
    }
}
