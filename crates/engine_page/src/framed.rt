//! Framed commands: a line of three numbers, and the command text.
ghost use Rattle.std.specs.Prelude.{◌≡◌, ◌++◌, IfOk, MatchOption, string_bytes};
ghost use Rattle.engine_page.specs.Framed.{frame, Fits, HasNoFrame};
ghost use Rattle.engine_page.specs.Words.{Words, HasWords};
ghost use Rattle.engine_page.specs.View.{line_view, framed_view};

use engine_common::{MAX_TEXT, cut, read_number};
use site_ids::Ticket;
use std::alloc::{AllocError, Global};

#[derive(Clone, Copy)]
pub(crate) struct Line<'a> {
    pub editor: &'a [u8],
    pub number: &'a [u8],
    pub length_word: &'a [u8],
    pub after: &'a [u8],
}

/// The command at the front, and the bytes after it.
#[derive(Clone, Copy)]
pub(crate) struct Framed<'a> {
    pub ticket: Ticket,
    pub text: &'a [u8],
    pub rest: &'a [u8],
}

fn line_of(bytes: &[u8]) -> Option<Line<'_>>
    ensures { MatchOption result ((w : Words) → ¬ HasWords bytes.now w)
        (λ l. HasWords bytes.now (line_view l)) }
{
    let (line, after) = cut(bytes, b'\n')?;
    let (editor, others) = cut(line, b' ')?;
    let (number, length_word) = cut(others, b' ')?;
    Some(Line {
        editor,
        number,
        length_word,
        after,
    })
}

/// The command at the front of the bytes.
pub(crate) fn next(bytes: &[u8]) -> Option<Framed<'_>>
    ensures { MatchOption result (HasNoFrame bytes.now)
        (λ f. (bytes.now ≡ frame (framed_view f) ++ f.rest.now) × Fits (framed_view f)) }
{
    let line = line_of(bytes)?;
    let editor = u32::try_from(read_number(line.editor)?).ok()?;
    let number = read_number(line.number)?;
    let text_len = read_number(line.length_word)?;
    if text_len > MAX_TEXT {
        return None;
    }
    let (text, rest) = line.after.split_at_checked(text_len as usize)?;
    let ticket = Ticket { editor, number };
    Some(Framed { ticket, text, rest })
}

/// A command's text in its frame.
pub fn frame_of(alloc: Global, ticket: Ticket, text: &str) -> Result<String, AllocError>
    ensures { IfOk result (λ f. string_bytes f ≡ frame (record { ticket = ticket; text = text.now })) }
{
    let (editor, number, length) = (ticket.editor, ticket.number, text.len());
    format!(in alloc; "{editor} {number} {length}\n{text}")
}
