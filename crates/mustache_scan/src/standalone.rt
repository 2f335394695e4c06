//! The scanner marks standalone tags, as the blanks before a tag do not show them.

ghost use Rattle.std.specs.Prelude.{◌≡◌, ◌+◌, ◌≤◌, IfSome, length, take, drop};
ghost use Rattle.std.specs.List.{prefix_len, suffix_len};
ghost use Rattle.mustache_scan.specs.Cutting.{is_blank};
ghost use Rattle.mustache_scan.specs.Progress.{standalone_of};
ghost use Rattle.mustache_scan.specs.Standalone.{line_end, standalone_lines, may_be_standalone};

use crate::TokenKind;

fn is_blank(byte: u8) -> bool
    ensures { result ≡ is_blank byte }
{
    byte == b' ' || byte == b'\t'
}

fn leading_blanks(bytes: &[u8]) -> usize
    ensures { result ≡ prefix_len is_blank bytes.now }
{
    bytes.iter().take_while(|b| is_blank(**b)).count()
}

fn trailing_blanks(bytes: &[u8]) -> usize
    ensures { result ≡ suffix_len is_blank bytes.now }
{
    bytes.iter().rev().take_while(|b| is_blank(**b)).count()
}

/// The length of the line end at the front of a text, if there is one.
fn line_end(bytes: &[u8]) -> Option<usize>
    ensures value { result ≡ line_end bytes.now }
    ensures within { IfSome result (λ n. n ≤ length bytes.now) }
{
    match bytes {
        [] => Some(0),
        [b'\n', ..] => Some(1),
        [b'\r', b'\n', ..] => Some(2),
        _ => None,
    }
}

/// The place at which the blanks before a place begin.
fn blanks_start(text: &[u8], place: usize) -> usize
    requires { place ≤ length text.now }
    ensures { result + suffix_len is_blank (take place text.now) ≡ place }
{
    place - trailing_blanks(&text[..place])
}

/// The place past the blanks after a place.
fn blanks_end(text: &[u8], place: usize) -> usize
    requires { place ≤ length text.now }
    ensures value { result ≡ place + prefix_len is_blank (drop place text.now) }
    ensures within { result ≤ length text.now }
{
    place + leading_blanks(&text[place..])
}

/// The lines of a standalone tag, by the place of its first byte and the place after its last.
fn standalone_lines(text: &[u8], first: usize, past: usize) -> Option<(usize, usize)>
    requires order { first ≤ past }
    requires within { past ≤ length text.now }
    ensures { result ≡ standalone_lines text.now first past }
{
    let start = blanks_start(text, first);
    if start > 0 && text[start - 1] != b'\n' {
        return None;
    }
    let end = blanks_end(text, past);
    let len = line_end(&text[end..])?;
    Some((start, end + len))
}

fn may_be_standalone(kind: TokenKind) -> bool
    ensures { result ≡ may_be_standalone kind }
{
    !matches!(
        kind,
        TokenKind::Literal | TokenKind::Variable | TokenKind::Raw
    )
}

/// The lines that a tag takes of its text, if it is standalone.
pub(crate) fn lines_of(
    text: &[u8],
    kind: TokenKind,
    first: usize,
    past: usize,
) -> Option<(usize, usize)>
    requires order { first ≤ past }
    requires within { past ≤ length text.now }
    ensures { result ≡ standalone_of text.now kind first past }
{
    if may_be_standalone(kind) {
        standalone_lines(text, first, past)
    } else {
        None
    }
}
