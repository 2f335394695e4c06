//! A piece keeps an inside only if it is a name.

ghost use Rattle.std.specs.Prelude.{◌≡◌, ◌≢◌, ◌<◌, length, option_map, IfSome, IfOk, IfErr, Ok, Err};
ghost use Rattle.std.specs.Str.{IsUtf8};
ghost use Rattle.mustache_scan.specs.Cutting.{cut};
ghost use Rattle.mustache_scan.specs.Progress.{checked};
ghost use Rattle.mustache_scan.specs.View.{tag_view};
ghost use Rattle.mustache_scan.specs.Reading.{kind_of_sign, wrong_inside, name_of, opened_as, tag_in};
ghost use Rattle.mustache_scan.specs.Reading.{tag_after};
ghost use Rattle.mustache_scan.specs.declared.fault.FaultKind.TheVariants.{OutOfMemory};

use crate::cuts::cut;
use crate::delimiters::{Delimiters, delimiters_in};
use crate::names::wrong_name;
use crate::padding::{stripped, unpadded};
use crate::{FaultKind, TokenKind};

/// A tag: its kind, what is inside it, and the text after it.
#[derive(Clone, Copy)]
pub(crate) struct Tag<'a> {
    pub(crate) kind: TokenKind,
    pub(crate) inside: &'a str,
    pub(crate) rest: &'a str,
}

/// The kind that a sign means.
fn kind_of_sign(byte: u8) -> Option<TokenKind>
    ensures { result ≡ kind_of_sign byte }
{
    match byte {
        b'{' | b'&' => Some(TokenKind::Raw),
        b'#' => Some(TokenKind::Section),
        b'^' => Some(TokenKind::Inverted),
        b'/' => Some(TokenKind::End),
        b'!' => Some(TokenKind::Comment),
        b'>' => Some(TokenKind::Partial),
        b'=' => Some(TokenKind::Delimiters),
        _ => None,
    }
}

/// The tag of this kind that ends at the first place of `end`.
fn ended_by<'a>(kind: TokenKind, text: &'a str, end: &str) -> Option<Tag<'a>>
    requires { 0 < length end.now }
    ensures value { option_map tag_view result ≡ opened_as kind (cut end.now text.now) }
    ensures rest { IfSome result (λ tag. IsUtf8 tag.rest.now) }
{
    let (inside, rest) = cut(text, end)?;
    Some(Tag { kind, inside, rest })
}

/// The tag in a text that begins with its sign or its name.
fn tag_in<'a>(delimiters: &Delimiters<'_>, text: &'a str) -> Option<Tag<'a>>
    ensures value { option_map tag_view result ≡ tag_in delimiters.now.closing.now text.now }
    ensures rest { IfSome result (λ tag. IsUtf8 tag.rest.now) }
{
    match text.as_bytes() {
        [] => None,
        [first, ..] => match kind_of_sign(*first) {
            Some(kind) => ended_by(kind, &text[1..], delimiters.end_after(*first)),
            None => ended_by(TokenKind::Variable, text, delimiters.closing),
        },
    }
}

/// What is wrong with the inside of a tag of this kind.
fn wrong_inside(kind: TokenKind, inside: &str) -> Option<FaultKind>
    ensures value { result ≡ wrong_inside kind inside.now }
    ensures told { IfSome result (λ wrong. wrong ≢ OutOfMemory) }
{
    match kind {
        TokenKind::Literal | TokenKind::Comment => None,
        TokenKind::Delimiters if delimiters_in(inside).is_some() => None,
        TokenKind::Delimiters => Some(FaultKind::BadDelimiters),
        TokenKind::Partial => wrong_name(false, inside),
        _ => wrong_name(true, inside),
    }
}

/// The tag whose opening delimiter is just before the text, without the padding around its inside.
pub(crate) fn tag_after<'a>(
    delimiters: &Delimiters<'_>,
    after: &'a str,
) -> Result<Tag<'a>, FaultKind>
    ensures ok { IfOk result (λ tag. checked (tag_after delimiters.now.closing.now after.now)
        ≡ Ok (tag_view tag)) }
    ensures rest { IfOk result (λ tag. IsUtf8 tag.rest.now) }
    ensures err { IfErr result (λ wrong. checked (tag_after delimiters.now.closing.now after.now)
        ≡ Err wrong) }
    ensures told { IfErr result (λ wrong. wrong ≢ OutOfMemory) }
{
    let Some(tag) = tag_in(delimiters, unpadded(after)) else {
        return Err(FaultKind::UnclosedTag);
    };
    let inside = stripped(tag.inside);
    match wrong_inside(tag.kind, inside) {
        Some(wrong) => Err(wrong),
        None => Ok(Tag { inside, ..tag }),
    }
}

/// The name of a tag, if it has one.
pub(crate) fn name_of<'a>(kind: TokenKind, inside: &'a str) -> &'a str
    ensures { result.now ≡ name_of kind inside.now }
{
    match kind {
        TokenKind::Comment | TokenKind::Delimiters => "",
        _ => inside,
    }
}
