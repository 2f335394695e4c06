//! The end of a raw or delimiter tag is one text to search for. To search for the closing delimiter and look
//! at the byte before it goes wrong on `{{{n}}}}`.

ghost use Rattle.std.specs.Prelude.{◌≡◌, ◌==◌, ◌||◌, ◌++◌, ◌∷◌, true, not, IfOk, option_map, string_bytes};
ghost use Rattle.std.specs.List.{list_any, position_or_len};
ghost use Rattle.mustache_scan.specs.Cutting.{is_padding};
ghost use Rattle.mustache_scan.specs.Names.{is_sequence, delimiters_in};
ghost use Rattle.mustache_scan.specs.Reading.{partner};

use crate::padding::{is_padding, unpadded};
use std::alloc::{AllocError, Global};

/// What opens a tag and what closes it, and the ends of the tags that need a sign before the closing
/// delimiter.
#[derive(Drop)]
pub(crate) struct Delimiters<'a> {
    pub(crate) opening: &'a str,
    pub(crate) closing: &'a str,
    raw_end: String,
    change_end: String,
    ghost opens: { is_sequence opening.now ≡ true },
    ghost closes: { is_sequence closing.now ≡ true },
    ghost raw_ends: { string_bytes raw_end ≡ 125 ∷ closing.now },
    ghost change_ends: { string_bytes change_end ≡ 61 ∷ closing.now },
}

fn signed_end(alloc: Global, sign: &str, closing: &str) -> Result<String, AllocError>
    ensures { IfOk result (λ s. string_bytes s ≡ sign.now ++ closing.now) }
{
    let mut end = String::from_str(alloc, sign)?;
    end.push_str(closing)?;
    Ok(end)
}

impl<'a> Delimiters<'a> {
    pub(crate) fn new(
        alloc: Global,
        opening: &'a str,
        closing: &'a str,
    ) -> Result<Delimiters<'a>, AllocError>
        requires opens { is_sequence opening.now ≡ true }
        requires closes { is_sequence closing.now ≡ true }
        ensures opening { IfOk result (λ d. d.opening.now ≡ opening.now) }
        ensures closing { IfOk result (λ d. d.closing.now ≡ closing.now) }
    {
        let raw_end = signed_end(alloc, "}", closing)?;
        let change_end = signed_end(alloc, "=", closing)?;
        Ok(Delimiters {
            opening,
            closing,
            raw_end,
            change_end,
        })
    }

    /// What ends a tag that begins with this sign.
    pub(crate) fn end_after(&self, sign: u8) -> &str
        ensures { result.now ≡ partner sign ++ self.now.closing.now }
    {
        match sign {
            b'{' => &self.raw_end,
            b'=' => &self.change_end,
            _ => self.closing,
        }
    }
}

/// Whether a byte may not be in a delimiter: padding or an equals sign.
fn is_barred(byte: u8) -> bool
    ensures { result ≡ (is_padding byte || byte == 61) }
{
    is_padding(byte) || byte == b'='
}

fn has_barred(text: &str) -> bool
    ensures { result ≡ list_any (λ b. is_padding b || b == 61) text.now }
{
    text.as_bytes().iter().any(|b| is_barred(*b))
}

/// One of the two sequences of a delimiter tag: not empty, no padding, no equals sign.
fn is_sequence(text: &str) -> bool
    ensures { result ≡ is_sequence text.now }
{
    !text.is_empty() && !has_barred(text)
}

fn is_in_word(byte: u8) -> bool
    ensures { result ≡ not (is_padding byte) }
{
    !is_padding(byte)
}

/// How many bytes are before the first padding.
fn len_before_padding(bytes: &[u8]) -> usize
    ensures { result ≡ position_or_len is_padding bytes.now }
{
    bytes.iter().take_while(|b| is_in_word(**b)).count()
}

/// The delimiters that the inside of a delimiter tag names.
pub(crate) fn delimiters_in(inside: &str) -> Option<(&str, &str)>
    ensures { option_map (λ d. record { opening = d.0.now; closing = d.1.now }) result
        ≡ delimiters_in inside.now }
{
    let len = len_before_padding(inside.as_bytes());
    let opening = &inside[..len];
    let closing = unpadded(&inside[len..]);
    if is_sequence(opening) && is_sequence(closing) {
        Some((opening, closing))
    } else {
        None
    }
}
