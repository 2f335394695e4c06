//! Where and why a text is not valid data.
use serde_json::Value;
use std::alloc::{AllocError, Global};

/// What is wrong, and the byte at which it is.
#[derive(Drop)]
pub(crate) struct Slip {
    pub at: usize,
    pub reason: String,
}

/// The first byte of a line, counted from 1.
fn line_start(bytes: &[u8], line: usize) -> usize {
    let mut seen = 1usize;
    let mut start = 0;
    for (i, b) in bytes.iter().enumerate() {
        if seen >= line {
            break;
        }
        if *b == b'\n' {
            seen = seen.saturating_add(1);
            start = i + 1;
        }
    }
    start
}

fn is_blank(b: u8) -> bool {
    matches!(b, b' ' | b'\t' | b'\n' | b'\r')
}

/// The last byte that is not a blank; a space if there is none.
fn last_of(bytes: &[u8]) -> u8 {
    bytes
        .iter()
        .rev()
        .copied()
        .find(|b| !is_blank(*b))
        .unwrap_or(b' ')
}

/// Whether a value or a key can end in the byte.
fn is_end(b: u8) -> bool {
    matches!(b, b'"' | b'}' | b']' | b'0'..=b'9' | b'a'..=b'z')
}

/// Whether a value or a key can begin with the byte.
fn is_start(b: u8) -> bool {
    matches!(b, b'"' | b'{' | b'[' | b'-' | b'0'..=b'9' | b'a'..=b'z' | b'A'..=b'Z')
}

/// Whether a value or a key has to follow the byte.
fn is_open(b: u8) -> bool {
    matches!(b, b'{' | b'[' | b',' | b':')
}

/// Whether the byte begins a word that lacks quotes: `true`, `false` and `null` need none.
fn is_word(b: u8) -> bool {
    matches!(b, b'a'..=b'z' | b'A'..=b'Z' | b'_') && !matches!(b, b't' | b'f' | b'n')
}

/// Why a byte cannot follow the one before it.
fn reason_at(alloc: Global, before: u8, here: u8) -> Result<String, AllocError> {
    let reason = match (before, here) {
        (b',', b'}' | b']') => "no JSON: the comma before this has to go",
        (b',', b',') => "no JSON: one comma too many",
        (_, b'\'') => "no JSON: texts and keys stand between double quotes",
        (_, b'/' | b'#') => "no JSON: there are no comments",
        (before, here) if is_open(before) && is_word(here) => NO_QUOTE,
        (before, here) if is_end(before) && is_start(here) => {
            "no JSON: a comma is missing before this, or a colon after a key"
        }
        (_, here) if (33..127).contains(&here) => {
            let c = char::from(here);
            return format!(in alloc; "no JSON: `{c}` can't stand here");
        }
        _ => "no JSON: this can't stand here",
    };
    String::from_str(alloc, reason)
}

/// Says that texts and keys have double quotes.
const NO_QUOTE: &str = "no JSON: texts and keys stand between double quotes";

/// The quotes of word processors.
const QUOTES: [&str; 7] = [
    "\u{201c}", "\u{201d}", "\u{201e}", "\u{2018}", "\u{2019}", "\u{ab}", "\u{bb}",
];

/// The quote of a word processor at the front.
fn quote_at(bytes: &[u8]) -> Option<&'static str> {
    QUOTES
        .iter()
        .copied()
        .find(|quote| bytes.starts_with(quote.as_bytes()))
}

fn slip_at(alloc: Global, at: usize, reason: &str) -> Result<Slip, AllocError> {
    let reason = String::from_str(alloc, reason)?;
    Ok(Slip { at, reason })
}

/// Whether what follows a backslash in a text is an escape.
fn is_escape(behind: &[u8]) -> bool {
    match behind {
        [b'u', a, b, c, d, ..] => [*a, *b, *c, *d]
            .iter()
            .all(|digit| digit.is_ascii_hexdigit()),
        [b'"' | b'\\' | b'/' | b'b' | b'f' | b'n' | b'r' | b't', ..] => true,
        _ => false,
    }
}

/// Why a text of JSON cannot hold what is at a byte; `None` if it can.
fn wrong_within(inside: Inside, behind: &[u8]) -> Option<&'static str> {
    match (inside, behind.first()) {
        (_, Some(0..=31)) => {
            Some(
                "no JSON: a text holds no line break and no tab: write \\n or \\t, or close it with a double \
                 quote",
            )
        }
        (Inside::Text, Some(b'\\')) if !is_escape(behind.get(1..).unwrap_or(&[])) => {
            Some(
                "no JSON: a backslash stands before one of \" \\ / b f n r t, or u and four digits: write \
                 \\\\ for itself",
            )
        }
        _ => None,
    }
}

/// Why the text that begins at a byte is invalid; `None` if no text begins there, or it is valid.
fn text_slip(alloc: Global, bytes: &[u8], from: usize) -> Result<Option<Slip>, AllocError> {
    if bytes.get(from) != Some(&b'"') {
        return Ok(None);
    }
    let mut inside = Inside::Nothing;
    for at in from..bytes.len() {
        if let Some(reason) = wrong_within(inside, &bytes[at..]) {
            return Ok(Some(slip_at(alloc, at, reason)?));
        }
        inside = step(inside, bytes[at]);
        if inside == Inside::Nothing {
            return Ok(None);
        }
    }
    let reason = "no JSON: the file ends within a text: a double quote is missing";
    Ok(Some(slip_at(alloc, bytes.len(), reason)?))
}

/// Why bytes are invalid JSON, which a parser refuses at a place.
fn refused_at(
    alloc: Global,
    bytes: &[u8],
    line: usize,
    column: usize,
    is_end: bool,
) -> Result<Slip, AllocError> {
    let start = line_start(bytes, line);
    let at = start
        .saturating_add(column.saturating_sub(1))
        .min(bytes.len());
    if let Some(slip) = text_slip(alloc, bytes, at)? {
        return Ok(slip);
    }
    if is_end || at == bytes.len() {
        let reason = "no JSON: the file ends too early: a `}`, a `]` or a double quote is missing";
        return slip_at(alloc, bytes.len(), reason);
    }
    let reason = match quote_at(&bytes[at..]) {
        Some(quote) => format!(in alloc; "{NO_QUOTE} (`\"`), and this is `{quote}`")?,
        None => reason_at(alloc, last_of(&bytes[..at]), bytes[at])?,
    };
    Ok(Slip { at, reason })
}

/// Where and why bytes are invalid JSON.
pub(crate) fn json_slip(alloc: Global, bytes: &[u8]) -> Result<Slip, AllocError> {
    if bytes.starts_with(b"\xef\xbb\xbf") {
        let reason = "the file begins with a byte order mark: save it as UTF-8 without one";
        return slip_at(alloc, 0, reason);
    }
    match Value::from_slice(alloc, bytes) {
        Ok(value) => {
            drop(value);
            slip_at(alloc, 0, "no JSON")
        }
        Err(fault) if fault.is_memory() => Err(AllocError),
        Err(fault) => refused_at(alloc, bytes, fault.line(), fault.column(), fault.is_eof()),
    }
}

fn is_number_byte(b: u8) -> bool {
    matches!(b, b'0'..=b'9' | b'-' | b'+' | b'.' | b'e' | b'E')
}

/// Whether a number of JSON is one that data may have.
fn is_whole(number: &str) -> bool {
    number != "-0" && (number.parse::<i64>().is_ok() || number.parse::<u64>().is_ok())
}

/// Where a reader of JSON is: outside of texts, in a text, or after a backslash in one.
#[derive(Clone, Copy, PartialEq, Eq)]
pub(crate) enum Inside {
    Nothing,
    Text,
    Escape,
}

/// Where the reader is after the byte.
pub(crate) fn step(inside: Inside, b: u8) -> Inside {
    match (inside, b) {
        (Inside::Nothing, b'"') => Inside::Text,
        (Inside::Nothing, _) => Inside::Nothing,
        (Inside::Text, b'"') => Inside::Nothing,
        (Inside::Text, b'\\') => Inside::Escape,
        (Inside::Text | Inside::Escape, _) => Inside::Text,
    }
}

/// The number at the front.
fn number_at(bytes: &[u8]) -> &str {
    let len = bytes.iter().take_while(|b| is_number_byte(**b)).count();
    match bytes.get(..len) {
        Some(number) => str::from_utf8(number).unwrap_or(""),
        None => "",
    }
}

/// The first number of a text of JSON that is not whole, or too large.
pub(crate) fn number_slip(alloc: Global, bytes: &[u8]) -> Result<Slip, AllocError> {
    let mut inside = Inside::Nothing;
    let mut behind = b' ';
    for (at, b) in bytes.iter().enumerate() {
        if inside == Inside::Nothing
            && is_number_byte(*b)
            && !is_number_byte(behind)
            && !is_letter(*b)
        {
            let number = number_at(&bytes[at..]);
            if !is_whole(number) {
                return Ok(Slip {
                    at,
                    reason: format!(in alloc;
                        "the number {number} is not whole, or too large: write it as a text, \"{number}\""
                    )?,
                });
            }
        }
        inside = step(inside, *b);
        behind = *b;
    }
    slip_at(
        alloc,
        0,
        "a number is not whole, or too large: write it as a text",
    )
}

/// Whether the byte is a letter that numbers have: no number begins with one.
fn is_letter(b: u8) -> bool {
    matches!(b, b'e' | b'E')
}
