//! Why a text is not a template, by the names of its sections.
use crate::place::place_of;
use mustache_scan::{FaultKind, TemplateFault, Token, TokenKind, scan};
use std::alloc::{AllocError, Global};

/// The sections of a list of tokens that are open before a place, the innermost last.
fn open_before<'a>(
    alloc: Global,
    tokens: &[Token<'a>],
    place: usize,
) -> Result<Vec<Token<'a>>, AllocError> {
    let mut open = Vec::new(alloc);
    for token in tokens {
        if token.place >= place {
            break;
        }
        match token.kind {
            TokenKind::Section | TokenKind::Inverted => open.push(*token)?,
            TokenKind::End => {
                let _ = open.pop();
            }
            _ => {}
        }
    }
    Ok(open)
}

/// The text of the tag at a place.
fn tag_at<'a>(tokens: &[Token<'a>], place: usize) -> &'a str {
    match tokens.iter().find(|token| token.place == place) {
        Some(token) => token.text,
        None => "this tag",
    }
}

fn wrong_end(
    alloc: Global,
    source: &str,
    tokens: &[Token<'_>],
    place: usize,
) -> Result<String, AllocError> {
    let tag = tag_at(tokens, place);
    let open = open_before(alloc, tokens, place)?;
    match open.last() {
        Some(token) => {
            let section = token.text;
            let name = token.inside;
            let line = place_of(source.as_bytes(), token.place).line;
            format!(in alloc;
                "`{tag}` ends nothing: `{section}` of line {line} is open, and ends with `{{{{/{name}}}}}`"
            )
        }
        None => format!(in alloc;
            "`{tag}` ends nothing: no section is open: take it away, or open one before it"
        ),
    }
}

fn unclosed(alloc: Global, tokens: &[Token<'_>], place: usize) -> Result<String, AllocError> {
    match tokens.iter().find(|token| token.place == place) {
        Some(token) => {
            let tag = token.text;
            let name = token.inside;
            format!(in alloc; "`{tag}` has no end: write `{{{{/{name}}}}}` where it ends")
        }
        None => String::from_str(alloc, "the section has no end"),
    }
}

/// Why sections nest wrongly, by the tokens of the text.
fn nesting_reason(alloc: Global, source: &str, fault: TemplateFault) -> Result<String, AllocError> {
    let Ok(tokens) = scan(alloc, source) else {
        return Err(AllocError);
    };
    match fault.kind {
        FaultKind::UnclosedSection => unclosed(alloc, &tokens, fault.place),
        FaultKind::TooDeep => String::from_str(
            alloc,
            "64 sections are open already: put the inner ones into a partial",
        ),
        _ => wrong_end(alloc, source, &tokens, fault.place),
    }
}

/// Whether the tag at a place has a single brace before the two that end it.
fn has_one_brace(source: &str, place: usize) -> bool {
    let behind = source.get(place..).unwrap_or("");
    match behind.split_once("}}") {
        Some((tag, _)) => tag.starts_with("{{") && tag.contains('}'),
        None => false,
    }
}

/// Why the text is not a template, and what to do.
pub(crate) fn template_reason(
    alloc: Global,
    source: &str,
    fault: TemplateFault,
) -> Result<String, AllocError> {
    let reason = match fault.kind {
        FaultKind::UnclosedTag => "the tag has no end: write `}}` after its name",
        FaultKind::EmptyName => "the tag has no name: write one into it, or take it away",
        FaultKind::BadName if has_one_brace(source, fault.place) => {
            "the tag has one brace at its end: write `}}` after its name"
        }
        FaultKind::BadName => "a name has no blank within, and no empty part between dots",
        FaultKind::BadDelimiters => "the tag has to name two delimiters: `{{=<% %>=}}`",
        FaultKind::OutOfMemory => return Err(AllocError),
        _ => return nesting_reason(alloc, source, fault),
    };
    String::from_str(alloc, reason)
}

/// A partial that a template calls, or a name that it has, and the byte at which the tag begins.
#[derive(Clone, Copy)]
pub(crate) struct Call<'a> {
    pub name: &'a str,
    pub at: usize,
}

/// Which tags of a template are looked for.
#[derive(Clone, Copy)]
enum Wanted {
    /// Those that call a partial.
    Calls,
    /// Those that print a value, or ask for one.
    Names,
}

impl Wanted {
    fn is(self, kind: TokenKind) -> bool {
        match self {
            Wanted::Calls => kind == TokenKind::Partial,
            Wanted::Names => matches!(
                kind,
                TokenKind::Variable | TokenKind::Raw | TokenKind::Section | TokenKind::Inverted
            ),
        }
    }
}

/// The tags of a template that are looked for, in order.
fn tags_of(alloc: Global, source: &str, wanted: Wanted) -> Result<Vec<Call<'_>>, AllocError> {
    let Ok(tokens) = scan(alloc, source) else {
        return Err(AllocError);
    };
    let mut calls = Vec::new(alloc);
    for token in &tokens {
        if wanted.is(token.kind) {
            calls.push(Call {
                name: token.inside,
                at: token.place,
            })?;
        }
    }
    Ok(calls)
}

/// The partials that a template calls, in order.
pub(crate) fn calls_of(alloc: Global, source: &str) -> Result<Vec<Call<'_>>, AllocError> {
    tags_of(alloc, source, Wanted::Calls)
}

/// The names of values that a template has, in order.
pub(crate) fn names_of(alloc: Global, source: &str) -> Result<Vec<Call<'_>>, AllocError> {
    tags_of(alloc, source, Wanted::Names)
}
