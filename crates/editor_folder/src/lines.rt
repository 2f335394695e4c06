//! The lines of `routes`, `redirects` and `removes`.
use command::Kind;
use std::alloc::{AllocError, Global};

/// The text before a mark; all of it if the text has no mark.
pub(crate) fn before(text: &str, mark: char) -> &str {
    match text.split_once(mark) {
        Some((front, _)) => front,
        None => text,
    }
}

/// A line of `routes`: a path, and the names of its template and its data.
#[derive(Clone, Copy)]
pub(crate) struct RouteLine<'a> {
    pub path: &'a str,
    pub template: &'a str,
    pub page_data: &'a str,
}

/// A line that says something: its words, and its number from 1.
#[derive(Drop)]
pub(crate) struct Line<'a> {
    pub words: Vec<&'a str>,
    pub number: usize,
}

/// The lines of a text that say something: neither empty nor a comment, which begins with `#`. Blanks
/// separate words, and a carriage return is a blank.
pub(crate) fn lines_in(alloc: Global, text: &str) -> Result<Vec<Line<'_>>, AllocError> {
    let mut found = Vec::new(alloc);
    for (i, line) in text.split('\n').enumerate() {
        let words: Vec<&str> = line.split_ascii_whitespace().collect(alloc)?;
        if words.first().is_some_and(|word| !word.starts_with('#')) {
            found.push(Line {
                words,
                number: i.saturating_add(1),
            })?;
        }
    }
    Ok(found)
}

/// What a line of `routes` says.
pub(crate) fn route_in<'a>(line: &Line<'a>) -> Option<RouteLine<'a>> {
    match line.words.as_slice() {
        [path, template, page_data] => Some(RouteLine {
            path: *path,
            template: *template,
            page_data: *page_data,
        }),
        _ => None,
    }
}

/// A line of `redirects`: a path, and the path that it leads to.
#[derive(Clone, Copy)]
pub(crate) struct RedirectLine<'a> {
    pub path: &'a str,
    pub target: &'a str,
}

/// What a line of `redirects` says.
pub(crate) fn redirect_in<'a>(line: &Line<'a>) -> Option<RedirectLine<'a>> {
    match line.words.as_slice() {
        [path, target] => Some(RedirectLine {
            path: *path,
            target: *target,
        }),
        _ => None,
    }
}

fn kind_in(word: &str) -> Option<Kind> {
    match word {
        "template" => Some(Kind::Template),
        "partial" => Some(Kind::Partial),
        "data" => Some(Kind::Data),
        "route" => Some(Kind::Route),
        "redirect" => Some(Kind::Redirect),
        _ => None,
    }
}

/// What a line of `removes` says: a kind and a name, which is the path of a route or a redirect.
pub(crate) fn removal_in<'a>(line: &Line<'a>) -> Option<(Kind, &'a str)> {
    match line.words.as_slice() {
        [word, name] => Some((kind_in(*word)?, *name)),
        _ => None,
    }
}

/// The word by which commands call a kind.
pub(crate) fn kind_word(kind: Kind) -> &'static str {
    match kind {
        Kind::Template => "template",
        Kind::Partial => "partial",
        Kind::Data => "data",
        Kind::Route => "route",
        Kind::Redirect => "redirect",
    }
}
