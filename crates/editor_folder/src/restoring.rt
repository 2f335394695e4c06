//! The files of a folder, from the texts of its commands.
use crate::file::SiteFile;
use crate::lines::before;
use std::alloc::{AllocError, Global};
use std::collections::BTreeSet;

/// What a text puts: its kind, its name or its path, and what follows that.
#[derive(Clone, Copy)]
struct Put<'a> {
    kind: &'a str,
    name: &'a str,
    more: &'a str,
}

/// What a text puts, if it puts something.
fn put_in(text: &str) -> Option<Put<'_>> {
    let (kind, rest) = text.strip_prefix("put ")?.split_once(' ')?;
    let head = before(rest, '\n');
    match head.split_once(' ') {
        Some((name, more)) => Some(Put { kind, name, more }),
        None => Some(Put {
            kind,
            name: head,
            more: "",
        }),
    }
}

/// The path of the file for what is put; `None` if that has no file of its own.
fn path_of(alloc: Global, put: Put<'_>) -> Result<Option<String>, AllocError> {
    let name = put.name;
    Ok(Some(match put.kind {
        "template" => format!(in alloc; "templates/{name}.mustache")?,
        "partial" => format!(in alloc; "partials/{name}.mustache")?,
        "data" => format!(in alloc; "data/{name}.json")?,
        _ => return Ok(None),
    }))
}

/// What follows the first line of a text.
fn body_of(text: &str) -> &str {
    match text.split_once('\n') {
        Some((_, body)) => body,
        None => "",
    }
}

fn push(
    alloc: Global,
    files: &mut Vec<SiteFile>,
    path: String,
    body: &str,
) -> Result<(), AllocError> {
    let bytes = Vec::from_slice(alloc, body.as_bytes())?;
    files.push(SiteFile { path, bytes })?;
    Ok(())
}

/// Adds the files of the texts that have one of their own.
fn push_bodies(alloc: Global, files: &mut Vec<SiteFile>, texts: &[&str]) -> Result<(), AllocError> {
    for text in texts {
        if let Some(put) = put_in(text) {
            if let Some(path) = path_of(alloc, put)? {
                push(alloc, files, path, body_of(text))?;
            }
        }
    }
    Ok(())
}

/// The lines for what texts put of a kind, sorted by their bytes.
fn lines_of(alloc: Global, texts: &[&str], kind: &str) -> Result<BTreeSet<String>, AllocError> {
    let mut lines = BTreeSet::new(alloc);
    for text in texts {
        if let Some(put) = put_in(text) {
            if put.kind == kind {
                let (name, more) = (put.name, put.more);
                let _ = lines.insert(format!(in alloc; "{name} {more}\n")?)?;
            }
        }
    }
    Ok(lines)
}

/// Adds the file of the lines for what texts put of a kind, if there are some.
fn push_lines(
    alloc: Global,
    files: &mut Vec<SiteFile>,
    texts: &[&str],
    kind: &str,
    path: &str,
) -> Result<(), AllocError> {
    let mut body = String::new(alloc);
    for line in lines_of(alloc, texts, kind)? {
        body.push_str(line.as_str())?;
    }
    if body.is_empty() {
        return Ok(());
    }
    push(alloc, files, String::from_str(alloc, path)?, body.as_str())
}

/// The files of a folder that puts what these texts put. The lines of `routes` and `redirects` are sorted by
/// their bytes. What texts remove has no file.
pub fn files_of(alloc: Global, texts: &[&str]) -> Result<Vec<SiteFile>, AllocError> {
    let mut files = Vec::new(alloc);
    push_bodies(alloc, &mut files, texts)?;
    push_lines(alloc, &mut files, texts, "route", "routes")?;
    push_lines(alloc, &mut files, texts, "redirect", "redirects")?;
    Ok(files)
}
