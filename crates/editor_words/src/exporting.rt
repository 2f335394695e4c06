//! A static copy of a folder's pages, and a small site to start from.
use editor_common::{EditorFault, say};
use editor_files::{Clean, below, is_free, read_clean, write_file};
use editor_folder::{BEGINNING, Copies, NoCopy, Page, Redirect};
use std::alloc::{AllocError, Global};
use std::collections::BTreeSet;
use std::io::Write;
use std::rt::Files;

/// Writes why a page has no file.
fn tell_no_copy<E: Write>(
    alloc: Global,
    err: &mut E,
    folder: &str,
    page: &Page,
    why: NoCopy,
) -> Result<(), EditorFault> {
    let (of, number, path) = (page.file, page.line, page.path.as_str());
    let why = match why {
        NoCopy::NoPath => "has an empty part, . or .., which no file can have",
        NoCopy::Taken => "meets the file of another route",
    };
    let line = format!(in alloc; "{folder}/{of}:{number}:1: {path} {why}")?;
    Ok(say(err, line.as_str())?)
}

/// The file of a page. If it has none, that is reported.
fn file_of<E: Write>(
    alloc: Global,
    err: &mut E,
    folder: &str,
    taken: &mut Copies,
    page: &Page,
) -> Result<Option<String>, EditorFault> {
    match taken.take(page.path.as_str())? {
        Ok(file) => Ok(Some(file)),
        Err(why) => {
            tell_no_copy(alloc, err, folder, page, why)?;
            Ok(None)
        }
    }
}

/// Adds the files of pages, each below the copy's folder. Returns whether a page has none. Each such page is
/// reported.
fn add_files<E: Write>(
    alloc: Global,
    err: &mut E,
    folder: &str,
    pages: &[Page],
    taken: &mut Copies,
    files: &mut Vec<String>,
) -> Result<bool, EditorFault> {
    let mut bad = false;
    for page in pages {
        match file_of(alloc, err, folder, taken, page)? {
            Some(file) => files.push(file)?,
            None => bad = true,
        }
    }
    Ok(bad)
}

/// The file of a page at a path, if no other page had one.
fn lone_file(alloc: Global, path: &str) -> Result<Option<String>, AllocError> {
    Ok(Copies::new(alloc).take(path)?.ok())
}

/// The lines of redirects whose file would be that of the page that they lead to, for example `/a/index.html`
/// to `/a`.
fn needless(alloc: Global, redirects: &[Redirect]) -> Result<BTreeSet<usize>, AllocError> {
    let mut lines = BTreeSet::new(alloc);
    for redirect in redirects {
        let file = lone_file(alloc, redirect.path.as_str())?;
        if file.is_some() && file == lone_file(alloc, redirect.target.as_str())? {
            let _ = lines.insert(redirect.line)?;
        }
    }
    Ok(lines)
}

/// The pages of a folder that a copy has: a redirect that leads to its own file needs none.
fn pages_to_copy(alloc: Global, clean: Clean) -> Result<Vec<Page>, AllocError> {
    let Clean { folder, mut pages } = clean;
    let needless = needless(alloc, &folder.redirects)?;
    pages.retain(|page| page.file != "redirects" || !needless.contains(&page.line));
    Ok(pages)
}

pub(crate) fn write_at<R: Files + AllocGlobal>(
    rt: &R,
    to: &str,
    file: &str,
    text: &str,
) -> Result<(), EditorFault> {
    let path = below(rt.alloc(), to, file)?;
    write_file(rt, path.as_str(), text)
}

fn write_all<R: Files + AllocGlobal>(
    rt: &R,
    to: &str,
    pages: &[Page],
    files: &[String],
) -> Result<(), EditorFault> {
    for (page, file) in pages.iter().zip(files.iter()) {
        write_at(rt, to, file.as_str(), page.body.as_str())?;
    }
    Ok(())
}

/// Writes pages into a folder, each as its file. If one has no file, nothing is written.
fn write_pages<R: Files + AllocGlobal, E: Write>(
    rt: &R,
    err: &mut E,
    folder: &str,
    to: &str,
    pages: &[Page],
) -> Result<u8, EditorFault> {
    let mut taken = Copies::new(rt.alloc());
    let mut files = Vec::new(rt.alloc());
    if add_files(rt.alloc(), err, folder, pages, &mut taken, &mut files)? {
        return Ok(1);
    }
    write_all(rt, to, pages, &files)?;
    Ok(0)
}

fn tell_full<E: Write>(alloc: Global, err: &mut E, folder: &str) -> Result<(), EditorFault> {
    let line = format!(in alloc; "{folder}: is not an empty folder")?;
    Ok(say(err, line.as_str())?)
}

/// Whether files can be written into a folder: it has to be absent or empty. If it is not, that is reported.
pub fn takes_files<R: Files + AllocGlobal + Clone + Drop, E: Write>(
    rt: &R,
    err: &mut E,
    folder: &str,
) -> Result<bool, EditorFault> {
    let free = is_free(rt, folder)?;
    if !free {
        tell_full(rt.alloc(), err, folder)?;
    }
    Ok(free)
}

/// Writes a static copy, and returns the exit status.
pub fn export<R: Files + AllocGlobal + Clone + Drop, E: Write>(
    rt: &R,
    err: &mut E,
    folder: &str,
    to: &str,
    ignore: bool,
) -> Result<u8, EditorFault> {
    if !takes_files(rt, err, to)? {
        return Ok(1);
    }
    match read_clean(rt, err, folder, ignore)? {
        Some(clean) => write_pages(rt, err, folder, to, &pages_to_copy(rt.alloc(), clean)?),
        None => Ok(1),
    }
}

fn begun(alloc: Global, folder: &str) -> Result<String, AllocError> {
    format!(in alloc;
        "{folder}: a site of two pages; change data/start.json, then: sitepub preview {folder}"
    )
}

fn write_beginning<R: Files + AllocGlobal>(rt: &R, folder: &str) -> Result<(), EditorFault> {
    for (file, text) in BEGINNING {
        write_at(rt, folder, file, text)?;
    }
    Ok(())
}

/// Writes a small site to start from, and returns the exit status.
pub fn begin<R: Files + AllocGlobal + Clone + Drop, W: Write, E: Write>(
    rt: &R,
    out: &mut W,
    err: &mut E,
    folder: &str,
) -> Result<u8, EditorFault> {
    if !takes_files(rt, err, folder)? {
        return Ok(1);
    }
    write_beginning(rt, folder)?;
    let line = begun(rt.alloc(), folder)?;
    say(out, line.as_str())?;
    Ok(0)
}
