//! What is wrong with a folder.
use editor_common::{EditorFault, Outcome, say, say_made};
use editor_files::{Read, list_findings, read_folder, tell_findings};
use editor_folder::{Finding, unused_of};
use serde_json::Value;
use std::alloc::{AllocError, Global};
use std::io::Write;
use std::rt::Files;

/// How a folder is checked.
#[derive(Clone, Copy)]
pub struct Checking<'a> {
    pub folder: &'a str,
    /// Whether files that are not part of a site are ignored.
    pub ignore: bool,
    /// Whether what no page uses is reported too.
    pub unused: bool,
}

/// Writes how many files and folders were ignored, if any.
fn tell_ignored<E: Write>(
    alloc: Global,
    err: &mut E,
    folder: &str,
    count: usize,
) -> Result<(), EditorFault> {
    if count == 0 {
        return Ok(());
    }
    let noun = if count == 1 {
        "file or folder"
    } else {
        "files and folders"
    };
    Ok(say_made(
        err,
        format!(in alloc;
            "{folder}: {count} {noun} ignored: names that end with ~, README, and by --ignore others"
        ),
    )?)
}

/// How many pages of a folder are redirects.
fn redirects_of(read: &Read) -> usize {
    read.pages
        .iter()
        .filter(|page| page.file == "redirects")
        .count()
}

/// Writes that a folder has no fault.
fn tell_clean<W: Write>(
    alloc: Global,
    out: &mut W,
    folder: &str,
    read: &Read,
) -> Result<(), EditorFault> {
    let commands = read.folder.commands.len();
    let redirects = redirects_of(read);
    let pages = read.pages.len().saturating_sub(redirects);
    let line = format!(in alloc; "{folder}: no fault; commands: {commands}, pages: {pages}")?;
    if redirects == 0 {
        return Ok(say(out, line.as_str())?);
    }
    Ok(say_made(out, format!(in alloc; "{line}, redirects: {redirects}"))?)
}

/// Writes that a folder has no page.
fn tell_no_page<E: Write>(alloc: Global, err: &mut E, folder: &str) -> Result<(), EditorFault> {
    Ok(say_made(
        err,
        format!(in alloc;
            "{folder}: no page, so publish refuses it: each line of its file routes is one"
        ),
    )?)
}

/// What no page of a folder uses, if that is asked for and the folder has no fault.
fn unused_in(alloc: Global, how: Checking<'_>, read: &Read) -> Result<Vec<Finding>, AllocError> {
    if how.unused && !read.has_fault() {
        unused_of(alloc, &read.folder)
    } else {
        Ok(Vec::new(alloc))
    }
}

/// Puts what was found into the outcome.
fn keep(
    alloc: Global,
    outcome: &mut Outcome,
    read: &Read,
    unused: &[Finding],
) -> Result<(), AllocError> {
    let mut findings = Vec::new(alloc);
    list_findings(alloc, &mut findings, &read.findings)?;
    list_findings(alloc, &mut findings, unused)?;
    outcome.put(alloc, "findings", Value::Array(findings))?;
    outcome.put(alloc, "commands", Value::from(read.folder.commands.len()))?;
    let redirects = redirects_of(read);
    let pages = read.pages.len().saturating_sub(redirects);
    outcome.put(alloc, "pages", Value::from(pages))?;
    outcome.put(alloc, "redirects", Value::from(redirects))?;
    outcome.put(alloc, "passed_over", Value::from(read.passed_over))
}

/// Writes all that is wrong with a folder that was read, or that nothing is, and returns the exit status.
fn tell<W: Write, E: Write>(
    alloc: Global,
    out: &mut W,
    err: &mut E,
    how: Checking<'_>,
    read: &Read,
    unused: &[Finding],
) -> Result<u8, EditorFault> {
    tell_ignored(alloc, err, how.folder, read.passed_over)?;
    tell_findings(alloc, err, how.folder, &read.findings)?;
    if read.has_fault() {
        return Ok(1);
    }
    tell_findings(alloc, err, how.folder, unused)?;
    tell_clean(alloc, out, how.folder, read)?;
    if read.pages.is_empty() {
        tell_no_page(alloc, err, how.folder)?;
        return Ok(1);
    }
    Ok(0)
}

/// Writes each fault of a folder, or that it has none, and returns the exit status. The status is 1 also for
/// a folder without a page. The outcome keeps what was found.
pub fn check<R: Files + AllocGlobal + Clone + Drop, W: Write, E: Write>(
    rt: &R,
    out: &mut W,
    err: &mut E,
    outcome: &mut Outcome,
    how: Checking<'_>,
) -> Result<u8, EditorFault> {
    let read = read_folder(rt, how.folder, how.ignore)?;
    let unused = unused_in(rt.alloc(), how, &read)?;
    keep(rt.alloc(), outcome, &read, &unused)?;
    tell(rt.alloc(), out, err, how, &read, &unused)
}
