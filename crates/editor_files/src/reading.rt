//! Reads a folder, and prints what is wrong with it.
use crate::files::files_of;
use editor_common::{EditorFault, say_made};
use editor_folder::{Finding, Folder, Page, Weight, folder_of, page_faults, pages_of};
use std::alloc::{AllocError, Global};
use std::collections::BTreeMap;
use std::io::Write;
use std::rt::Files;

/// How many findings of one reason are printed, before the number of the others.
const TOLD: usize = 10;

/// A folder as it was read.
#[derive(Drop)]
pub struct Read {
    pub folder: Folder,
    /// Its pages, if its files have no fault.
    pub pages: Vec<Page>,
    /// What is wrong with its files, and then with its pages.
    pub findings: Vec<Finding>,
    /// How many files and folders were ignored, except those whose names begin with a dot.
    pub passed_over: usize,
}

/// A folder without a fault, and its pages.
#[derive(Drop)]
pub struct Clean {
    pub folder: Folder,
    pub pages: Vec<Page>,
}

fn is_fault(finding: &Finding) -> bool {
    finding.weight == Weight::Fault
}

fn has_fault(findings: &[Finding]) -> bool {
    findings.iter().any(|finding| is_fault(finding))
}

impl Read {
    /// Whether the folder cannot be published.
    pub fn has_fault(&self) -> bool {
        has_fault(&self.findings)
    }
}

/// The pages of a folder, if its files have no fault. What is wrong with the pages is added.
fn read_pages(
    alloc: Global,
    folder: &Folder,
    findings: &mut Vec<Finding>,
) -> Result<Vec<Page>, AllocError> {
    if has_fault(findings.as_slice()) {
        return Ok(Vec::new(alloc));
    }
    let pages = pages_of(alloc, folder)?;
    let mut faults = page_faults(alloc, folder, &pages)?;
    findings.append(&mut faults)?;
    Ok(pages)
}

/// Reads a folder. It does not print what is wrong with it.
pub fn read_folder<R: Files + AllocGlobal + Clone + Drop>(
    rt: &R,
    name: &str,
    ignore: bool,
) -> Result<Read, EditorFault> {
    let alloc = rt.alloc();
    let found = files_of(rt, name, ignore)?;
    let mut folder = folder_of(alloc, &found.files)?;
    let mut findings = Vec::new(alloc);
    findings.append(&mut folder.findings)?;
    let pages = read_pages(alloc, &folder, &mut findings)?;
    Ok(Read {
        folder,
        pages,
        findings,
        passed_over: found.passed_over,
    })
}

/// Counts a reason once more, and returns how often it came.
fn count(
    alloc: Global,
    counts: &mut BTreeMap<String, usize>,
    reason: &str,
) -> Result<usize, AllocError> {
    let count = counts.get(reason).copied().unwrap_or(0).saturating_add(1);
    drop(counts.insert(String::from_str(alloc, reason)?, count)?);
    Ok(count)
}

/// Writes how many findings more each reason has than were printed.
fn tell_more<E: Write>(
    alloc: Global,
    err: &mut E,
    folder: &str,
    counts: &BTreeMap<String, usize>,
) -> Result<(), EditorFault> {
    for (reason, count) in counts.iter() {
        let more = count.saturating_sub(TOLD);
        if more > 0 {
            let reason = reason.as_str();
            say_made(
                err,
                format!(in alloc; "{folder}: and {more} more: {reason}"),
            )?;
        }
    }
    Ok(())
}

/// Writes what is wrong with a folder, a line each. Of many findings with one reason it writes the first, and
/// how many more there are.
pub fn tell_findings<E: Write>(
    alloc: Global,
    err: &mut E,
    folder: &str,
    findings: &[Finding],
) -> Result<(), EditorFault> {
    let mut counts = BTreeMap::new(alloc);
    for finding in findings {
        if count(alloc, &mut counts, finding.reason.as_str())? <= TOLD {
            say_made(err, format!(in alloc; "{folder}/{finding}"))?;
        }
    }
    tell_more(alloc, err, folder, &counts)
}

/// Prints all that is wrong with a folder that was read; `None` if it has a fault.
pub fn clean_of<E: Write>(
    alloc: Global,
    err: &mut E,
    name: &str,
    read: Read,
) -> Result<Option<Clean>, EditorFault> {
    tell_findings(alloc, err, name, &read.findings)?;
    if read.has_fault() {
        return Ok(None);
    }
    Ok(Some(Clean {
        folder: read.folder,
        pages: read.pages,
    }))
}

/// Reads a folder, and prints all that is wrong with it; `None` if it has a fault.
pub fn read_clean<R: Files + AllocGlobal + Clone + Drop, E: Write>(
    rt: &R,
    err: &mut E,
    name: &str,
    ignore: bool,
) -> Result<Option<Clean>, EditorFault> {
    let read = read_folder(rt, name, ignore)?;
    clean_of(rt.alloc(), err, name, read)
}

/// The texts of a folder's commands, which are UTF-8.
pub fn texts_of<'a>(alloc: Global, folder: &'a Folder) -> Result<Vec<&'a str>, AllocError> {
    let mut texts = Vec::new(alloc);
    for command in folder.commands.iter() {
        if let Ok(text) = str::from_utf8(command.text()) {
            texts.push(text)?;
        }
    }
    Ok(texts)
}
