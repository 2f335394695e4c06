//! The folder of a release, written again.
use crate::exporting::{takes_files, write_at};
use editor_common::EditorFault;
use editor_files::{lent, read_ledger, release_texts};
use editor_folder::{SiteFile, files_of, is_of_site};
use editor_ledger::Ledger;
use std::alloc::{AllocError, Global};
use std::io::Write;
use std::rt::Files;

/// Why a file is not written: it is not one of a site's files.
fn foreign(alloc: Global, folder: &str, path: &str) -> Result<EditorFault, AllocError> {
    Ok(EditorFault::Stop(format!(in alloc; "{folder}/published: {path} is no file of a site")?))
}

/// Writes files below a folder. If one of them is not one of a site's files, nothing is written.
fn write_files<R: Files + AllocGlobal>(
    rt: &R,
    folder: &str,
    to: &str,
    files: &[SiteFile],
) -> Result<(), EditorFault> {
    for file in files {
        if !is_of_site(file.path.as_str()) {
            return Err(foreign(rt.alloc(), folder, file.path.as_str())?);
        }
    }
    for file in files {
        let text = str::from_utf8(&file.bytes).unwrap_or("");
        write_at(rt, to, file.path.as_str(), text)?;
    }
    Ok(())
}

/// Writes the files of a release that a ledger keeps.
fn write_release<R: Files + AllocGlobal>(
    rt: &R,
    folder: &str,
    ledger: &Ledger,
    release: u64,
    to: &str,
) -> Result<(), EditorFault> {
    let texts = release_texts(rt.alloc(), folder, ledger, release)?;
    let files = files_of(rt.alloc(), &lent(rt.alloc(), &texts)?)?;
    write_files(rt, folder, to, &files)
}

/// Writes a folder as it was at one of its releases, from what its file `published` keeps, and returns the
/// exit status.
pub fn restore<R: Files + AllocGlobal + Clone + Drop, E: Write>(
    rt: &R,
    err: &mut E,
    folder: &str,
    release: u64,
    to: &str,
) -> Result<u8, EditorFault> {
    if !takes_files(rt, err, to)? {
        return Ok(1);
    }
    match read_ledger(rt, folder)? {
        Some(ledger) => {
            write_release(rt, folder, &ledger, release, to)?;
            Ok(0)
        }
        None => Err(EditorFault::Unpublished(String::from_str(rt.alloc(), folder)?)),
    }
}
