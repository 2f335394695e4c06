//! A file that has a password.
ghost use Rattle.std.specs.Prelude.{IfErr, IfOk};
ghost use Rattle.editor_common.specs.Faults.{IsInFile};

use crate::files::at;
use editor_common::EditorFault;
use std::alloc::{AllocError, Global};
use std::fs;
use std::os::unix::fs::MetadataExt;
use std::rt::Files;

/// The bits of a file's mode by which its group and others may do anything with it.
const OTHERS: u32 = 0o077;

/// Why a file is not read that others may read.
fn too_open(alloc: Global, path: &str) -> Result<EditorFault, AllocError>
    ensures { IfOk result (IsInFile path.now) }
{
    let why = format!(in alloc; " has passwords, and others may read it: chmod 600 {path}")?;
    Ok(EditorFault::Stop(format!(in alloc; "{path}:{why}")?))
}

/// The text of a file that only its owner may read.
pub fn read_secret<R: Files + AllocGlobal>(rt: &R, path: &str) -> Result<String, EditorFault>
    ensures { IfErr result (IsInFile path.now) }
{
    let alloc = rt.alloc();
    let mode = at(alloc, path, fs::metadata(rt, path))?.mode();
    if mode & OTHERS != 0 {
        return Err(too_open(alloc, path)?);
    }
    at(alloc, path, fs::read_to_string(rt, path))
}
