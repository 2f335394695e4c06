//! The file `published` of a folder.
ghost use Rattle.std.specs.Prelude.{◌≡◌, IfOk};

use crate::files::{at, below, not_a_file};
use crate::saved::Saved;
use editor_common::EditorFault;
use editor_ledger::{Ledger, LedgerReadFault};
use std::alloc::{AllocError, Global};
use std::fs::{self, File, OpenFile, Permissions};
use std::io::{self, Write};
use std::random::RandomSource;
use std::rt::Files;

/// The path of a folder's file.
fn ledger_path(alloc: Global, folder: &str) -> Result<String, AllocError> {
    below(alloc, folder, "published")
}

/// The ledger that a text spells.
fn ledger_in(alloc: Global, path: &str, text: &str) -> Result<Ledger, EditorFault> {
    match Ledger::read(alloc, text) {
        Ok(ledger) => Ok(ledger),
        Err(LedgerReadFault::OutOfMemory) => Err(EditorFault::OutOfMemory),
        Err(fault) => Err(EditorFault::Stop(format!(in alloc; "{path}: {fault}")?)),
    }
}

/// The text of the file at a path. What is not a file is not opened, since a read of a queue would wait for
/// ever.
fn text_at<R: Files + AllocGlobal>(rt: &R, path: &str) -> io::Result<String> {
    if fs::metadata(rt, path)?.is_file() {
        fs::read_to_string(rt, path)
    } else {
        Err(not_a_file())
    }
}

/// Reads a folder's ledger; `None` if it has none.
pub fn read_ledger<R: Files + AllocGlobal>(
    rt: &R,
    folder: &str,
) -> Result<Option<Ledger>, EditorFault> {
    let alloc = rt.alloc();
    let path = ledger_path(alloc, folder)?;
    let text = match text_at(rt, path.as_str()) {
        Ok(text) => text,
        Err(fault) if fault.kind() == io::ErrorKind::NotFound => return Ok(None),
        Err(fault) => return Err(EditorFault::at_path(alloc, path.as_str(), fault)),
    };
    Ok(Some(ledger_in(alloc, path.as_str(), text.as_str())?))
}

/// A number for a new editor, at random.
pub fn new_editor<R: RandomSource>(rt: &R) -> Result<u32, EditorFault> {
    let mut bytes = [0; 4];
    match rt.fill_bytes(&mut bytes) {
        Ok(()) => Ok(u32::from_be_bytes(bytes)),
        Err(_) => Err(EditorFault::Random),
    }
}

fn write_whole<R: Files>(rt: &R, path: &str, text: &str) -> io::Result<()> {
    let mut file = File::create(rt, path)?;
    file.write_all(text.as_bytes())?;
    file.sync_all()
}

/// The permissions of a file, if it is there.
fn permissions_of<R: Files>(rt: &R, path: &str) -> io::Result<Option<Permissions>> {
    match fs::metadata(rt, path) {
        Ok(found) => Ok(Some(found.permissions())),
        Err(fault) if fault.kind() == io::ErrorKind::NotFound => Ok(None),
        Err(fault) => Err(fault),
    }
}

/// Replaces a file of a folder by another with this text and the permissions of the one before. After that
/// the other is on disk under that name.
fn replace<R: Files>(rt: &R, folder: &str, fresh: &str, path: &str, text: &str) -> io::Result<()> {
    let permissions = permissions_of(rt, path)?;
    write_whole(rt, fresh, text)?;
    fs::rename(rt, fresh, path)?;
    if let Some(permissions) = permissions {
        fs::set_permissions(rt, path, permissions)?;
    }
    File::open(rt, folder)?.sync_all()
}

/// Writes a folder's file. If it is interrupted, the file is the one before, or the whole of this ledger's.
/// After it, the file is this ledger's.
pub(crate) fn write_ledger<R: Files + AllocGlobal>(
    rt: &R,
    folder: &str,
    ledger: &Ledger,
) -> Result<(), EditorFault> {
    let alloc = rt.alloc();
    let text = ledger.spelled(alloc)?;
    let path = ledger_path(alloc, folder)?;
    let fresh = below(alloc, folder, ".published.new")?;
    let (fresh, path) = (fresh.as_str(), path.as_str());
    at(alloc, path, replace(rt, folder, fresh, path, text.as_str()))
}

/// Saves a folder's ledger.
pub fn save<'a, R: Files + AllocGlobal>(
    rt: &R,
    folder: &'a str,
    ledger: &'a mut Ledger,
) -> Result<Saved<'a>, EditorFault>
    ensures { IfOk result (λ saved. saved.ledger.now ≡ ledger.old) }
{
    write_ledger(rt, folder, ledger)?;
    Ok(Saved { folder, ledger })
}
