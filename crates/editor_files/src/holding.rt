//! A folder that one process publishes at a time.
use crate::files::at;
use editor_common::EditorFault;
use std::fs::{File, TryLockError};
use std::rt::Files;

/// Holds a folder until the returned file, which is the folder's own, is dropped: no other process holds it
/// meanwhile. The lock is advisory (flock(2)), and leaves nothing behind.
pub fn hold<R: Files<File = File> + AllocGlobal>(
    rt: &R,
    folder: &str,
) -> Result<File, EditorFault> {
    let alloc = rt.alloc();
    let file = at(alloc, folder, File::open(rt, folder))?;
    match file.try_lock() {
        Ok(()) => Ok(file),
        Err(TryLockError::WouldBlock) => Err(EditorFault::Stop(format!(in alloc;
            "{folder}: another process publishes this folder"
        )?)),
        Err(TryLockError::Error(why)) => Err(EditorFault::at_path(alloc, folder, why)),
    }
}
