//! The folder that is previewed, as it is on disk.
use crate::previewed::Previewed;
use crate::shown::Shown;
use editor_common::{EditorFault, say_made};
use editor_files::{read_clean, seen_in};
use editor_folder::release_of;
use std::alloc::{AllocError, Global};
use std::io::Write;
use std::rt::{Clock, Files};
use std::time::{SystemTime, UNIX_EPOCH};

/// A folder, whether files that are not part of a site are ignored in it, and the last report on it.
#[derive(Drop)]
pub(crate) struct Source<'a> {
    folder: &'a str,
    ignore: bool,
    told: Vec<u8>,
}

/// Milliseconds since 1970. A preview counts from this number on, so its numbers grow over several runs.
fn first_number<C: Clock>(clock: &C) -> Result<u64, EditorFault> {
    let Ok(now) = SystemTime::now(clock) else {
        return Err(EditorFault::Clock);
    };
    match now.duration_since(UNIX_EPOCH) {
        Ok(passed) => Ok(u64::try_from(passed.as_millis()).unwrap_or(1).max(1)),
        Err(_) => Err(EditorFault::Clock),
    }
}

/// What is wrong, as a text.
fn faults_of(alloc: Global, told: &[u8]) -> Result<Shown, AllocError> {
    Ok(Shown::Faults(String::from_utf8_lossy(alloc, told)?))
}

/// How a folder's files look, or the system's message about them.
fn looks_of<R: Files + AllocGlobal + Clone + Drop>(
    rt: &R,
    folder: &str,
    ignore: bool,
) -> Result<String, EditorFault> {
    match seen_in(rt, folder, ignore) {
        Err(EditorFault::OutOfMemory) => Err(EditorFault::OutOfMemory),
        Err(fault) => Ok(format!(in rt.alloc(); "{fault}\n")?),
        Ok(seen) => Ok(seen),
    }
}

impl<'a> Source<'a> {
    /// Nothing was reported yet.
    pub(crate) fn new(alloc: Global, folder: &'a str, ignore: bool) -> Source<'a> {
        Source {
            folder,
            ignore,
            told: Vec::new(alloc),
        }
    }

    /// The folder's release, or its faults. All that is wrong with it is added to `told`.
    fn read<R: Files + AllocGlobal + Clone + Drop>(
        &self,
        rt: &R,
        told: &mut Vec<u8>,
    ) -> Result<Shown, EditorFault> {
        match read_clean(rt, told, self.folder, self.ignore) {
            Ok(Some(clean)) => Ok(Shown::Pages(release_of(rt.alloc(), &clean.folder)?)),
            Ok(None) => Ok(faults_of(rt.alloc(), told.as_slice())?),
            Err(EditorFault::OutOfMemory) => Err(EditorFault::OutOfMemory),
            Err(fault) => {
                say_made(told, format!(in rt.alloc(); "{fault}"))?;
                Ok(faults_of(rt.alloc(), told.as_slice())?)
            }
        }
    }

    /// Writes what is wrong with the folder, if that differs from the last report.
    fn tell<E: Write>(
        &mut self,
        alloc: Global,
        err: &mut E,
        told: Vec<u8>,
    ) -> Result<(), EditorFault> {
        if told == self.told {
            return Ok(());
        }
        let folder = self.folder;
        if told.is_empty() {
            say_made(err, format!(in alloc; "{folder}: no fault"))?;
        }
        if err.write_all(told.as_slice()).is_err() {
            return Err(EditorFault::Write);
        }
        self.told = told;
        Ok(())
    }

    /// Reads the folder, and reports what is wrong with it.
    fn read_told<R: Files + AllocGlobal + Clone + Drop, E: Write>(
        &mut self,
        rt: &R,
        err: &mut E,
    ) -> Result<Shown, EditorFault> {
        let mut told = Vec::new(rt.alloc());
        let shown = self.read(rt, &mut told)?;
        self.tell(rt.alloc(), err, told)?;
        Ok(shown)
    }

    /// The folder as it is at first. Fails if the folder cannot be looked into.
    pub(crate) fn open<R: Files + Clock + AllocGlobal + Clone + Drop, E: Write>(
        &mut self,
        rt: &R,
        err: &mut E,
    ) -> Result<Previewed, EditorFault> {
        let seen = seen_in(rt, self.folder, self.ignore)?;
        let shown = self.read_told(rt, err)?;
        Ok(Previewed::new(first_number(rt)?, seen, shown))
    }

    /// Shows the folder as it is now. The folder is looked at before it is read. So what is written meanwhile
    /// looks different the next time.
    pub(crate) fn show<R: Files + AllocGlobal + Clone + Drop, E: Write>(
        &mut self,
        rt: &R,
        err: &mut E,
        previewed: &mut Previewed,
    ) -> Result<(), EditorFault> {
        let seen = looks_of(rt, self.folder, self.ignore)?;
        if !previewed.is_as(seen.as_str()) {
            let shown = self.read_told(rt, err)?;
            previewed.change(seen, shown);
        }
        Ok(())
    }
}
