//! What becomes the next release: a folder's files, or an earlier release of it.
use crate::going_back::tell_disk;
use editor_common::{EditorFault, Outcome, say_made};
use editor_files::{
    Clean, Read, clean_of, lent, list_findings, new_editor, read_folder, read_ledger,
    release_texts, texts_of,
};
use editor_ledger::Ledger;
use editor_options::PublishWord;
use serde_json::Value;
use std::alloc::{AllocError, Global};
use std::io::Write;
use std::random::RandomSource;
use std::rt::Files;

/// What becomes the next release, and the ledger of its folder.
#[derive(Drop)]
pub(crate) struct NextRelease {
    pub texts: Texts,
    pub ledger: Ledger,
}

/// The texts of the next release.
#[derive(Drop)]
pub(crate) enum Texts {
    /// Those of the folder's files.
    Files(Clean),
    /// Those of an earlier release.
    Earlier(Vec<String>),
}

impl Texts {
    /// The texts, lent.
    pub(crate) fn lent(&self, alloc: Global) -> Result<Vec<&str>, AllocError> {
        match self {
            Texts::Files(clean) => texts_of(alloc, &clean.folder),
            Texts::Earlier(texts) => lent(alloc, texts),
        }
    }
}

/// Why a ledger is refused that belongs to another editor than the one who is named.
fn belongs(alloc: Global, folder: &str, editor: u32) -> Result<EditorFault, AllocError> {
    Ok(EditorFault::Stop(format!(in alloc; "{folder}/published: belongs to editor {editor}")?))
}

fn new_ledger<R: RandomSource + AllocGlobal>(
    rt: &R,
    editor: Option<u32>,
) -> Result<Ledger, EditorFault> {
    match editor {
        Some(editor) => Ok(Ledger::new(rt.alloc(), editor)),
        None => Ok(Ledger::new(rt.alloc(), new_editor(rt)?)),
    }
}

/// The ledger of a folder, or a new one.
fn ledger_of<R: Files + RandomSource + AllocGlobal>(
    rt: &R,
    folder: &str,
    editor: Option<u32>,
) -> Result<Ledger, EditorFault> {
    match read_ledger(rt, folder)? {
        Some(ledger) => {
            let owner = ledger.editor();
            if owner != editor.unwrap_or(owner) {
                return Err(belongs(rt.alloc(), folder, owner)?);
            }
            Ok(ledger)
        }
        None => new_ledger(rt, editor),
    }
}

/// The ledger of a folder that has published.
fn ledger_there<R: Files + RandomSource + AllocGlobal>(
    rt: &R,
    how: &PublishWord<'_>,
) -> Result<Ledger, EditorFault> {
    let ledger = ledger_of(rt, how.folder, how.editor)?;
    if ledger.next() == 1 {
        let folder = String::from_str(rt.alloc(), how.folder)?;
        return Err(EditorFault::Unpublished(folder));
    }
    Ok(ledger)
}

/// Reports that a folder has no page.
fn tell_no_page<E: Write>(alloc: Global, err: &mut E, folder: &str) -> Result<(), EditorFault> {
    Ok(say_made(
        err,
        format!(in alloc;
            "{folder}: no page, so nothing was sent: each line of its file routes is one"
        ),
    )?)
}

/// Keeps what is wrong with a folder that was read.
fn keep_findings(alloc: Global, outcome: &mut Outcome, read: &Read) -> Result<(), AllocError> {
    let mut findings = Vec::new(alloc);
    list_findings(alloc, &mut findings, &read.findings)?;
    outcome.put(alloc, "findings", Value::Array(findings))
}

impl NextRelease {
    /// The folder's files, if they have no fault and at least one page. Otherwise it reports why they cannot
    /// be a release.
    fn of_files<R: Files + RandomSource + AllocGlobal + Clone + Drop, E: Write>(
        rt: &R,
        err: &mut E,
        outcome: &mut Outcome,
        how: &PublishWord<'_>,
    ) -> Result<Option<NextRelease>, EditorFault> {
        let (alloc, folder) = (rt.alloc(), how.folder);
        let read = read_folder(rt, folder, how.ignore)?;
        keep_findings(alloc, outcome, &read)?;
        let Some(clean) = clean_of(alloc, err, folder, read)? else {
            return Ok(None);
        };
        if clean.pages.is_empty() {
            tell_no_page(alloc, err, folder)?;
            return Ok(None);
        }
        let ledger = ledger_of(rt, folder, how.editor)?;
        Ok(Some(NextRelease {
            texts: Texts::Files(clean),
            ledger,
        }))
    }

    /// An earlier release, once more. The folder's files stay as they are.
    fn of_release<R: Files + RandomSource + AllocGlobal + Clone + Drop, E: Write>(
        rt: &R,
        err: &mut E,
        outcome: &mut Outcome,
        how: &PublishWord<'_>,
        release: u64,
    ) -> Result<NextRelease, EditorFault> {
        let ledger = ledger_there(rt, how)?;
        let texts = release_texts(rt.alloc(), how.folder, &ledger, release)?;
        tell_disk(rt, err, outcome, how, release, &lent(rt.alloc(), &texts)?)?;
        Ok(NextRelease {
            texts: Texts::Earlier(texts),
            ledger,
        })
    }

    /// The release that is asked for, or the folder's files, if they can be one.
    pub(crate) fn of<R: Files + RandomSource + AllocGlobal + Clone + Drop, E: Write>(
        rt: &R,
        err: &mut E,
        outcome: &mut Outcome,
        how: &PublishWord<'_>,
    ) -> Result<Option<NextRelease>, EditorFault> {
        match how.release {
            Some(release) => Ok(Some(NextRelease::of_release(rt, err, outcome, how, release)?)),
            None => NextRelease::of_files(rt, err, outcome, how),
        }
    }
}
