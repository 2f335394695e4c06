//! A release of a folder's history becomes the next one.
use editor_common::{EditorFault, Outcome, say_made};
use editor_files::{Read, read_folder, texts_of};
use editor_options::PublishWord;
use serde_json::Value;
use std::alloc::{AllocError, Global};
use std::collections::BTreeSet;
use std::io::Write;
use std::rt::Files;

/// The texts that put something, each once.
fn puts_of(alloc: Global, texts: &[&str]) -> Result<BTreeSet<String>, AllocError> {
    let mut puts = BTreeSet::new(alloc);
    for text in texts {
        if text.starts_with("put ") {
            let _ = puts.insert(String::from_str(alloc, text)?)?;
        }
    }
    Ok(puts)
}

/// Whether texts put the same.
fn put_the_same(alloc: Global, texts: &[&str], others: &[&str]) -> Result<bool, AllocError> {
    let (puts, others) = (puts_of(alloc, texts)?, puts_of(alloc, others)?);
    Ok(puts.len() == others.len() && puts.iter().all(|text| others.contains(text)))
}

/// Whether a folder, as it was read, puts what these texts put.
fn has_texts(alloc: Global, read: &Read, texts: &[&str]) -> Result<bool, AllocError> {
    if read.has_fault() {
        return Ok(false);
    }
    put_the_same(alloc, &texts_of(alloc, &read.folder)?, texts)
}

/// Reports if the files of a folder are not those of a release that is published again.
pub(crate) fn tell_disk<R: Files + AllocGlobal + Clone + Drop, E: Write>(
    rt: &R,
    err: &mut E,
    outcome: &mut Outcome,
    how: &PublishWord<'_>,
    release: u64,
    texts: &[&str],
) -> Result<(), EditorFault> {
    let (alloc, folder) = (rt.alloc(), how.folder);
    let read = read_folder(rt, folder, how.ignore)?;
    let same = has_texts(alloc, &read, texts)?;
    outcome.put(alloc, "files_differ", Value::from(!same))?;
    if same {
        return Ok(());
    }
    Ok(say_made(
        err,
        format!(in alloc;
            "{folder}: its files are not those of release {release}, and publishing it without --release \
             puts them again; sitepub restore {folder} {release} OUT writes those of the release"
        ),
    )?)
}
