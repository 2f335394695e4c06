//! The texts of a release that a folder made.
ghost use Rattle.std.specs.Prelude.{◌≡◌, map, IfOk, string_bytes};
ghost use Rattle.editor_files.specs.Releases.{HasTexts};

use editor_common::EditorFault;
use editor_ledger::Ledger;
use editor_plan::ticket_of;
use std::alloc::{AllocError, Global};

/// Why a release's texts are not there.
fn lost(
    alloc: Global,
    folder: &str,
    release: u64,
    ticket: Option<u64>,
) -> Result<EditorFault, AllocError> {
    let words = match ticket {
        Some(_) => format!(in alloc;
            "{folder}/published: keeps no texts of release {release}, as the sitepub that made it kept none: \
             take them from git, or from a backup"
        )?,
        None => format!(in alloc;
            "{folder}: made no release {release}: sitepub log {folder} prints those that it made"
        )?,
    };
    Ok(EditorFault::Stop(words))
}

/// The texts of a release that a folder made, each about another kind and name.
pub fn release_texts(
    alloc: Global,
    folder: &str,
    ledger: &Ledger,
    release: u64,
) -> Result<Vec<String>, EditorFault>
    ensures { IfOk result (λ texts. HasTexts release ledger.now (map string_bytes texts.items)) }
{
    let ticket = ticket_of(ledger, release);
    match ticket {
        Some(last) if ledger.reaches(last) => Ok(ledger.texts_at(alloc, last)?),
        _ => Err(lost(alloc, folder, release, ticket)?),
    }
}

/// The texts, borrowed.
pub fn lent(alloc: Global, texts: &[String]) -> Result<Vec<&str>, AllocError>
    ensures { IfOk result (λ lent. map (λ t. t.now) lent.items ≡ map string_bytes texts.now) }
{
    let mut lent = Vec::new(alloc);
    for text in texts {
        lent.push(text.as_str())?;
    }
    Ok(lent)
}
