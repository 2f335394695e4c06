//! The names in a folder's files: of partials and values in templates, and of keys in data.
use crate::finding::Finding;
use crate::keys::Key;
use crate::place::{Place, place_past};
use crate::reasons::warning_in;
use crate::template_reasons::Call;
use std::alloc::{AllocError, Global};
use std::collections::BTreeSet;

/// A partial that a file calls, or a name of a value that it has.
#[derive(Drop)]
pub(crate) struct TagName {
    pub name: String,
    pub file: String,
    pub place: Place,
}

/// Where a text begins.
const START: Place = Place { line: 1, column: 1 };

/// Adds the tags of a file's text, which come in the order of the text.
pub(crate) fn push_tags(
    alloc: Global,
    tags: &mut Vec<TagName>,
    path: &str,
    body: &str,
    found: &[Call<'_>],
) -> Result<(), AllocError> {
    let text = body.as_bytes();
    let mut at = 0;
    let mut place = START;
    for call in found {
        place = place_past(text, at, place, call.at);
        at = call.at;
        tags.push(TagName {
            name: String::from_str(alloc, call.name)?,
            file: String::from_str(alloc, path)?,
            place,
        })?;
    }
    Ok(())
}

/// Whether a key is the first of its name in its object.
fn is_new(alloc: Global, before: &mut BTreeSet<String>, key: &Key) -> Result<bool, AllocError> {
    let (object, name) = (key.object, key.name.as_str());
    Ok(before.insert(format!(in alloc; "{object} {name}")?)?)
}

/// A key occurs twice in one object.
fn doubled_key(alloc: Global, path: &str, place: Place, key: &Key) -> Result<Finding, AllocError> {
    let name = key.name.as_str();
    let reason = format!(in alloc; "the key `{name}` stands twice here: the later value counts")?;
    warning_in(alloc, path, place, reason)
}

/// Finds the keys that occur twice in one object. `keys` come in the order of the text.
pub(crate) fn doubled_keys(
    alloc: Global,
    path: &str,
    body: &str,
    keys: &[Key],
) -> Result<Vec<Finding>, AllocError> {
    let text = body.as_bytes();
    let mut at = 0;
    let mut place = START;
    let mut before = BTreeSet::new(alloc);
    let mut findings = Vec::new(alloc);
    for key in keys {
        place = place_past(text, at, place, key.at);
        at = key.at;
        if !is_new(alloc, &mut before, key)? {
            findings.push(doubled_key(alloc, path, place, key)?)?;
        }
    }
    Ok(findings)
}

/// Adds the names of keys.
pub(crate) fn add_keys(names: &mut BTreeSet<String>, keys: Vec<Key>) -> Result<(), AllocError> {
    for key in keys {
        let _ = names.insert(key.name)?;
    }
    Ok(())
}
