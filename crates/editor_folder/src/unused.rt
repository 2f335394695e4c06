//! What no page of a folder reaches.
use crate::finding::Finding;
use crate::folder::Folder;
use crate::limits::Nesting;
use crate::reasons::file_warning;
use editor_command::CommandText;
use std::alloc::{AllocError, Global};
use std::collections::BTreeSet;

/// Which templates and partials a folder's pages reach, by their numbers; and those whose calls are still to
/// be followed.
#[derive(Drop)]
struct Reached {
    is: Vec<bool>,
    pending: Vec<usize>,
}

impl Reached {
    /// Notes that pages reach a number. Its calls are followed once.
    fn note(&mut self, number: usize) -> Result<(), AllocError> {
        if let Some(is) = self.is.get_mut(number) {
            if !*is {
                *is = true;
                self.pending.push(number)?;
            }
        }
        Ok(())
    }

    fn has(&self, number: usize) -> bool {
        self.is.get(number).copied().unwrap_or(false)
    }

    /// Follows all calls, those of each number once.
    fn follow(&mut self, nesting: &Nesting<'_>) -> Result<(), AllocError> {
        for _ in 0..nesting.len() {
            let Some(number) = self.pending.pop() else {
                return Ok(());
            };
            for partial in nesting.called_by(number) {
                self.note(*partial)?;
            }
        }
        Ok(())
    }
}

/// What the pages of a folder reach.
fn all_reached(
    alloc: Global,
    folder: &Folder,
    nesting: &Nesting<'_>,
) -> Result<Reached, AllocError> {
    let mut reached = Reached {
        is: vec![in alloc; false; nesting.len()]?,
        pending: Vec::new(alloc),
    };
    for route in folder.routes.iter() {
        if let Some(number) = nesting.template(alloc, route.template.as_str())? {
            reached.note(number)?;
        }
    }
    reached.follow(nesting)?;
    Ok(reached)
}

/// The file of a kind and a name, which have a space between.
fn file_of(alloc: Global, key: &str) -> Result<String, AllocError> {
    match key.split_once(' ') {
        Some(("template", name)) => format!(in alloc; "templates/{name}.mustache"),
        Some(("partial", name)) => format!(in alloc; "partials/{name}.mustache"),
        Some((_, name)) => format!(in alloc; "data/{name}.json"),
        None => String::from_str(alloc, key),
    }
}

/// A file of which nothing is shown.
fn unused(alloc: Global, key: &str) -> Result<Finding, AllocError> {
    let file = file_of(alloc, key)?;
    file_warning(alloc, file.as_str(), "no page of this folder uses it")
}

/// Adds the templates and partials that no page reaches.
fn push_sources(
    alloc: Global,
    folder: &Folder,
    findings: &mut Vec<Finding>,
) -> Result<(), AllocError> {
    let nesting = Nesting::of(alloc, folder)?;
    let reached = all_reached(alloc, folder, &nesting)?;
    for number in 0..nesting.len() {
        if !reached.has(number) {
            findings.push(unused(alloc, nesting.key(number))?)?;
        }
    }
    Ok(())
}

/// The data that routes name, each as a kind and a name.
fn data_named(alloc: Global, folder: &Folder) -> Result<BTreeSet<String>, AllocError> {
    let mut named = BTreeSet::new(alloc);
    for route in folder.routes.iter() {
        let name = route.page_data.as_str();
        let _ = named.insert(format!(in alloc; "data {name}")?)?;
    }
    Ok(named)
}

/// The kind and the name of the data that a command puts, if it puts some.
fn data_in(command: &CommandText) -> Option<&str> {
    let text = str::from_utf8(command.text()).ok()?;
    let (key, _) = text.strip_prefix("put ")?.split_once('\n')?;
    if key.starts_with("data ") {
        Some(key)
    } else {
        None
    }
}

/// Adds the data that no route names.
fn push_data(
    alloc: Global,
    folder: &Folder,
    findings: &mut Vec<Finding>,
) -> Result<(), AllocError> {
    let named = data_named(alloc, folder)?;
    for command in folder.commands.iter() {
        if let Some(key) = data_in(command) {
            if !named.contains(key) {
                findings.push(unused(alloc, key)?)?;
            }
        }
    }
    Ok(())
}

/// Warns of the templates, the partials and the data of a folder that none of its pages reaches.
pub fn unused_of(alloc: Global, folder: &Folder) -> Result<Vec<Finding>, AllocError> {
    let mut findings = Vec::new(alloc);
    push_sources(alloc, folder, &mut findings)?;
    push_data(alloc, folder, &mut findings)?;
    Ok(findings)
}
