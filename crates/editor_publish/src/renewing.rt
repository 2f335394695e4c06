//! The texts that make or remove the pages of a folder.
use editor_files::lent;
use std::alloc::{AllocError, Global};
use std::collections::BTreeSet;

/// What a text puts or removes, by its first line.
#[derive(Clone, Copy)]
struct Subject<'a> {
    kind: &'a str,
    name: &'a str,
    /// The names of the template and of the data, if it puts a route.
    template: Option<&'a str>,
    page_data: Option<&'a str>,
}

fn subject_in(text: &str) -> Option<Subject<'_>> {
    let mut words = text.lines().next()?.split(' ');
    let verb = words.next()?;
    if verb != "put" && verb != "remove" {
        return None;
    }
    Some(Subject {
        kind: words.next()?,
        name: words.next()?,
        template: words.next(),
        page_data: words.next(),
    })
}

/// What pages at some paths are made of: the paths, and the templates and data that their routes name.
#[derive(Drop)]
struct Parts<'a> {
    paths: BTreeSet<&'a str>,
    templates: BTreeSet<&'a str>,
    page_data: BTreeSet<&'a str>,
}

impl<'a> Parts<'a> {
    fn at(alloc: Global, paths: &'a [String]) -> Result<Parts<'a>, AllocError> {
        let mut parts = Parts {
            paths: BTreeSet::new(alloc),
            templates: BTreeSet::new(alloc),
            page_data: BTreeSet::new(alloc),
        };
        for path in paths {
            let _ = parts.paths.insert(path.as_str())?;
        }
        Ok(parts)
    }

    /// Notes what a route names, if it is at one of the paths.
    fn note(&mut self, subject: Subject<'a>) -> Result<(), AllocError> {
        if subject.kind != "route" || !self.paths.contains(subject.name) {
            return Ok(());
        }
        if let Some(name) = subject.template {
            let _ = self.templates.insert(name)?;
        }
        if let Some(name) = subject.page_data {
            let _ = self.page_data.insert(name)?;
        }
        Ok(())
    }

    fn has(&self, subject: Subject<'_>) -> bool {
        match subject.kind {
            "route" | "redirect" => self.paths.contains(subject.name),
            "template" => self.templates.contains(subject.name),
            "data" => self.page_data.contains(subject.name),
            _ => false,
        }
    }
}

/// Which texts put or remove the pages at these paths, and the templates and data that their routes name.
fn are_at(alloc: Global, texts: &[&str], paths: &[String]) -> Result<Vec<bool>, AllocError> {
    let mut parts = Parts::at(alloc, paths)?;
    for text in texts {
        if let Some(subject) = subject_in(text) {
            parts.note(subject)?;
        }
    }
    let mut are = Vec::with_capacity(alloc, texts.len())?;
    for text in texts {
        are.push(subject_in(text).is_some_and(|subject| parts.has(subject)))?;
    }
    Ok(are)
}

/// Whether one of those texts contains the name of a partial.
fn is_called(texts: &[&str], are: &[bool], name: &str) -> bool {
    texts
        .iter()
        .zip(are)
        .any(|(text, is)| *is && text.contains(name))
}

/// Adds the partials whose names one of those texts contains. It returns whether it added some.
fn add_partials(texts: &[&str], are: &mut [bool]) -> bool {
    let mut added = false;
    for (i, text) in texts.iter().enumerate() {
        if are.get(i).copied().unwrap_or(true) {
            continue;
        }
        let Some(subject) = subject_in(text) else {
            continue;
        };
        if subject.kind == "partial" && is_called(texts, are, subject.name) {
            if let Some(is) = are.get_mut(i) {
                *is = true;
                added = true;
            }
        }
    }
    added
}

/// Those of the texts that make or remove the pages at these paths: their routes and redirects, the templates
/// and data that the routes name, and the partials whose names one of these contains, as a call does.
pub(crate) fn texts_of_pages(
    alloc: Global,
    texts: &[&str],
    paths: &[String],
) -> Result<Vec<String>, AllocError> {
    let mut found = Vec::new(alloc);
    if paths.is_empty() {
        return Ok(found);
    }
    let mut are = are_at(alloc, texts, paths)?;
    for _ in 0..texts.len() {
        if !add_partials(texts, are.as_mut_slice()) {
            break;
        }
    }
    for (text, is) in texts.iter().zip(&are) {
        if *is {
            found.push(String::from_str(alloc, text)?)?;
        }
    }
    Ok(found)
}

/// What a text is about: its kind and its name, separated by a space.
fn subject_of(alloc: Global, text: &str) -> Result<Option<String>, AllocError> {
    let mut words = text.lines().next().unwrap_or("").split(' ');
    let _ = words.next();
    match (words.next(), words.next()) {
        (Some(kind), Some(name)) => Ok(Some(format!(in alloc; "{kind} {name}")?)),
        _ => Ok(None),
    }
}

/// What texts are about, each once.
fn subjects_of(alloc: Global, texts: &[&str]) -> Result<BTreeSet<String>, AllocError> {
    let mut subjects = BTreeSet::new(alloc);
    for text in texts {
        if let Some(subject) = subject_of(alloc, text)? {
            let _ = subjects.insert(subject)?;
        }
    }
    Ok(subjects)
}

/// Those of the texts that are about nothing that one of the others is about.
pub(crate) fn apart_from(
    alloc: Global,
    texts: Vec<String>,
    others: &[&str],
) -> Result<Vec<String>, AllocError> {
    let subjects = subjects_of(alloc, others)?;
    let mut apart = Vec::new(alloc);
    for text in texts {
        if let Some(subject) = subject_of(alloc, text.as_str())? {
            if !subjects.contains(subject.as_str()) {
                apart.push(text)?;
            }
        }
    }
    Ok(apart)
}

/// Those of the texts that are about one of these subjects.
fn about<'a>(
    alloc: Global,
    texts: &[&'a str],
    subjects: &BTreeSet<String>,
) -> Result<Vec<&'a str>, AllocError> {
    let mut found = Vec::new(alloc);
    for text in texts {
        if let Some(subject) = subject_of(alloc, text)? {
            if subjects.contains(subject.as_str()) {
                found.push(*text)?;
            }
        }
    }
    Ok(found)
}

/// The texts that make a page while a plan comes into the log: those from before, and those of the plan, in
/// order.
#[derive(Drop)]
pub(crate) struct Course<'a> {
    pub before: Vec<&'a str>,
    pub steps: Vec<&'a str>,
}

/// The course of the pages at these paths, from the texts `before` by the texts of `plan`.
pub(crate) fn course_of<'a>(
    alloc: Global,
    before: &[&'a str],
    plan: &[&'a str],
    paths: &[String],
) -> Result<Course<'a>, AllocError> {
    let mut all = Vec::from_slice(alloc, before)?;
    for text in plan {
        all.push(*text)?;
    }
    let pages = texts_of_pages(alloc, &all, paths)?;
    let subjects = subjects_of(alloc, &lent(alloc, &pages)?)?;
    Ok(Course {
        before: about(alloc, before, &subjects)?,
        steps: about(alloc, plan, &subjects)?,
    })
}
