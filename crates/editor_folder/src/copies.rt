//! Which file of a static copy a page is.
use std::alloc::{AllocError, Global};
use std::collections::BTreeMap;

/// A path with one of these endings names its file as it is.
const ENDINGS: [&str; 7] = [".html", ".css", ".js", ".json", ".svg", ".txt", ".xml"];

/// Why a page has no file of its own.
#[derive(Clone, Copy, Debug, PartialEq, Eq)]
pub enum NoCopy {
    /// Its path has an empty part, `.` or `..`.
    NoPath,
    /// Another page has its file, or a folder of that name, or a file in place of its folder.
    Taken,
}

/// What a path of a static copy is.
#[derive(Clone, Copy, PartialEq, Eq)]
enum Taken {
    File,
    Folder,
}

/// The files of a static copy, and the folders that they are in.
#[derive(Drop)]
pub struct Copies {
    alloc: Global,
    taken: BTreeMap<String, Taken>,
}

/// Whether each part of a path can name a file.
fn has_parts(path: &str) -> bool {
    path.split('/')
        .all(|part| !part.is_empty() && part != "." && part != "..")
}

/// Whether a path names its file as it is.
fn names_file(path: &str) -> bool {
    ENDINGS.iter().any(|ending| path.ends_with(*ending))
}

/// The file of a page without regard to others: `index.html` for `/`, `a/index.html` for `/a` and `/a/`,
/// `a.css` for `/a.css`.
fn file_of(alloc: Global, path: &str) -> Result<Option<String>, AllocError> {
    let below = path.strip_prefix('/').unwrap_or(path);
    let bare = below.strip_suffix('/').unwrap_or(below);
    Ok(Some(if below.is_empty() {
        String::from_str(alloc, "index.html")?
    } else if !has_parts(bare) {
        return Ok(None);
    } else if names_file(below) {
        String::from_str(alloc, bare)?
    } else {
        format!(in alloc; "{bare}/index.html")?
    }))
}

/// The folders that a file is in, the outermost first.
fn folders_of(alloc: Global, file: &str) -> Result<Vec<String>, AllocError> {
    let mut folders = Vec::new(alloc);
    let mut folder = String::new(alloc);
    for part in file.split('/') {
        if !folder.is_empty() {
            folders.push(folder.clone()?)?;
            folder.push('/')?;
        }
        folder.push_str(part)?;
    }
    Ok(folders)
}

impl Copies {
    /// No files.
    pub fn new(alloc: Global) -> Copies {
        Copies {
            alloc,
            taken: BTreeMap::new(alloc),
        }
    }

    /// Whether a file is taken, or one of its folders is taken by a file.
    fn is_taken(&self, file: &str, folders: &[String]) -> bool {
        if self.taken.contains_key(file) {
            return true;
        }
        for folder in folders.iter() {
            if self.taken.get(folder.as_str()) == Some(&Taken::File) {
                return true;
            }
        }
        false
    }

    /// Notes what a path is.
    fn mark(&mut self, path: &str, taken: Taken) -> Result<(), AllocError> {
        let path = String::from_str(self.alloc, path)?;
        drop(self.taken.insert(path, taken)?);
        Ok(())
    }

    /// Notes a file and its folders.
    fn note(&mut self, file: &str, folders: &[String]) -> Result<(), AllocError> {
        for folder in folders {
            self.mark(folder.as_str(), Taken::Folder)?;
        }
        self.mark(file, Taken::File)
    }

    /// Notes a file, unless it is taken. The result says whether it was free.
    fn note_free(&mut self, file: &str) -> Result<bool, AllocError> {
        let folders = folders_of(self.alloc, file)?;
        if self.is_taken(file, &folders) {
            return Ok(false);
        }
        self.note(file, &folders)?;
        Ok(true)
    }

    /// Takes the file of a page, as a path below the copy's folder.
    pub fn take(&mut self, path: &str) -> Result<Result<String, NoCopy>, AllocError> {
        let Some(file) = file_of(self.alloc, path)? else {
            return Ok(Err(NoCopy::NoPath));
        };
        if self.note_free(file.as_str())? {
            Ok(Ok(file))
        } else {
            Ok(Err(NoCopy::Taken))
        }
    }
}
