//! Reads the files of a folder, and writes files.
ghost use Rattle.std.specs.Prelude.{IfErr};
ghost use Rattle.editor_common.specs.Faults.{IsAtPath};

use editor_common::EditorFault;
use editor_folder::{SiteFile, is_of_site, is_part, is_passed_over};
use std::alloc::{AllocError, Global};
use std::collections::BTreeMap;
use std::fs::Metadata;
use std::os::unix::fs::MetadataExt;
use std::rt::Files;
use std::{fs, io};

/// The most folders that are searched: a link may lead back.
const MAX_FOLDERS: u32 = 10_000;

/// What an editor's program keeps in a folder beside the site's files.
const KEPT: &str = "published";

/// What is taken of a file.
#[derive(Clone, Copy)]
enum Taking {
    /// Its bytes.
    Bytes,
    /// How it looks from outside: the text changes if the file is written.
    Looks,
}

/// The files of a folder, in the order of their paths, and how many files and folders were ignored, except
/// those whose names begin with a dot.
#[derive(Drop)]
pub(crate) struct Found {
    pub files: Vec<SiteFile>,
    pub passed_over: usize,
}

/// A folder while it is searched.
#[derive(Drop)]
struct Search {
    /// Files by their paths.
    files: BTreeMap<String, Vec<u8>>,
    /// Folders that are still to be searched.
    pending: Vec<String>,
    passed_over: usize,
    wanted: Wanted,
    taking: Taking,
}

/// What is looked for in a folder.
#[derive(Clone, Copy)]
enum Wanted {
    /// The files of a site; `ignore` says whether others are ignored.
    Site { ignore: bool },
    /// A generator's pages and its sitemap, and only the names of other files.
    Pages,
}

/// What a path below a folder is.
#[derive(Clone, Copy)]
enum Kind {
    /// A folder of a site's files.
    Part,
    /// A file of a site.
    Site,
    /// A file of which only the name is wanted.
    Named,
    /// None of these.
    Other,
}

/// A path and a name below it. Either may be empty.
pub fn below(alloc: Global, path: &str, name: &str) -> Result<String, AllocError> {
    if path.is_empty() {
        return String::from_str(alloc, name);
    }
    if name.is_empty() {
        return String::from_str(alloc, path);
    }
    format!(in alloc; "{path}/{name}")
}

/// What the system gave for a path, or what it says of the path.
pub(crate) fn at<T>(alloc: Global, path: &str, given: io::Result<T>) -> Result<T, EditorFault>
    ensures { IfErr result (IsAtPath path.now) }
{
    match given {
        Ok(given) => Ok(given),
        Err(fault) => Err(EditorFault::at_path(alloc, path, fault)),
    }
}

/// What a folder or a file at a path below a generator's is to it.
fn page_kind(is_folder: bool, path: &str) -> Kind {
    if is_folder {
        Kind::Part
    } else if path.ends_with(".html") || path == "sitemap.xml" {
        Kind::Site
    } else {
        Kind::Named
    }
}

/// What a folder or a file at a path below the folder is to a site.
fn site_kind(is_folder: bool, path: &str) -> Kind {
    if is_folder {
        if is_part(path) {
            Kind::Part
        } else {
            Kind::Other
        }
    } else if is_of_site(path) {
        Kind::Site
    } else {
        Kind::Other
    }
}

impl Wanted {
    /// Whether a path is not looked at.
    fn skips(self, path: &str) -> bool {
        match self {
            Wanted::Site { .. } => path == KEPT,
            Wanted::Pages => false,
        }
    }

    /// Whether a path is ignored.
    fn passes_over(self, path: &str) -> bool {
        match self {
            Wanted::Site { .. } => is_passed_over(path),
            Wanted::Pages => path.split('/').any(|name| name.starts_with('.')),
        }
    }

    /// What a folder or a file at a path is.
    fn kind_at(self, is_folder: bool, path: &str) -> Kind {
        match self {
            Wanted::Site { .. } => site_kind(is_folder, path),
            Wanted::Pages => page_kind(is_folder, path),
        }
    }

    /// Whether files of no kind are ignored.
    fn ignores(self) -> bool {
        matches!(self, Wanted::Site { ignore: true })
    }
}

/// How a file looks from outside.
fn looks_of(alloc: Global, found: &Metadata) -> Result<Vec<u8>, AllocError> {
    let (size, inode) = (found.size(), found.ino());
    let (seconds, nanos) = (found.mtime(), found.mtime_nsec());
    Ok(format!(in alloc; "{size} {inode} {seconds} {nanos}")?.into_bytes())
}

/// What the system says of an entry of a folder; it gives no name that is not UTF-8.
fn entry_fault(fault: io::Error) -> io::Error {
    if fault.kind() == io::ErrorKind::InvalidFilename {
        io::Error::new(
            fault.kind(),
            "a name in this folder is not UTF-8 (ls -b shows it): rename it",
        )
    } else {
        fault
    }
}

/// The names in a folder.
fn list<R: Files + AllocGlobal + Clone + Drop>(rt: &R, whole: &str) -> io::Result<Vec<String>> {
    let mut names = Vec::new(rt.alloc());
    for entry in fs::read_dir(rt, whole)? {
        let entry = entry.map_err(entry_fault)?;
        names.push(String::from_str(rt.alloc(), entry.file_name())?)?;
    }
    Ok(names)
}

impl Search {
    fn pass_over(&mut self) {
        self.passed_over = self.passed_over.saturating_add(1);
    }

    fn put_off(&mut self, alloc: Global, path: &str) -> Result<(), AllocError> {
        self.pending.push(String::from_str(alloc, path)?)?;
        Ok(())
    }

    /// Puts what is not part of a site. A folder in place of a site's file gets a slash after its name.
    fn put_other(&mut self, alloc: Global, path: &str) -> Result<(), AllocError> {
        let path = if is_of_site(path) {
            format!(in alloc; "{path}/")?
        } else {
            String::from_str(alloc, path)?
        };
        drop(self.files.insert(path, Vec::new(alloc))?);
        Ok(())
    }

    fn put(&mut self, alloc: Global, path: &str, bytes: Vec<u8>) -> Result<(), AllocError> {
        drop(self.files.insert(String::from_str(alloc, path)?, bytes)?);
        Ok(())
    }
}

/// Why what is not a file, as a queue or a device, is not read: that might never end.
pub(crate) fn not_a_file() -> io::Error {
    io::Error::new(io::ErrorKind::InvalidInput, "not a file")
}

/// What is taken of a file at a path. `found` is what the system says of it.
fn taken_of<R: Files + AllocGlobal>(
    rt: &R,
    whole: &str,
    found: &Metadata,
    taking: Taking,
) -> Result<Vec<u8>, EditorFault> {
    if !found.is_file() {
        return Err(EditorFault::at_path(rt.alloc(), whole, not_a_file()));
    }
    match taking {
        Taking::Bytes => at(rt.alloc(), whole, fs::read(rt, whole)),
        Taking::Looks => Ok(looks_of(rt.alloc(), found)?),
    }
}

/// Takes what is at a path below the folder. `whole` is the path with the folder before it.
fn take_at<R: Files + AllocGlobal>(
    rt: &R,
    whole: &str,
    path: &str,
    search: &mut Search,
) -> Result<(), EditorFault> {
    let alloc = rt.alloc();
    let found = at(alloc, whole, fs::metadata(rt, whole))?;
    match search.wanted.kind_at(found.is_dir(), path) {
        Kind::Part => search.put_off(alloc, path)?,
        Kind::Site => {
            let taken = taken_of(rt, whole, &found, search.taking)?;
            search.put(alloc, path, taken)?
        }
        Kind::Named => search.put(alloc, path, Vec::new(alloc))?,
        Kind::Other if search.wanted.ignores() => search.pass_over(),
        Kind::Other => search.put_other(alloc, path)?,
    }
    Ok(())
}

/// Whether a name begins with a dot: git's and editors' own files, of which nobody wants a report.
fn begins_with_a_dot(path: &str) -> bool {
    path.rsplit_once('/')
        .map_or(path, |(_, name)| name)
        .starts_with('.')
}

/// Takes what is at a path below the folder.
fn take<R: Files + AllocGlobal>(
    rt: &R,
    root: &str,
    path: &str,
    search: &mut Search,
) -> Result<(), EditorFault> {
    if search.wanted.skips(path) {
        return Ok(());
    }
    if search.wanted.passes_over(path) {
        if !begins_with_a_dot(path) {
            search.pass_over();
        }
        return Ok(());
    }
    let whole = below(rt.alloc(), root, path)?;
    take_at(rt, whole.as_str(), path, search)
}

/// Takes what has these names in a folder below the site's.
fn take_names<R: Files + AllocGlobal>(
    rt: &R,
    root: &str,
    folder: &str,
    names: &[String],
    search: &mut Search,
) -> Result<(), EditorFault> {
    for name in names {
        let path = below(rt.alloc(), folder, name.as_str())?;
        take(rt, root, path.as_str(), search)?;
    }
    Ok(())
}

/// Searches a folder below the site's.
fn look_in<R: Files + AllocGlobal + Clone + Drop>(
    rt: &R,
    root: &str,
    folder: &str,
    search: &mut Search,
) -> Result<(), EditorFault> {
    let whole = below(rt.alloc(), root, folder)?;
    let names = at(rt.alloc(), whole.as_str(), list(rt, whole.as_str()))?;
    take_names(rt, root, folder, &names, search)
}

/// Searches all folders of a site.
fn look_around<R: Files + AllocGlobal + Clone + Drop>(
    rt: &R,
    root: &str,
    search: &mut Search,
) -> Result<(), EditorFault> {
    look_in(rt, root, "", search)?;
    for _ in 0..MAX_FOLDERS {
        match search.pending.pop() {
            Some(folder) => look_in(rt, root, folder.as_str(), search)?,
            None => return Ok(()),
        }
    }
    if search.pending.is_empty() {
        return Ok(());
    }
    Err(EditorFault::ManyFolders)
}

/// Looks for the files of a folder, and takes of each what `taking` says.
fn look_for<R: Files + AllocGlobal + Clone + Drop>(
    rt: &R,
    root: &str,
    wanted: Wanted,
    taking: Taking,
) -> Result<Found, EditorFault> {
    let alloc = rt.alloc();
    let mut search = Search {
        files: BTreeMap::new(alloc),
        pending: Vec::new(alloc),
        passed_over: 0,
        wanted,
        taking,
    };
    look_around(rt, root, &mut search)?;
    found_in(alloc, search)
}

/// Reads the files of a folder.
pub(crate) fn files_of<R: Files + AllocGlobal + Clone + Drop>(
    rt: &R,
    root: &str,
    ignore: bool,
) -> Result<Found, EditorFault> {
    look_for(rt, root, Wanted::Site { ignore }, Taking::Bytes)
}

/// A line for each file, its path first.
fn lines_of(alloc: Global, files: &[SiteFile]) -> Result<String, AllocError> {
    let mut lines = String::new(alloc);
    for file in files {
        lines.push_str(file.path.as_str())?;
        lines.push(' ')?;
        lines.push_str(str::from_utf8(&file.bytes).unwrap_or(""))?;
        lines.push('\n')?;
    }
    Ok(lines)
}

/// How the files of a folder look from outside, without a read of any. The text changes if a file came, went
/// or was written, as its time, size or inode shows.
pub fn seen_in<R: Files + AllocGlobal + Clone + Drop>(
    rt: &R,
    root: &str,
    ignore: bool,
) -> Result<String, EditorFault> {
    let found = look_for(rt, root, Wanted::Site { ignore }, Taking::Looks)?;
    Ok(lines_of(rt.alloc(), &found.files)?)
}

/// The files below a folder of another generator's pages, in the order of their paths. Pages, whose names end
/// in `.html`, and `sitemap.xml` have their bytes; others have none. Names that begin with a dot are ignored.
pub fn pages_below<R: Files + AllocGlobal + Clone + Drop>(
    rt: &R,
    root: &str,
) -> Result<Vec<SiteFile>, EditorFault> {
    Ok(look_for(rt, root, Wanted::Pages, Taking::Bytes)?.files)
}

/// What was found.
fn found_in(alloc: Global, search: Search) -> Result<Found, EditorFault> {
    let Search {
        files,
        passed_over,
        ..
    } = search;
    Ok(Found {
        files: files
            .into_iter()
            .map(|(path, bytes)| SiteFile { path, bytes })
            .collect(alloc)?,
        passed_over,
    })
}

/// Whether a folder is absent or empty.
pub fn is_free<R: Files + AllocGlobal + Clone + Drop>(
    rt: &R,
    folder: &str,
) -> Result<bool, EditorFault> {
    match list(rt, folder) {
        Ok(names) => Ok(names.is_empty()),
        Err(fault) if fault.kind() == io::ErrorKind::NotFound => Ok(true),
        Err(fault) => Err(EditorFault::at_path(rt.alloc(), folder, fault)),
    }
}

/// Makes the folders that a file is in.
fn make_folders<R: Files + AllocGlobal>(rt: &R, path: &str) -> Result<(), EditorFault> {
    let Some((folder, _)) = path.rsplit_once('/') else {
        return Ok(());
    };
    at(rt.alloc(), folder, fs::create_dir_all(rt, folder))
}

/// Writes a file, and makes the folders that it is in.
pub fn write_file<R: Files + AllocGlobal>(
    rt: &R,
    path: &str,
    text: &str,
) -> Result<(), EditorFault> {
    make_folders(rt, path)?;
    at(rt.alloc(), path, fs::write(rt, path, text))
}
