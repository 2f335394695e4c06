//! Folders by their files.
use crate::comparing::{ensure, same};
use editor_folder::{
    BEGINNING, Finding, Folder, Page, SiteFile, Weight, folder_of, page_faults, pages_of,
};
use std::alloc::{AllocError, Global};
use std::process::Abort;

fn file(alloc: Global, path: &str, bytes: &[u8]) -> Result<SiteFile, AllocError> {
    Ok(SiteFile {
        path: String::from_str(alloc, path)?,
        bytes: Vec::from_slice(alloc, bytes)?,
    })
}

pub(crate) fn push_file(
    alloc: Global,
    files: &mut Vec<SiteFile>,
    path: &str,
    bytes: &[u8],
) -> Result<(), AllocError> {
    let file = file(alloc, path, bytes)?;
    Ok(files.push(file)?)
}

/// A folder of these files, each a path and a text.
pub(crate) fn files(alloc: Global, rows: &[(&str, &[u8])]) -> Result<Vec<SiteFile>, AllocError> {
    let mut files = Vec::new(alloc);
    for (path, bytes) in rows {
        push_file(alloc, &mut files, path, bytes)?;
    }
    Ok(files)
}

fn line(alloc: Global, finding: &Finding) -> Result<String, AllocError> {
    format!(in alloc; "{finding}\n")
}

/// What is wrong, one line for each finding.
pub(crate) fn lines_of(alloc: Global, findings: &[Finding]) -> Result<String, AllocError> {
    let mut lines = String::new(alloc);
    for finding in findings {
        lines.push_str(line(alloc, finding)?.as_str())?;
    }
    Ok(lines)
}

fn folder_in(rt: &impl Abort, alloc: Global, files: &[SiteFile]) -> Folder {
    folder_of(alloc, files).expect(rt, "memory")
}

/// The folder of these files. No allocation may fail.
pub(crate) fn folder(rt: &impl Abort, alloc: Global, rows: &[(&str, &[u8])]) -> Folder {
    let files = files(alloc, rows).expect(rt, "memory");
    folder_in(rt, alloc, files.as_slice())
}

/// Checks that these lines report all that is wrong with a folder.
pub(crate) fn is_told(rt: &impl Abort, alloc: Global, folder: &Folder, lines: &str) {
    let found = lines_of(alloc, &folder.findings).expect(rt, "memory");
    same(rt, found.as_str(), lines);
}

/// All that is wrong with the pages of a folder.
pub(crate) fn page_lines(alloc: Global, folder: &Folder) -> Result<String, AllocError> {
    let pages = pages_of(alloc, folder)?;
    let faults = page_faults(alloc, folder, &pages)?;
    lines_of(alloc, &faults)
}

fn pages(rt: &impl Abort, alloc: Global, folder: &Folder) -> Vec<Page> {
    pages_of(alloc, folder).expect(rt, "memory")
}

/// Two pages, with a partial; one path that moved, and one that has a redirect and a route.
pub(crate) const SITE: &[(&str, &[u8])] = &[
    ("data/a.json", b"{\"x\":1}"),
    ("partials/p.mustache", b"<{{x}}>\n"),
    ("routes", b"# the pages\r\n\r\n/ t a\r\n  /b \t t   a\n"),
    ("redirects", b"# moved\n/c\t/b\n/b /\n"),
    ("removes", b"data old\n# gone\nredirect /old\n"),
    ("templates/t.mustache", b"{{>p}}"),
];

const WARNING: &str =
    "redirects:3:1: warning: /b has a route too, in line 4 of routes: its page is shown, and nobody is led on\n";

/// The commands of that site, and the lines of its routes.
const COMMANDS: &[&[u8]] = &[
    b"put template t\n{{>p}}",
    b"put partial p\n<{{x}}>\n",
    b"put data a\n{\"x\":1}",
    b"put route / t a\n",
    b"put route /b t a\n",
    b"put redirect /c /b\n",
    b"put redirect /b /\n",
    b"remove data old\n",
    b"remove redirect /old\n",
];

const LINES: &[usize] = &[3, 4];

fn has_commands(rt: &impl Abort, folder: &Folder) {
    same(rt, folder.commands.len(), COMMANDS.len());
    for (command, text) in folder.commands.iter().zip(COMMANDS) {
        ensure(rt, command.text() == *text, text.len());
    }
}

fn has_routes(rt: &impl Abort, folder: &Folder) {
    same(rt, folder.routes.len(), LINES.len());
    for (route, line) in folder.routes.iter().zip(LINES) {
        same(rt, route.line, *line);
    }
}

#[test]
fn the_commands_of_a_folder(rt: HostRuntime) {
    let folder = folder(&rt, rt.alloc(), SITE);
    is_told(&rt, rt.alloc(), &folder, WARNING);
    has_commands(&rt, &folder);
    has_routes(&rt, &folder);
}

/// A path, the file and the line that have it, its status and its text.
type PageRow = (&'static str, (&'static str, usize), u16, &'static str);

/// The pages of that site: each path, its line, its status and its text.
const PAGES: &[PageRow] = &[
    ("/", ("routes", 3), 200, "<1>\n"),
    ("/b", ("routes", 4), 200, "<1>\n"),
    (
        "/c",
        ("redirects", 2),
        301,
        "<!DOCTYPE html>\n<meta charset=\"utf-8\">\n<link rel=\"canonical\" href=\"/b\">\n<meta http-equiv=\"refresh\" content=\"0; url=/b\">\n<title>Moved</title>\n<p>Moved to <a href=\"/b\">/b</a></p>\n",
    ),
];

fn is_page(rt: &impl Abort, page: &Page, wanted: PageRow) {
    let (path, at, status, body) = wanted;
    same(rt, (page.path.as_str(), page.status), (path, status));
    same(rt, (page.file, page.line), at);
    same(rt, page.body.as_str(), body);
}

fn are_pages(rt: &impl Abort, pages: &[Page]) {
    same(rt, pages.len(), PAGES.len());
    for (page, wanted) in pages.iter().zip(PAGES) {
        is_page(rt, page, *wanted);
    }
}

/// Checks that these lines report what is wrong with the pages of a folder.
pub(crate) fn are_told(rt: &impl Abort, alloc: Global, folder: &Folder, lines: &str) {
    let found = page_lines(alloc, folder).expect(rt, "memory");
    same(rt, found.as_str(), lines);
}

#[test]
fn the_pages_of_a_folder(rt: HostRuntime) {
    let folder = folder(&rt, rt.alloc(), SITE);
    are_pages(&rt, pages(&rt, rt.alloc(), &folder).as_slice());
    are_told(&rt, rt.alloc(), &folder, "");
}

/// The pages of the small site to start from, each with the text between its head and its foot.
const BEGUN: &[(&str, &str)] = &[
    (
        "/",
        "<h1>A site</h1>
<p>Change data/start.json, and look again.</p>
<ul>
<li>templates: how pages look</li>
<li>data: what they say</li>
<li>routes: where they are</li>
</ul>
",
    ),
    (
        "/about",
        "<h1>About</h1>
<p>Who writes here, and how to reach us.</p>
",
    ),
];

fn beginning(alloc: Global) -> Result<Vec<SiteFile>, AllocError> {
    let mut files = Vec::new(alloc);
    for (path, text) in BEGINNING {
        push_file(alloc, &mut files, path, text.as_bytes())?;
    }
    Ok(files)
}

fn is_begun(rt: &impl Abort, page: &Page, path: &str, text: &str) {
    same(rt, (page.path.as_str(), page.status), (path, 200));
    ensure(rt, page.body.as_str().contains(text), path);
}

fn are_begun(rt: &impl Abort, pages: &[Page]) {
    same(rt, pages.len(), BEGUN.len());
    for (page, &(path, text)) in pages.iter().zip(BEGUN) {
        is_begun(rt, page, path, text);
    }
}

#[test]
fn a_small_site_to_start_from(rt: HostRuntime) {
    let files = beginning(rt.alloc()).expect(&rt, "memory");
    let folder = folder_in(&rt, rt.alloc(), files.as_slice());
    is_told(&rt, rt.alloc(), &folder, "");
    are_begun(&rt, pages(&rt, rt.alloc(), &folder).as_slice());
}

/// A site that calls a partial which it does not have.
const WITHOUT: &[(&str, &[u8])] = &[
    ("data/a.json", b"{}"),
    ("routes", b"\n/ t a\n"),
    ("templates/t.mustache", b"{{>t2}}"),
];

fn warns_alone(rt: &impl Abort, folder: &Folder) {
    for finding in folder.findings.iter() {
        same(rt, finding.weight, Weight::Warning);
    }
}

#[test]
fn a_partial_that_is_not_there(rt: HostRuntime) {
    let without = folder(&rt, rt.alloc(), WITHOUT);
    warns_alone(&rt, &without);
    are_told(&rt, rt.alloc(), &without, "");
}
