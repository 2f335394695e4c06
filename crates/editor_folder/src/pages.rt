//! The pages of a folder, as a node shows them. A page that moved is a file that leads on.
use crate::finding::Finding;
use crate::folder::{Folder, Redirect, Route};
use crate::limits::Nesting;
use crate::moved::moved_page;
use crate::reasons::line_fault;
use command::write;
use release::{Answer, AnswerFault, Releases};
use site_ids::{MAX_INSTANCE, Ticket};
use std::alloc::{AllocError, Global};

/// What a node says of a page that is over limit.
const OVER_LIMIT: &str = "page over limit";

/// A page: its path, its line of `routes` or `redirects`, its status and its text.
#[derive(Drop)]
pub struct Page {
    pub path: String,
    pub file: &'static str,
    pub line: usize,
    pub status: u16,
    pub body: String,
}

/// Feeds a text to the releases, under the next ticket. After the last instance it feeds nothing.
pub(crate) fn feed(alloc: Global, releases: &mut Releases, text: &[u8]) -> Result<(), AllocError> {
    let number = releases.len() as u64;
    if number < u64::from(MAX_INSTANCE) {
        let value = write(alloc, Ticket { editor: 0, number }, text)?;
        let _ = releases.feed(&value)?;
    }
    Ok(())
}

/// The page at a path of the first release; `None` if there is no release.
pub(crate) fn page_at(releases: &Releases, path: &str) -> Result<Option<Answer>, AllocError> {
    match releases.answer(1, path) {
        Ok(answer) => Ok(Some(answer)),
        Err(AnswerFault::NoSuchRelease) => Ok(None),
        Err(AnswerFault::OutOfMemory) => Err(AllocError),
    }
}

/// Feeds a folder's commands, and a release after them.
fn feed_folder(alloc: Global, releases: &mut Releases, folder: &Folder) -> Result<(), AllocError> {
    for command in folder.commands.iter() {
        feed(alloc, releases, command.text())?;
    }
    feed(alloc, releases, b"release\n")
}

/// A release of only the folder's commands.
pub fn release_of(alloc: Global, folder: &Folder) -> Result<Releases, AllocError> {
    let mut releases = Releases::new(alloc);
    match feed_folder(alloc, &mut releases, folder) {
        Ok(()) => Ok(releases),
        Err(fault) => {
            drop(releases);
            Err(fault)
        }
    }
}

/// Adds the page of a route, by what is shown at its path.
fn push_route(route: &Route, answer: Answer, pages: &mut Vec<Page>) -> Result<(), AllocError> {
    let Answer { status, body, .. } = answer;
    let path = route.path.clone()?;
    pages.push(Page {
        path,
        file: "routes",
        line: route.line,
        status,
        body,
    })?;
    Ok(())
}

/// Adds the pages of a folder's routes, in order.
fn push_routes(
    folder: &Folder,
    releases: &Releases,
    pages: &mut Vec<Page>,
) -> Result<(), AllocError> {
    for route in folder.routes.iter() {
        if let Some(answer) = page_at(releases, route.path.as_str())? {
            push_route(route, answer, pages)?;
        }
    }
    Ok(())
}

/// Adds the page of a redirect, by what is shown at its path: if that leads on, a file that does so.
fn push_redirect(
    alloc: Global,
    redirect: &Redirect,
    answer: &Answer,
    pages: &mut Vec<Page>,
) -> Result<(), AllocError> {
    if let Some(target) = &answer.location {
        pages.push(Page {
            path: redirect.path.clone()?,
            file: "redirects",
            line: redirect.line,
            status: answer.status,
            body: moved_page(alloc, target.as_str())?,
        })?;
    }
    Ok(())
}

/// Adds the pages of a folder's redirects, in order. A path with a route has a page already.
fn push_redirects(
    alloc: Global,
    folder: &Folder,
    releases: &Releases,
    pages: &mut Vec<Page>,
) -> Result<(), AllocError> {
    for redirect in folder.redirects.iter() {
        if let Some(answer) = page_at(releases, redirect.path.as_str())? {
            push_redirect(alloc, redirect, &answer, pages)?;
        }
    }
    Ok(())
}

/// The pages of a folder in its release.
fn pages_in(alloc: Global, folder: &Folder, releases: &Releases) -> Result<Vec<Page>, AllocError> {
    let mut pages = Vec::new(alloc);
    push_routes(folder, releases, &mut pages)?;
    push_redirects(alloc, folder, releases, &mut pages)?;
    Ok(pages)
}

/// The same, after its commands are fed.
fn pages_by(
    alloc: Global,
    folder: &Folder,
    releases: &mut Releases,
) -> Result<Vec<Page>, AllocError> {
    feed_folder(alloc, releases, folder)?;
    pages_in(alloc, folder, releases)
}

/// The pages of a folder in a release of only its commands: first of its routes, then of its redirects whose
/// paths have no route, each in order.
pub fn pages_of(alloc: Global, folder: &Folder) -> Result<Vec<Page>, AllocError> {
    let mut releases = Releases::new(alloc);
    let pages = pages_by(alloc, folder, &mut releases);
    drop(releases);
    pages
}

impl Page {
    /// Whether there is a page at the path, or a redirect.
    fn is_shown(&self) -> bool {
        self.status == 200 || self.status == 301
    }

    /// Why a node shows no page here, in its words.
    fn refusal(&self) -> &str {
        self.body.as_str().trim_end()
    }
}

/// The template of a page.
fn template_of<'a>(folder: &'a Folder, page: &Page) -> &'a str {
    for route in folder.routes.iter() {
        if route.line == page.line {
            return route.template.as_str();
        }
    }
    ""
}

/// Why there is no page, in a node's words; and if a page exceeds a limit, which one.
fn page_reason(
    alloc: Global,
    folder: &Folder,
    nesting: &Nesting<'_>,
    page: &Page,
) -> Result<String, AllocError> {
    let (path, refusal) = (page.path.as_str(), page.refusal());
    if refusal != OVER_LIMIT {
        return format!(in alloc; "{path}: {refusal}");
    }
    let reason = nesting.reason(alloc, template_of(folder, page))?;
    format!(in alloc; "{path}: {refusal}: {reason}")
}

/// Adds what is wrong with each page that is not shown.
fn push_faults(
    alloc: Global,
    folder: &Folder,
    pages: &[Page],
    faults: &mut Vec<Finding>,
) -> Result<(), AllocError> {
    let nesting = Nesting::of(alloc, folder)?;
    for page in pages {
        if !page.is_shown() {
            let reason = page_reason(alloc, folder, &nesting, page)?;
            faults.push(line_fault(alloc, page.file, page.line, reason)?)?;
        }
    }
    Ok(())
}

/// What is wrong with those pages of a folder that are neither shown nor moved.
pub fn page_faults(
    alloc: Global,
    folder: &Folder,
    pages: &[Page],
) -> Result<Vec<Finding>, AllocError> {
    let mut faults = Vec::new(alloc);
    if !pages.iter().all(|page| page.is_shown()) {
        push_faults(alloc, folder, pages, &mut faults)?;
    }
    Ok(faults)
}
