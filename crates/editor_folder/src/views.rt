//! What a node shows of any commands.
use crate::lines::before;
use crate::pages::{feed, page_at};
use release::Releases;
use std::alloc::{AllocError, Global};

/// What a node shows at a path: a status and a body.
#[derive(Drop)]
pub struct View {
    pub path: String,
    pub status: u16,
    pub body: String,
}

/// Feeds command texts, and a release after them.
fn feed_texts(alloc: Global, releases: &mut Releases, texts: &[&str]) -> Result<(), AllocError> {
    for text in texts {
        feed(alloc, releases, text.as_bytes())?;
    }
    feed(alloc, releases, b"release\n")
}

/// Adds what is shown at paths, in order.
fn push_views(
    releases: &Releases,
    paths: &[String],
    views: &mut Vec<View>,
) -> Result<(), AllocError> {
    for path in paths {
        if let Some(answer) = page_at(releases, path.as_str())? {
            views.push(View {
                path: path.clone()?,
                status: answer.status,
                body: answer.body,
            })?;
        }
    }
    Ok(())
}

/// What is shown at paths, one view for each path, in order.
fn views_in(alloc: Global, releases: &Releases, paths: &[String]) -> Result<Vec<View>, AllocError> {
    let mut views = Vec::new(alloc);
    push_views(releases, paths, &mut views)?;
    Ok(views)
}

/// The same, after these command texts are fed.
fn views_by(
    alloc: Global,
    releases: &mut Releases,
    texts: &[&str],
    paths: &[String],
) -> Result<Vec<View>, AllocError> {
    feed_texts(alloc, releases, texts)?;
    views_in(alloc, releases, paths)
}

/// What a node shows at paths, in a release of only these command texts: one view for each path, in order.
pub fn views_of(alloc: Global, texts: &[&str], paths: &[String]) -> Result<Vec<View>, AllocError> {
    let mut releases = Releases::new(alloc);
    let views = views_by(alloc, &mut releases, texts, paths);
    drop(releases);
    views
}

/// The path that a command text is about, if it is about a route or a redirect.
pub fn path_in(text: &str) -> Option<&str> {
    let mut words = before(text, '\n').split(' ');
    let kind = words.nth(1)?;
    let path = words.next()?;
    match kind {
        "route" | "redirect" => Some(path),
        _ => None,
    }
}
