//! What no page of a folder shows.
use crate::comparing::same;
use crate::editors::folders::{folder, lines_of};
use editor_folder::{Folder, unused_of};
use std::alloc::Global;
use std::process::Abort;

/// A folder of which half is not shown: two partials call each other, and a template that is not shown calls
/// one of them.
const HALF: &[(&str, &[u8])] = &[
    ("data/a.json", b"{}"),
    ("data/b.json", b"{}"),
    ("partials/deep.mustache", b"{{>p}}"),
    ("partials/lost.mustache", b"{{>round}}"),
    ("partials/p.mustache", b"{{>deep}}{{>none}}"),
    ("partials/round.mustache", b"{{>lost}}"),
    ("routes", b"/ t a\n"),
    ("templates/t.mustache", b"{{>p}}"),
    ("templates/u.mustache", b"{{>round}}"),
];

const TOLD: &str = "templates/u.mustache: warning: no page of this folder uses it
partials/lost.mustache: warning: no page of this folder uses it
partials/round.mustache: warning: no page of this folder uses it
data/b.json: warning: no page of this folder uses it
";

fn is_unused(rt: &impl Abort, alloc: Global, folder: &Folder, lines: &str) {
    let found = unused_of(alloc, folder).expect(rt, "memory");
    let told = lines_of(alloc, &found).expect(rt, "memory");
    same(rt, told.as_str(), lines);
}

#[test]
fn what_no_page_comes_to(rt: HostRuntime) {
    let half = folder(&rt, rt.alloc(), HALF);
    is_unused(&rt, rt.alloc(), &half, TOLD);
}
