//! Pages that are over a limit: which limit they exceed, and what to do.
use crate::editors::folders::{are_told, files, folder, push_file};
use editor_folder::{SiteFile, folder_of};
use std::alloc::{AllocError, Global};
use std::process::Abort;

/// A page whose partial calls itself.
pub(crate) const ENDLESS: &[(&str, &[u8])] = &[
    ("data/a.json", b"{}"),
    ("partials/p.mustache", b"{{>p}}"),
    ("routes", b"\n/ t a\n"),
    ("templates/t.mustache", b"{{>p}}"),
];

/// A page whose partials call each other for each item of a list. Items without a list find the one around
/// them.
const ROUND: &[(&str, &[u8])] = &[
    ("data/a.json", b"{\"l\":[{}]}"),
    ("partials/p.mustache", b"{{#l}}{{>q}}{{/l}}"),
    ("partials/q.mustache", b"{{>none}}{{>p}}"),
    ("routes", b"/ t a\n"),
    ("templates/t.mustache", b"{{>p}}"),
];

/// Two pages that cost too much: in the first no partial nests, and in the second none nests too deep. Beside
/// them are a page that is shown, and a partial that calls itself, which no page calls.
const DEAR: &[(&str, &[u8])] = &[
    ("data/a.json", b"{\"x\":[1,2,3,4,5,6,7,8,9,10]}"),
    ("partials/endless.mustache", b"{{>endless}}"),
    (
        "partials/p.mustache",
        b"{{#x}}{{#x}}{{#x}}{{.}}{{/x}}{{/x}}{{/x}}",
    ),
    ("routes", b"/ t a\n/p u a\n/x v a\n"),
    (
        "templates/t.mustache",
        b"{{#x}}{{#x}}{{#x}}{{#x}}{{#x}}{{#x}}{{.}}{{/x}}{{/x}}{{/x}}{{/x}}{{/x}}{{/x}}",
    ),
    (
        "templates/u.mustache",
        b"{{#x}}{{#x}}{{#x}}{{>p}}{{/x}}{{/x}}{{/x}}",
    ),
    ("templates/v.mustache", b"{{>p}}"),
];

/// The files of a site, and the report on its pages.
const ROWS: &[(&[(&str, &[u8])], &str)] = &[
    (
        ENDLESS,
        "routes:2:1: /: page over limit: the partial p ends up calling itself, and partials may nest 32 deep: let data end that (an empty list in the innermost item), or take the call away; if they end it, it costs more than 1,000,000 (each tag, each item of a list and each byte printed is 1): part it, or shorten its lists\n",
    ),
    (
        ROUND,
        "routes:1:1: /: page over limit: the partial p ends up calling itself, and partials may nest 32 deep: let data end that (an empty list in the innermost item), or take the call away; if they end it, it costs more than 1,000,000 (each tag, each item of a list and each byte printed is 1): part it, or shorten its lists\n",
    ),
    (
        DEAR,
        "routes:1:1: /: page over limit: it costs more than 1,000,000 (each tag, each item of a list and each byte printed is 1): part it, or shorten its lists
routes:2:1: /p: page over limit: it costs more than 1,000,000 (each tag, each item of a list and each byte printed is 1): part it, or shorten its lists
",
    ),
];

#[test]
fn which_limit_a_page_passes(rt: HostRuntime) {
    for &(files, lines) in ROWS {
        are_told(&rt, rt.alloc(), &folder(&rt, rt.alloc(), files), lines);
    }
}

/// A page without partials of its own.
const OUTER: &[(&str, &[u8])] = &[
    ("data/a.json", b"{}"),
    ("routes", b"/ t a\n"),
    ("templates/t.mustache", b"{{>p1}}"),
];

/// Adds the partial with that number, which calls the next one.
fn push_partial(alloc: Global, files: &mut Vec<SiteFile>, number: u32) -> Result<(), AllocError> {
    let next = number.saturating_add(1);
    let path = format!(in alloc; "partials/p{number}.mustache")?;
    let text = format!(in alloc; "{{{{>p{next}}}}}")?;
    push_file(alloc, files, path.as_str(), text.as_bytes())
}

/// The files of a page whose partials nest this deep.
fn nested(alloc: Global, depth: u32) -> Result<Vec<SiteFile>, AllocError> {
    let mut files = files(alloc, OUTER)?;
    for number in 1..=depth {
        push_partial(alloc, &mut files, number)?;
    }
    Ok(files)
}

/// How deep partials nest, and the report on their page.
const DEPTHS: &[(u32, &str)] = &[
    (32, ""),
    (
        33,
        "routes:1:1: /: page over limit: its partials can nest 33 deep, and may 32 deep: put inner ones into those that call them; if data keep them from it, it costs more than 1,000,000 (each tag, each item of a list and each byte printed is 1): part it, or shorten its lists\n",
    ),
];

fn is_told_at(rt: &impl Abort, alloc: Global, depth: u32, lines: &str) {
    let files = nested(alloc, depth).expect(rt, "memory");
    let folder = folder_of(alloc, &files).expect(rt, "memory");
    are_told(rt, alloc, &folder, lines);
}

#[test]
fn how_deep_partials_nest(rt: HostRuntime) {
    for &(depth, lines) in DEPTHS {
        is_told_at(&rt, rt.alloc(), depth, lines);
    }
}
