//! Command lines of `siterender`.
use crate::comparing::{ensure, same};
use clap::error::ErrorKind;
use sitectl::render_options;
use std::alloc::Global;
use std::process::Abort;

pub(super) fn words(rt: &impl Abort, alloc: Global, line: &str) -> Vec<String> {
    let mut words = Vec::new(alloc);
    for word in line.split(' ') {
        let word = String::from_str(alloc, word).expect(rt, "memory");
        words.push(word).expect(rt, "memory");
    }
    words
}

/// Lines that name a page: its release and its path.
const PAGES: &[(&str, Option<u64>, &str)] = &[
    ("siterender /", None, "/"),
    ("siterender --release 3 /a", Some(3), "/a"),
    ("siterender /a --release=0", Some(0), "/a"),
    (
        "other --release 18446744073709551615 not-a-path",
        Some(u64::MAX),
        "not-a-path",
    ),
    ("siterender -- --release", None, "--release"),
];

fn names_page(rt: &impl Abort, alloc: Global, words: &[String], release: Option<u64>, path: &str) {
    let options = render_options(alloc, words).expect(rt, "options");
    same(rt, (options.release, options.path), (release, path));
}

#[test]
fn lines_that_name_a_page(rt: HostRuntime) {
    for &(line, release, path) in PAGES {
        let words = words(&rt, rt.alloc(), line);
        names_page(&rt, rt.alloc(), words.as_slice(), release, path);
    }
}

/// Lines that are refused, and how.
const REFUSED: &[(&str, ErrorKind)] = &[
    ("siterender", ErrorKind::MissingRequiredArgument),
    ("siterender / /", ErrorKind::UnknownArgument),
    ("siterender --relase 3 /", ErrorKind::UnknownArgument),
    ("siterender --release x /", ErrorKind::ValueValidation),
    ("siterender --release -1 /", ErrorKind::UnknownArgument),
    (
        "siterender --release 18446744073709551616 /",
        ErrorKind::ValueValidation,
    ),
    (
        "siterender --release 1 --release 2 /",
        ErrorKind::ArgumentConflict,
    ),
    ("siterender --help", ErrorKind::DisplayHelp),
];

fn is_refused(alloc: Global, words: &[String], kind: ErrorKind) -> bool {
    match render_options(alloc, words) {
        Ok(_) => false,
        Err(refused) => refused.kind() == kind,
    }
}

#[test]
fn lines_that_are_refused(rt: HostRuntime) {
    for &(line, kind) in REFUSED {
        let words = words(&rt, rt.alloc(), line);
        ensure(&rt, is_refused(rt.alloc(), words.as_slice(), kind), line);
    }
}
