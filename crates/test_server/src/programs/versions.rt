//! What `--version` prints, and when it is asked for.

use crate::comparing::{ensure, same};
use crate::programs::options::words;
use sitectl::{Counted, asks_version, tell_version};
use std::alloc::Global;
use std::process::Abort;

/// The words of a line, and whether they ask for the version.
const LINES: &[(&str, bool)] = &[
    ("sited --version", true),
    ("--version --version", true),
    ("sited", false),
    ("--version", false),
    ("sited --versions", false),
    ("sited --version --help", false),
];

#[test]
fn a_version_is_asked_for_alone(rt: HostRuntime) {
    for &(line, asks) in LINES {
        let words = words(&rt, rt.alloc(), line);
        ensure(&rt, asks_version(words.as_slice()) == asks, line);
    }
}

const TOLD: &[u8] = b"sitesim 1.0\n";

/// The status, and what is printed of a program.
fn told(rt: &impl Abort, alloc: Global) -> (u8, Vec<u8>) {
    let mut out = Counted::new(Vec::<u8>::new(alloc));
    let status = tell_version(alloc, &mut out, "sitesim").expect(rt, "memory");
    (status, out.into_inner())
}

#[test]
fn a_version_is_a_name_and_a_heading(rt: HostRuntime) {
    let (status, text) = told(&rt, rt.alloc());
    same(&rt, (status, text.as_slice()), (0, TOLD));
}
