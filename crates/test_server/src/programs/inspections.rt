//! Which command lines ask what a record holds.

use crate::comparing::{ensure, same};
use crate::programs::options::words;
use sitectl::inspected;
use std::process::Abort;

/// The words of a line, and the file to inspect, if there is one.
const LINES: &[(&str, Option<&str>)] = &[
    ("sited --inspect r", Some("r")),
    ("other --inspect --inspect", Some("--inspect")),
    ("sited --inspect", None),
    ("--inspect r", None),
    ("sited r --inspect", None),
    ("sited --inspects r", None),
    ("sited --inspect r s", None),
    ("sited --inspect=r", None),
];

/// A line asks for this file.
fn asks(rt: &impl Abort, words: &[String], line: &str, file: Option<&str>) {
    match file {
        Some(file) => same(rt, inspected(words), Some(file)),
        None => ensure(rt, inspected(words).is_none(), line),
    }
}

#[test]
fn a_record_is_looked_at_alone(rt: HostRuntime) {
    for &(line, file) in LINES {
        let words = words(&rt, rt.alloc(), line);
        asks(&rt, words.as_slice(), line, file);
    }
}
