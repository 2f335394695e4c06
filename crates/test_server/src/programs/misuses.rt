//! What is said of a command line that gives a program nothing to do.

use crate::comparing::ensure;
use crate::programs::options::words;
use clap::Error;
use sitectl::{
    Counted, Misuse, cluster_options, refuse, render_options, sim_options, sited_options,
};
use std::alloc::Global;
use std::io;
use std::process::Abort;

fn refused_by<T: Drop>(outcome: Result<T, Error>) -> Misuse {
    match outcome {
        Ok(_) => Misuse::OutOfMemory,
        Err(refused) => Misuse::from(refused),
    }
}

/// The status, and what was written.
fn said(alloc: Global, why: Misuse) -> (u8, Vec<u8>) {
    let mut err = Counted::new(Vec::<u8>::new(alloc));
    let status = refuse(alloc, &mut err, &why);
    (status, err.into_inner())
}

const NOT_UTF8: &str = "error: invalid UTF-8 was detected in one or more arguments\n";

const NO_MEMORY: &str = "out of memory\n";

const NO_NUMBER: &str =
    "error: invalid value 'x' for '--release <N>': invalid digit found in string\n\nFor more information, try '--help'.\n";

fn is_said(rt: &impl Abort, alloc: Global, why: Misuse, status: u8, text: &str) {
    let (is, told) = said(alloc, why);
    ensure(rt, is == status, text);
    ensure(rt, told.as_slice() == text.as_bytes(), text);
}

/// The misuse that is reported if a read of the command line fails with an error of that kind.
fn read_failed(kind: io::ErrorKind) -> Misuse {
    Misuse::from(io::Error::from(kind))
}

#[test]
fn texts_and_statuses(rt: HostRuntime) {
    is_said(&rt, rt.alloc(), Misuse::NotUtf8, 2, NOT_UTF8);
    is_said(&rt, rt.alloc(), Misuse::OutOfMemory, 1, NO_MEMORY);
    let memory = read_failed(io::ErrorKind::OutOfMemory);
    is_said(&rt, rt.alloc(), memory, 1, NO_MEMORY);
    let bytes = read_failed(io::ErrorKind::InvalidData);
    is_said(&rt, rt.alloc(), bytes, 2, NOT_UTF8);
}

#[test]
fn a_line_that_is_refused_says_why(rt: HostRuntime) {
    let words = words(&rt, rt.alloc(), "siterender --release x /");
    let why = refused_by(render_options(rt.alloc(), words.as_slice()));
    is_said(&rt, rt.alloc(), why, 2, NO_NUMBER);
}

/// The text that refuses a line ends with that example.
fn helps<T: Drop>(rt: &impl Abort, alloc: Global, outcome: Result<T, Error>, example: &str) {
    let (status, told) = said(alloc, refused_by(outcome));
    ensure(rt, status == 2, example);
    ensure(rt, told.as_slice().ends_with(example.as_bytes()), example);
}

const RENDER_EXAMPLE: &str =
    "\n\nExample:\n  sitepub frame examples/status/1 | siterender /status\n\n--version prints the program's version\n";

const SIM_EXAMPLE: &str = "  settle\n  show 3\n\n--version prints the program's version\n";

const CLUSTER_EXAMPLE: &str =
    "  drive 2 9\n  drive 1 9\n  get 1 /_newest\n\n--version prints the program's version\n";

const SITED_EXAMPLE: &str =
    " --record 1.record --format --above 2:57 --above 3:60 --http 127.0.0.1:8001 --rounds 0 127.0.0.1:7001 127.0.0.1:7002 127.0.0.1:7003\n\nsited --inspect FILE prints what a record holds, even while a server runs over it\nsited --version prints the program's version\n";

fn each_helps(rt: &impl Abort, alloc: Global, words: &[String]) {
    helps(rt, alloc, render_options(alloc, words), RENDER_EXAMPLE);
    helps(rt, alloc, sim_options(alloc, words), SIM_EXAMPLE);
    helps(rt, alloc, cluster_options(alloc, words), CLUSTER_EXAMPLE);
    helps(rt, alloc, sited_options(alloc, words), SITED_EXAMPLE);
}

#[test]
fn help_is_told_as_a_refusal(rt: HostRuntime) {
    let words = words(&rt, rt.alloc(), "program --help");
    each_helps(&rt, rt.alloc(), words.as_slice());
}
