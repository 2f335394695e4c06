//! Command lines of `sited` and `sitecluster`.
use crate::comparing::{ensure, same};
use crate::programs::options::words;
use clap::error::ErrorKind;
use sitectl::{ServeOptions, cluster_options, sited_options};
use std::alloc::Global;
use std::process::Abort;

/// What a line names.
fn shown(rt: &impl Abort, alloc: Global, o: &ServeOptions<'_>) -> String {
    let (id, rounds, format) = (o.id, o.rounds, o.format);
    let (patience, serve, verbose) = (o.patience, o.serve_ms, o.verbose);
    let (above, peers) = (o.above.as_slice(), o.peers.as_slice());
    format!(in alloc;
        "{id} {} {} {rounds} {format} {above:?} {patience:?} {serve:?} {verbose} {peers:?}",
        o.record, o.http
    )
    .expect(rt, "memory")
}

/// Lines, and what each names; empty if it is refused.
const SERVERS: &[(&str, &str)] = &[
    (
        "sited --id 1 --record r --http h --rounds 2",
        "1 r h 2 false [] None None false []",
    ),
    (
        "sited a:1 --format --id=+3 b:2 --record=/x --http 127.0.0.1:0 --rounds 4294967295 c:3",
        "3 /x 127.0.0.1:0 4294967295 true [] None None false [\"a:1\", \"b:2\", \"c:3\"]",
    ),
    (
        "other --rounds 00 --http h --record r --id 255 -- --format",
        "255 r h 0 false [] None None false [\"--format\"]",
    ),
    (
        "sited --verbose --patience-ms 100 --id 1 --record r --http h --rounds 2 --serve-ms=+2000 a:1",
        "1 r h 2 false [] Some(100) Some(2000) true [\"a:1\"]",
    ),
    (
        "sited --format --above 2:57 --id 1 --above=x --record r --http h --rounds 0 a:1",
        "1 r h 0 true [\"2:57\", \"x\"] None None false [\"a:1\"]",
    ),
    (
        "sited --id=-0 --record --http --http h --rounds 1 not-an-address",
        "",
    ),
];

fn given(rt: &impl Abort, alloc: Global, words: &[String]) -> String {
    match sited_options(alloc, words) {
        Ok(options) => shown(rt, alloc, &options),
        Err(_) => String::new(alloc),
    }
}

#[test]
fn lines_that_name_a_server(rt: HostRuntime) {
    for &(line, expected) in SERVERS {
        let words = words(&rt, rt.alloc(), line);
        let given = given(&rt, rt.alloc(), words.as_slice());
        same(&rt, (line, given.as_str()), (line, expected));
    }
}

/// Lines that are refused, and how.
const REFUSED: &[(&str, ErrorKind)] = &[
    ("sited", ErrorKind::MissingRequiredArgument),
    (
        "sited --record r --http h --rounds 2",
        ErrorKind::MissingRequiredArgument,
    ),
    (
        "sited --id 1 --http h --rounds 2",
        ErrorKind::MissingRequiredArgument,
    ),
    (
        "sited --id 1 --record r --rounds 2",
        ErrorKind::MissingRequiredArgument,
    ),
    (
        "sited --id 1 --record r --http h",
        ErrorKind::MissingRequiredArgument,
    ),
    (
        "sited --id 256 --record r --http h --rounds 2",
        ErrorKind::ValueValidation,
    ),
    (
        "sited --id=-1 --record r --http h --rounds 2",
        ErrorKind::ValueValidation,
    ),
    (
        "sited --id x --record r --http h --rounds 2",
        ErrorKind::ValueValidation,
    ),
    (
        "sited --id 1 --record r --http h --rounds 4294967296",
        ErrorKind::ValueValidation,
    ),
    (
        "sited --id 1 --record r --http h --rounds 2 --id 1",
        ErrorKind::ArgumentConflict,
    ),
    (
        "sited --format --id 1 --format",
        ErrorKind::ArgumentConflict,
    ),
    ("sited --format=yes", ErrorKind::TooManyValues),
    (
        "sited --id 1 --record r --http h --rounds 2 --above",
        ErrorKind::InvalidValue,
    ),
    ("sited --inspect", ErrorKind::UnknownArgument),
    ("sited --inspect r --id 1", ErrorKind::UnknownArgument),
    ("sited --verbose=yes", ErrorKind::TooManyValues),
    (
        "sited --verbose --id 1 --verbose",
        ErrorKind::ArgumentConflict,
    ),
    (
        "sited --id 1 --http h --rounds 2 --record",
        ErrorKind::InvalidValue,
    ),
    (
        "sited --id 1 --record r --http h --rounds 2 --patience-ms 18446744073709551616",
        ErrorKind::ValueValidation,
    ),
    (
        "sited --id 1 --record r --http h --rounds 2 --serve-ms=-1",
        ErrorKind::ValueValidation,
    ),
    (
        "sited --id 1 --serve-ms 1 --serve-ms 1",
        ErrorKind::ArgumentConflict,
    ),
    ("sited --port 80", ErrorKind::UnknownArgument),
    ("sited --help", ErrorKind::DisplayHelp),
];

fn is_refused(alloc: Global, words: &[String], kind: ErrorKind) -> bool {
    match sited_options(alloc, words) {
        Ok(_) => false,
        Err(refused) => refused.kind() == kind,
    }
}

#[test]
fn lines_that_name_no_server(rt: HostRuntime) {
    for &(line, kind) in REFUSED {
        let words = words(&rt, rt.alloc(), line);
        ensure(&rt, is_refused(rt.alloc(), words.as_slice(), kind), line);
    }
}

/// Lines of `sitecluster`, and how they are refused, if they are.
const CLUSTERS: &[(&str, Option<ErrorKind>)] = &[
    ("sitecluster", None),
    ("other", None),
    ("sitecluster x", Some(ErrorKind::UnknownArgument)),
    ("sitecluster --nodes", Some(ErrorKind::UnknownArgument)),
    ("sitecluster --help", Some(ErrorKind::DisplayHelp)),
];

fn refusal_of(alloc: Global, words: &[String]) -> Option<ErrorKind> {
    match cluster_options(alloc, words) {
        Ok(_) => None,
        Err(refused) => Some(refused.kind()),
    }
}

#[test]
fn lines_of_sitecluster(rt: HostRuntime) {
    for &(line, kind) in CLUSTERS {
        let words = words(&rt, rt.alloc(), line);
        ensure(&rt, refusal_of(rt.alloc(), words.as_slice()) == kind, line);
    }
}
