//! Releases that a log does not have, as a table.
use crate::comparing::same;
use crate::editors::ledgers::read_lines;
use editor_plan::{ticket_of, unlogged};
use std::alloc::Global;
use std::process::Abort;

/// The file of a ledger, and how many commands its release shows that the log does not have.
const FILES: &[(&str, Option<u64>)] = &[
    ("published 2\neditor 7\nnext 1\nlast_release 0\n", None),
    ("published 2\neditor 7\nnext 10\nlast_release 0\n", None),
    ("published 2\neditor 7\nnext 11\nlast_release 10\n", Some(9)),
    (
        "published 2\neditor 7\nnext 11\nlast_release 10\nreleased 4 1700000000 9\n",
        None,
    ),
    // What is not released yet does not count.
    (
        "published 2\neditor 7\nnext 14\nlast_release 10\nreleased 4 1700000000 9\n",
        None,
    ),
    (
        "published 2\neditor 7\nnext 13\nlast_release 12\nreleased 4 1700000000 9\n",
        Some(1),
    ),
    (
        "published 2\neditor 7\nnext 13\nlast_release 12\nreleased 4 1700000000 9\nreleased 6 1700000009 1\n",
        None,
    ),
    // A log that has more than there is.
    (
        "published 2\neditor 7\nnext 3\nlast_release 2\nreleased 4 1700000000 18446744073709551615\n",
        None,
    ),
];

fn unlogged_in(rt: &impl Abort, alloc: Global, file: &str) -> Option<u64> {
    let ledger = read_lines(rt, alloc, file);
    unlogged(&ledger)
}

/// A log that has four releases, two of them under one number; a release, and its ticket.
const LOG: &str =
    "published 2\neditor 7\nnext 40\nlast_release 30\nreleased 4 1 9\nreleased 6 2 1\nreleased 6 3 4\nreleased 9 4 2\n";

const TICKETS: &[(u64, Option<u64>)] = &[
    (0, None),
    (4, Some(10)),
    (5, None),
    (6, Some(17)),
    (9, Some(20)),
];

#[test]
fn tickets_of_releases(rt: HostRuntime) {
    let ledger = read_lines(&rt, rt.alloc(), LOG);
    for &(release, wanted) in TICKETS {
        same(&rt, ticket_of(&ledger, release), wanted);
    }
}

#[test]
fn unlogged_releases(rt: HostRuntime) {
    for &(file, wanted) in FILES {
        same(&rt, unlogged_in(&rt, rt.alloc(), file), wanted);
    }
}
