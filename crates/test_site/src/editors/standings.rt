//! How a ledger stands to a group, by the answers of nodes.
use crate::comparing::ensure;
use crate::editors::ledgers::read_lines;
use editor_plan::{Standing, Witness, last_shown, last_ticket, standing_of, told_by};
use std::alloc::Global;
use std::process::Abort;

/// The statuses of each of three nodes for two tickets.
type Codes = ((u16, u16), (u16, u16), (u16, u16));

/// The newest release of each of three nodes, if it says so.
type Newest = (Option<u64>, Option<u64>, Option<u64>);

/// The last ticket; the statuses of each of three nodes for the last ticket and for the next one, 0 for
/// silence; and how the ledger stands.
const STANDINGS: &[(u64, Codes, Standing)] = &[
    (0, ((404, 404), (0, 0), (0, 0)), Standing::Newest),
    (0, ((0, 0), (0, 0), (0, 0)), Standing::Unanswered),
    (0, ((404, 404), (404, 404), (404, 200)), Standing::Older),
    (5, ((200, 404), (0, 0), (0, 0)), Standing::Newest),
    (5, ((404, 404), (404, 404), (200, 404)), Standing::Newest),
    (5, ((200, 404), (200, 404), (200, 200)), Standing::Older),
    (5, ((404, 200), (0, 0), (0, 0)), Standing::Older),
    (5, ((404, 404), (404, 404), (0, 0)), Standing::Elsewhere),
    (5, ((503, 503), (500, 500), (0, 0)), Standing::Unanswered),
    // A node that says nothing about the next ticket confirms nothing.
    (5, ((200, 0), (0, 0), (0, 0)), Standing::Unanswered),
    (5, ((200, 503), (404, 404), (0, 0)), Standing::Elsewhere),
    (5, ((200, 503), (0, 0), (200, 404)), Standing::Newest),
];

fn status(code: u16) -> Option<u16> {
    if code == 0 { None } else { Some(code) }
}

fn witness(codes: (u16, u16), newest: Option<u64>) -> Witness {
    Witness {
        last: told_by(status(codes.0)),
        next: told_by(status(codes.1)),
        newest,
    }
}

/// Checks nodes that show these releases, if the folder's last release is 4.
fn stands_showing(rt: &impl Abort, last: u64, nodes: Codes, newest: Newest, wanted: Standing) {
    let witnesses = [
        witness(nodes.0, newest.0),
        witness(nodes.1, newest.1),
        witness(nodes.2, newest.2),
    ];
    ensure(rt, standing_of(last, 4, &witnesses) == wanted, last);
}

fn stands(rt: &impl Abort, last: u64, nodes: Codes, wanted: Standing) {
    stands_showing(rt, last, nodes, (None, Some(4), Some(5)), wanted);
}

#[test]
fn standings(rt: HostRuntime) {
    for &(last, nodes, wanted) in STANDINGS {
        stands(&rt, last, nodes, wanted);
    }
}

/// The newest releases of three nodes that answer, if the folder's last release is 4 and no node knows ticket
/// 5; and how the ledger stands.
const SHOWING: &[(Newest, Standing)] = &[
    ((Some(0), Some(0), Some(0)), Standing::Returning),
    ((Some(3), Some(0), Some(2)), Standing::Returning),
    ((Some(3), Some(4), Some(2)), Standing::Elsewhere),
    ((Some(9), Some(4), Some(7)), Standing::Elsewhere),
    ((Some(3), None, Some(2)), Standing::Elsewhere),
];

#[test]
fn nodes_that_are_behind(rt: HostRuntime) {
    let unknown = ((404, 404), (404, 404), (404, 404));
    for &(newest, wanted) in SHOWING {
        stands_showing(&rt, 5, unknown, newest, wanted);
    }
}

/// The file of a ledger, the ticket that must have a receipt, and the last release that was shown.
const LAST: &[(&str, u64, u64)] = &[
    ("published 2\neditor 7\nnext 1\nlast_release 0\n", 0, 0),
    ("published 2\neditor 7\nnext 9\nlast_release 8\n", 8, 0),
    ("published 2\neditor 7\nnext 10\nlast_release 8\n", 9, 0),
    (
        "published 2\neditor 7\nnext 10\nlast_release 8\nsent 9 8\nrelease\n\n",
        8,
        0,
    ),
    (
        "published 2\neditor 7\nnext 9\nlast_release 8\nreleased 3 1700000000 5\nreleased 11 1700000009 2\n",
        8,
        11,
    ),
];

fn last_of(rt: &impl Abort, alloc: Global, file: &str) -> (u64, u64) {
    let ledger = read_lines(rt, alloc, file);
    (last_ticket(&ledger), last_shown(&ledger))
}

#[test]
fn last(rt: HostRuntime) {
    for &(file, last, shown) in LAST {
        ensure(&rt, last_of(&rt, rt.alloc(), file) == (last, shown), file);
    }
}
