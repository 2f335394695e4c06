//! What a server says of itself, and when.
use crate::comparing::{ensure, same};
use crate::group::nodes_of;
use server_notes::{Figures, HOUR, Note, Notes};
use site_ids::Cluster;
use std::alloc::Global;
use std::process::Abort;

/// The moment of a pass, in milliseconds; how many values are known; whose datagrams came; how many of them
/// were no message, how many connections were closed for others, and whether clients wait; and what is said.
type Pass = (
    u64,
    u32,
    &'static [u8],
    (u64, u64, bool),
    &'static [&'static str],
);

const NOBODY: &[u8] = &[];

const TWO: &[u8] = &[2];

const BOTH: &[u8] = &[2, 3];

const FINE: (u64, u64, bool) = (0, 0, false);

/// Of node 1 of three, over a record of seven votes.
const OF_THREE: &[Pass] = &[
    (0, 0, NOBODY, FINE, &["opened: votes on record: 7"]),
    (10, 0, BOTH, FINE, &[]),
    // a whole telling came: two seconds begin anew
    (1000, 64, TWO, FINE, &["publishing instance=1"]),
    (2500, 70, TWO, FINE, &[]),
    (3000, 70, TWO, FINE, &["caught up to instance 70"]),
    (
        3000,
        70,
        TWO,
        (2, 0, false),
        &["datagrams that are no message: 2"],
    ),
    (3100, 70, TWO, (1, 0, false), &[]),
    (3999, 70, TWO, (4, 0, false), &[]),
    (4000, 70, TWO, FINE, &["datagrams that are no message: 5"]),
    (5009, 70, TWO, FINE, &[]),
    (5010, 70, TWO, FINE, &["node 3 not heard for 5 s"]),
    (10009, 70, TWO, FINE, &[]),
    (10010, 70, TWO, FINE, &["node 3 not heard for 10 s"]),
    (15009, 70, NOBODY, FINE, &[]),
    (
        15010,
        70,
        NOBODY,
        FINE,
        &["no majority heard for 5 s", "node 2 not heard for 5 s"],
    ),
    (
        20010,
        70,
        NOBODY,
        FINE,
        &["no majority heard for 10 s", "node 2 not heard for 10 s"],
    ),
    (20500, 70, NOBODY, FINE, &[]),
    (21010, 70, NOBODY, FINE, &["node 3 not heard for 21 s"]),
    (
        22010,
        71,
        BOTH,
        FINE,
        &[
            "a majority is heard again, after 12 s",
            "node 2 is heard again, after 12 s",
        ],
    ),
    (23009, 72, BOTH, FINE, &[]),
    (
        23010,
        72,
        BOTH,
        FINE,
        &["node 3 is heard again, after 22 s"],
    ),
    (24010, 72, BOTH, FINE, &["caught up to instance 72"]),
    (
        25000,
        72,
        BOTH,
        (0, 3, true),
        &[
            "silent connections closed for other clients: 3",
            "all 64 connections wait for a response: further clients wait",
        ],
    ),
    (25500, 72, BOTH, (0, 1, true), &[]),
    (
        26000,
        72,
        BOTH,
        FINE,
        &[
            "silent connections closed for other clients: 1",
            "all 64 connections wait for a response: further clients wait",
        ],
    ),
    (60000, 72, BOTH, FINE, &[]),
];

/// Of node 1 of one, over a new record: it is a majority.
const OF_ONE: &[Pass] = &[
    (0, 0, NOBODY, FINE, &["opened: votes on record: 0"]),
    (1999, 1, NOBODY, FINE, &["publishing instance=1"]),
    (2000, 1, NOBODY, FINE, &["caught up to instance 1"]),
    (2001, 1, NOBODY, FINE, &[]),
    (100000, 1, NOBODY, FINE, &[]),
];

/// Of node 1 of three, over a record with a floor and no vote.
const REPLACED: &[Pass] = &[
    (
        0,
        0,
        NOBODY,
        FINE,
        &["opened: votes on record: 0", "mute up to instance 65"],
    ),
    (10, 64, BOTH, FINE, &["publishing instance=1"]),
    (20, 65, BOTH, FINE, &["no longer mute"]),
    (2009, 65, BOTH, FINE, &[]),
    (2010, 65, BOTH, FINE, &["caught up to instance 65"]),
    (2011, 66, BOTH, FINE, &[]),
];

/// The same, if all up to the floor is known after the first pass.
const TOLD_ITSELF: &[Pass] = &[(
    0,
    70,
    NOBODY,
    FINE,
    &[
        "opened: votes on record: 0",
        "mute up to instance 65",
        "no longer mute",
        "publishing instance=1",
    ],
)];

/// Of node 1 of three that hears both, over a record of seven votes: the moment, how many values are known,
/// how far what it heard of reaches, and what is said.
type Behind = (u64, u32, u32, &'static [&'static str]);

/// Few values become known, and far more is heard of.
const SLOW: &[Behind] = &[
    (
        0,
        20,
        0,
        &["opened: votes on record: 7", "publishing instance=1"],
    ),
    (400, 21, 84, &[]),
    // two seconds begin anew, as 84 are not known, and again
    (2000, 40, 104, &[]),
    (3499, 55, 118, &[]),
    (4000, 60, 124, &[]),
    (5499, 80, 124, &[]),
    (5500, 100, 160, &[]),
    (6000, 123, 186, &[]),
    (7999, 185, 187, &[]),
    // what was heard of in the first part of the last two seconds is known, and few came
    (8000, 186, 190, &["caught up to instance 186"]),
    (9999, 187, 900, &[]),
];

/// Values become known as they are submitted: one is tried at each moment.
const BUSY: &[Behind] = &[
    (
        0,
        20,
        21,
        &["opened: votes on record: 7", "publishing instance=1"],
    ),
    (1499, 25, 26, &[]),
    (1500, 26, 27, &[]),
    (1999, 30, 31, &[]),
    (2000, 30, 31, &["caught up to instance 30"]),
];

/// The text of the note is this line.
fn reads(rt: &impl Abort, alloc: Global, note: Note, line: &str) {
    let text = format!(in alloc; "{note}").expect(rt, "memory");
    same(rt, text.as_str(), line);
}

/// A pass, and what is said after it.
fn pass(rt: &impl Abort, alloc: Global, notes: &mut Notes, pass: Pass) {
    let (now, known, heard, (malformed, displaced, full), lines) = pass;
    notes.hear(now, known, known, nodes_of(rt, heard));
    notes.count(malformed, displaced, full);
    for &line in lines {
        reads(rt, alloc, notes.next(now, known, 0).expect(rt, line), line);
    }
    ensure(rt, notes.next(now, known, 0).is_none(), now);
}

fn passes(rt: &impl Abort, alloc: Global, size: u8, record: (u32, u32), all: &[Pass]) {
    let (votes, floor) = record;
    let cluster = Cluster::new(size).expect(rt, "a cluster");
    let me = cluster.node(1).expect(rt, "a node");
    let mut notes = Notes::new(cluster, me, votes, floor);
    for &one in all {
        pass(rt, alloc, &mut notes, one);
    }
}

#[test]
fn each_kind_has_a_line_a_second_at_most(rt: HostRuntime) {
    passes(&rt, rt.alloc(), 3, (7, 0), OF_THREE);
}

#[test]
fn a_node_alone_is_a_majority(rt: HostRuntime) {
    passes(&rt, rt.alloc(), 1, (0, 0), OF_ONE);
}

#[test]
fn a_node_with_a_floor_says_that_it_is_mute_and_when_no_longer(rt: HostRuntime) {
    for all in [REPLACED, TOLD_ITSELF] {
        passes(&rt, rt.alloc(), 3, (0, 65), all);
    }
}

#[test]
fn a_server_that_heard_of_more_has_not_caught_up(rt: HostRuntime) {
    let cluster = Cluster::new(3).expect(&rt, "a cluster");
    let me = cluster.node(1).expect(&rt, "a node");
    for rows in [SLOW, BUSY] {
        let mut notes = Notes::new(cluster, me, 7, 0);
        for &(now, known, reached, lines) in rows {
            notes.hear(now, known, reached, nodes_of(&rt, BOTH));
            for &line in lines {
                reads(
                    &rt,
                    rt.alloc(),
                    notes.next(now, known, 0).expect(&rt, line),
                    line,
                );
            }
            ensure(&rt, notes.next(now, known, 0).is_none(), now);
        }
    }
}

/// What node 1 of one says, over a record with that many votes.
fn alone(rt: &impl Abort, votes: u32) -> Notes {
    let cluster = Cluster::new(1).expect(rt, "a cluster");
    let me = cluster.node(1).expect(rt, "a node");
    Notes::new(cluster, me, votes, 0)
}

/// Of node 1 of one: the moment, how many values are known, which release is the newest, and what is said.
type Publication = (u64, u32, u64, &'static [&'static str]);

const PUBLICATIONS: &[Publication] = &[
    (
        0,
        57,
        3,
        &[
            "opened: votes on record: 57",
            "published release=3 instance=57",
        ],
    ),
    (500, 57, 3, &[]),
    (600, 60, 3, &["publishing instance=58"]),
    (700, 80, 3, &[]),
    // a second has passed since one was said
    (999, 90, 4, &[]),
    (1000, 95, 4, &["published release=4 instance=95"]),
    // within the second neither a release nor what comes after the last one is said
    (1100, 99, 6, &[]),
    (
        2000,
        99,
        7,
        &[
            "caught up to instance 99",
            "published release=7 instance=99",
        ],
    ),
    (2001, 99, 7, &[]),
    (9000, 100, 7, &["publishing instance=100"]),
    (99000, 101, 7, &[]),
];

#[test]
fn a_release_and_what_comes_first_after_it_have_a_line(rt: HostRuntime) {
    let mut notes = alone(&rt, 57);
    for &(now, known, newest, lines) in PUBLICATIONS {
        notes.hear(now, known, known, nodes_of(&rt, NOBODY));
        for &line in lines {
            let note = notes.next(now, known, newest).expect(&rt, line);
            reads(&rt, rt.alloc(), note, line);
        }
        ensure(&rt, notes.next(now, known, newest).is_none(), now);
    }
}

/// Of node 1 of one, over a new record: the moment, and what is said. Its record has as many bytes as
/// milliseconds have passed.
const HOURS: &[(u64, &[&str])] = &[
    (
        0,
        &[
            "opened: votes on record: 0",
            "figures instance=0 release=0 record_bytes=0 memory_bytes=8192",
        ],
    ),
    (6, &[]),
    (2000, &["caught up to instance 0"]),
    (HOUR - 1, &[]),
    (
        HOUR + 7,
        &["figures instance=0 release=0 record_bytes=3600007 memory_bytes=8192"],
    ),
    (HOUR + 1008, &[]),
    (2 * HOUR - 1, &[]),
    // hours without a pass have no figures
    (
        5 * HOUR,
        &["figures instance=0 release=0 record_bytes=18000000 memory_bytes=8192"],
    ),
    (6 * HOUR - 1, &[]),
    (
        6 * HOUR,
        &["figures instance=0 release=0 record_bytes=21600000 memory_bytes=8192"],
    ),
];

#[test]
fn figures_are_said_once_an_hour(rt: HostRuntime) {
    let mut notes = alone(&rt, 0);
    for &(now, lines) in HOURS {
        notes.hear(now, 0, 0, nodes_of(&rt, NOBODY));
        if notes.is_hour(now) {
            notes.figure(Figures {
                bytes: now,
                memory: 8192,
            });
        }
        for &line in lines {
            reads(
                &rt,
                rt.alloc(),
                notes.next(now, 0, 0).expect(&rt, line),
                line,
            );
        }
        ensure(&rt, notes.next(now, 0, 0).is_none(), now);
    }
}
