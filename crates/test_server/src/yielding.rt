//! When a server yields to another one that tries: each rule as a table.
use crate::comparing::same;
use crate::group::nodes_of;
use server_pace::{Times, Yielding};
use site_ids::{Cluster, NodeId};
use std::process::Abort;

/// The moment of each row, and how long the last attempts stood before it.
const NOW: u64 = 100;

const TOOK: u64 = 4;

/// Who tried, and who last; since when no attempt stands, and since when it yields; its number, and whose
/// attempt stands, 0 for nobody's; and whether it waits, and yields.
type Row = (
    &'static [u8],
    u8,
    Option<u64>,
    Option<u64>,
    u8,
    u8,
    bool,
    bool,
);

const YIELDS: &[Row] = &[
    // Nobody tried, or only the server itself.
    (&[], 0, Some(100), None, 2, 0, false, false),
    (&[2], 2, None, None, 2, 2, false, false),
    (&[2], 2, Some(100), None, 2, 0, false, false),
    // Another one's attempt stands.
    (&[3], 3, None, None, 2, 3, true, true),
    (&[3], 3, None, Some(71), 2, 3, true, true),
    (&[3], 3, None, Some(70), 2, 3, true, false),
    // Its own attempt stands, and another one tried.
    (&[1, 2], 2, None, None, 2, 2, true, true),
    (&[1, 2], 2, None, Some(70), 2, 2, true, false),
    // No attempt stands, and it is the next one.
    (&[1, 2, 3], 1, Some(100), None, 2, 0, false, false),
    (&[1, 3], 1, Some(100), None, 3, 0, false, false),
    (&[2, 3], 3, Some(100), Some(60), 1, 0, false, false),
    (&[1, 9], 9, Some(100), None, 1, 0, false, false),
    // Another one comes before it.
    (&[1, 2, 3], 1, Some(100), None, 3, 0, true, true),
    (&[1, 2, 3], 1, Some(95), None, 3, 0, true, true),
    (&[1, 2, 3], 1, Some(94), None, 3, 0, true, false),
    (&[1, 2, 3], 1, Some(100), Some(70), 3, 0, true, false),
    (&[1, 3], 3, Some(100), None, 2, 0, true, true),
    (&[1, 2], 1, Some(100), None, 1, 0, true, true),
    (&[1, 9], 9, Some(100), None, 9, 0, true, true),
];

/// The node of that number, of nine.
fn node(number: u8) -> Option<NodeId> {
    Cluster::new(9)?.node(number)
}

#[test]
fn nodes_that_try_take_turns(rt: HostRuntime) {
    let times = Times::new(None, None);
    for &(tried, last, free, since, me, tries, waits, yields) in YIELDS {
        let yielding = Yielding {
            tried: nodes_of(&rt, tried),
            tries: node(tries),
            last: node(last),
            stands: None,
            free,
            took: TOOK,
            since,
        };
        let me = node(me).expect(&rt, "a node");
        let is = (yielding.waits(me), yielding.is_due(times, NOW, me));
        same(&rt, (yielding, me, is), (yielding, me, (waits, yields)));
    }
}

/// How long the last attempts stood, since when it yields to another one's, and whether it yields on.
const STRETCHES: &[(u64, u64, bool)] = &[
    (0, 95, true),
    (0, 94, false),
    (4, 71, true),
    (4, 70, false),
    (20, 51, true),
    (20, 50, false),
];

#[test]
fn a_stretch_of_yielding_ends(rt: HostRuntime) {
    let times = Times::new(None, None);
    let me = node(2).expect(&rt, "a node");
    for &(took, since, yields) in STRETCHES {
        let yielding = Yielding {
            tried: nodes_of(&rt, &[3]),
            tries: node(3),
            last: node(3),
            stands: None,
            free: None,
            took,
            since: Some(since),
        };
        let due = yielding.is_due(times, NOW, me);
        same(&rt, (yielding, due), (yielding, yields));
    }
}

/// Whose attempts stood, 0 for nobody's, since when, since when none did, and whose attempt stands now. Then
/// who tried, and who last, if node 4 did before; since when attempts stand, since when none does, and how
/// long those of the node before stood.
type Noted = (
    u8,
    Option<u64>,
    Option<u64>,
    u8,
    &'static [u8],
    u8,
    Option<u64>,
    Option<u64>,
    u64,
);

const NOTED: &[Noted] = &[
    (0, None, None, 0, &[4], 4, None, Some(100), TOOK),
    (0, None, Some(7), 0, &[4], 4, None, Some(7), TOOK),
    (4, Some(93), None, 0, &[4], 4, None, Some(100), 7),
    (0, None, Some(7), 1, &[1, 4], 1, Some(100), None, TOOK),
    (4, Some(93), None, 4, &[4], 4, Some(93), None, TOOK),
    (4, Some(93), None, 9, &[4, 9], 9, Some(100), None, 7),
];

#[test]
fn whose_attempt_stands_is_noted(rt: HostRuntime) {
    for &(by, stood, free, tries, tried, last, stands, then, took) in NOTED {
        let mut yielding = Yielding {
            tried: nodes_of(&rt, &[4]),
            tries: node(by),
            last: node(4),
            stands: stood,
            free,
            took: TOOK,
            since: Some(3),
        };
        let after = Yielding {
            tried: nodes_of(&rt, tried),
            tries: node(tries),
            last: node(last),
            stands,
            free: then,
            took,
            since: Some(3),
        };
        yielding.note(NOW, node(tries));
        same(
            &rt,
            (by, stood, free, tries, yielding),
            (by, stood, free, tries, after),
        );
    }
}

/// Since when it yields, whether it waits and yields; who tried then, if nodes 2 and 5 did before; and since
/// when it yields then.
const AFTER: &[(Option<u64>, bool, bool, &[u8], Option<u64>)] = &[
    (None, true, true, &[2, 5], Some(100)),
    (Some(60), true, true, &[2, 5], Some(60)),
    (Some(60), false, false, &[2, 5], None),
    (Some(60), true, false, &[], None),
    (None, true, false, &[], None),
];

#[test]
fn who_waited_in_vain_goes_on(rt: HostRuntime) {
    for &(since, waits, yields, tried, then) in AFTER {
        let mut yielding = Yielding {
            tried: nodes_of(&rt, &[2, 5]),
            since,
            ..Yielding::new()
        };
        let after = Yielding {
            tried: nodes_of(&rt, tried),
            since: then,
            ..Yielding::new()
        };
        yielding.pass(NOW, waits, yields);
        same(
            &rt,
            (since, waits, yields, yielding),
            (since, waits, yields, after),
        );
    }
}
