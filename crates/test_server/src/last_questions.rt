//! When a server asks after its last question: each rule as a table.
use crate::comparing::same;
use crate::pacing::{TIMES, seen};
use server_pace::{LastQuestion, Seen};
use std::process::Abort;

/// When a server that knew seven values asked last, the moment, empty steps, how many values are known, how
/// far messages reached, whether all came, whether somebody tried a value, whether more on its record is to
/// be told; and whether it asks.
type Asks = (Option<u64>, u64, u32, u32, u32, bool, bool, bool, bool);

const ASKS: &[Asks] = &[
    (None, 0, 2000, 0, 0, false, true, false, true),
    (Some(1000), 1000, 0, 7, 7, true, false, false, false),
    (Some(1000), 1399, 0, 7, 7, true, false, false, false),
    (Some(1000), 1400, 1999, 7, 7, false, true, false, true),
    (Some(1000), 1400, 2000, 7, 7, false, true, false, false),
    (Some(1000), 1800, 2000, 7, 7, false, true, false, true),
    (Some(1000), 1001, 0, 8, 8, true, false, false, true),
    (Some(1000), 1001, 0, 8, 8, true, true, false, false),
    (Some(1000), 1001, 0, 8, 8, true, true, true, true),
    (Some(1000), 1001, 0, 7, 7, true, true, true, false),
    (Some(1000), 1001, 0, 8, 8, false, true, true, false),
    (Some(1000), 1001, 0, 8, 8, false, false, false, false),
    // A server that is behind asks on even if somebody tries a value, once all came.
    (Some(1000), 1001, 0, 8, 71, true, true, false, false),
    (Some(1000), 1001, 0, 8, 72, true, true, false, true),
    (Some(1000), 1001, 0, 8, 72, false, true, false, false),
    (Some(1000), 1001, 0, 71, 71, false, false, false, false),
];

/// How many questions in a row were for one instance, the moment, how far messages reached, whether all came,
/// whether somebody tried a value; and whether a server asks that asked at 1000, and knows seven values as it
/// did then.
const AGAIN: &[(u32, u64, u32, bool, bool, bool)] = &[
    (0, 1004, 8, true, false, false),
    (0, 1005, 8, true, false, true),
    (0, 1399, 7, true, false, false),
    (0, 1005, 8, false, false, false),
    // Somebody tries a value there.
    (0, 1399, 70, true, true, false),
    (0, 1005, 71, true, true, true),
    // Each time it waits longer.
    (1, 1009, 8, true, false, false),
    (1, 1010, 8, true, false, true),
    (9, 1049, 71, true, true, false),
    (9, 1050, 71, true, true, true),
    (78, 1394, 8, true, false, false),
    (78, 1395, 8, true, false, true),
    (u32::MAX, 1399, 8, true, false, false),
    (u32::MAX, 1400, 8, false, true, true),
];

/// What a server sees that knows `known` values, if messages reached `reached`.
fn behind(known: u32, reached: u32, drained: bool) -> Seen {
    Seen {
        reached,
        drained,
        ..seen(known, false, false)
    }
}

#[test]
fn a_server_asks_on_for_what_it_kept(rt: HostRuntime) {
    // One value more is known than at the last question. Somebody tries a value, and messages reached no
    // further.
    for kept in [false, true] {
        let last = LastQuestion {
            at: Some(1000),
            known: 7,
            tried: true,
            again: 0,
        };
        let seen = Seen {
            kept,
            ..behind(8, 8, true)
        };
        let asking = last.asking(TIMES, 1001, seen, 0, false);
        same(&rt, (kept, asking.is_due()), (kept, kept));
    }
}

#[test]
fn a_server_asks_in_its_time_and_behind_news(rt: HostRuntime) {
    for &(at, now, empty, known, reached, drained, tried, more, asks) in ASKS {
        let last = LastQuestion {
            at,
            known: 7,
            tried,
            again: 0,
        };
        let seen = behind(known, reached, drained);
        let asking = last.asking(TIMES, now, seen, empty, more);
        same(
            &rt,
            (last, now, empty, seen, more, asking.is_due()),
            (last, now, empty, seen, more, asks),
        );
    }
}

#[test]
fn a_server_asks_again_for_what_it_lacks(rt: HostRuntime) {
    for &(again, now, reached, drained, tried, asks) in AGAIN {
        let last = LastQuestion {
            at: Some(1000),
            known: 7,
            tried,
            again,
        };
        let seen = behind(7, reached, drained);
        let asking = last.asking(TIMES, now, seen, 0, false);
        same(
            &rt,
            (last, now, seen, asking.is_due()),
            (last, now, seen, asks),
        );
    }
}

#[test]
fn who_knows_nothing_asks_again_soon(rt: HostRuntime) {
    let last = LastQuestion {
        at: Some(0),
        known: 0,
        tried: false,
        again: 1,
    };
    for (now, asks) in [(9, false), (10, true)] {
        let asking = last.asking(TIMES, now, behind(0, 0, true), 2000, false);
        same(&rt, (now, asking.is_due()), (now, asks));
    }
}
