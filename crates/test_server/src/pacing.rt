//! When a server ticks, and how long it rests: each rule as a table.
use crate::comparing::{ensure, same};
use crate::group::node_of;
use server_pace::{Pace, Resting, Seen, Ticking, Times, has_passed};
use site_ids::Cluster;
use std::process::Abort;

/// The times of a server whose command line names none.
pub(crate) const TIMES: Times = Times {
    patience: 100,
    growth: 3,
    longer: 10,
    leaving: 15_000,
    asking: 400,
    quiet_asking: 800,
    again: 5,
    least: 2,
    most: 64,
    flight: 20,
    late: 400,
    silent: 2000,
    keeping: 100,
    block: 1024,
    packets: 5000,
    showing: 1000,
    yielding: 50,
    idle: 200,
    quiet: 2000,
    eager: 16,
    few: 4,
    rest: 10,
    idle_rest: 1500,
    quiet_rest: 20_000,
    telling_rest: 500,
    between_requests: 5000,
    without_progress: 1000,
    returning: 2000,
    lingering: 2000,
    keeps_seat: 2000,
    receipts: 100,
    holds: 5,
    serve_ms: None,
};

#[test]
fn a_command_line_names_two_times(rt: HostRuntime) {
    same(&rt, Times::new(None, None), TIMES);
    let named = Times {
        patience: 250,
        serve_ms: Some(2000),
        ..TIMES
    };
    same(&rt, Times::new(Some(250), Some(2000)), named);
}

/// Since when, the moment, how many milliseconds, and whether they have passed.
const PASSED: &[(Option<u64>, u64, u64, bool)] = &[
    (None, 0, 400, true),
    (Some(0), 0, 0, true),
    (Some(0), 399, 400, false),
    (Some(0), 400, 400, true),
    (Some(1000), 1399, 400, false),
    (Some(1000), 1400, 400, true),
    (Some(1000), 999, 1, false),
];

#[test]
fn time_passes(rt: HostRuntime) {
    for &(since, now, millis, passed) in PASSED {
        same(
            &rt,
            (since, now, millis, has_passed(since, now, millis)),
            (since, now, millis, passed),
        );
    }
}

/// A patience, a server's number, and what it waits before its first try.
const PATIENCES: &[(u64, u8, u64)] = &[
    (100, 1, 100),
    (100, 2, 150),
    (100, 3, 200),
    (100, 9, 500),
    (0, 9, 0),
    (u64::MAX, 1, u64::MAX / 2),
];

#[test]
fn greater_numbers_wait_longer(rt: HostRuntime) {
    for &(patience, node, millis) in PATIENCES {
        let times = Times::new(Some(patience), None);
        same(
            &rt,
            (patience, node, times.patience_of(node)),
            (patience, node, millis),
        );
    }
}

/// Whether a tick is wanted, since when it was, whether anything except questions came, and whether a value
/// is fresh.
const FRESH: &[(bool, Option<u64>, bool, bool)] = &[
    (true, None, false, true),
    (true, None, true, false),
    (true, Some(5), false, false),
    (false, None, false, false),
    (false, Some(5), false, false),
];

#[test]
fn a_value_that_nobody_tries_is_fresh(rt: HostRuntime) {
    for &(wanted, since, stirred, fresh) in FRESH {
        let ticking = Ticking {
            since,
            known: 7,
            ..Ticking::new()
        };
        same(
            &rt,
            (wanted, since, stirred, ticking.is_fresh(wanted, stirred)),
            (wanted, since, stirred, fresh),
        );
    }
}

/// A server that knows seven values waits two patiences longer: since when a tick is wanted, how many were
/// due. Then whether a tick is wanted at 9, how many values are known; and since when a tick is wanted then,
/// how many were due, how many patiences longer it waits.
type Noted = (Option<u64>, u32, bool, u32, Option<u64>, u32, u32);

const NOTED: &[Noted] = &[
    (Some(5), 4, true, 7, Some(5), 4, 2),
    (Some(5), 4, true, 8, Some(9), 0, 2),
    (Some(5), 1, true, 8, Some(9), 0, 2),
    (Some(5), 0, true, 8, Some(9), 0, 0),
    (Some(5), 4, false, 8, None, 0, 2),
    (Some(5), 4, false, 7, None, 4, 2),
    (None, 0, true, 7, Some(9), 0, 2),
    (None, 0, false, 8, None, 0, 0),
];

/// What a server sees that knows `known` values, if a tick is wanted or not.
pub(crate) fn seen(known: u32, wanted: bool, resumes: bool) -> Seen {
    Seen {
        known,
        reached: known,
        wanted,
        drained: true,
        stake: true,
        resumes,
        kept: false,
    }
}

#[test]
fn news_begin_the_patience_anew(rt: HostRuntime) {
    for &(since, ticks, wanted, known, then, due, longer) in NOTED {
        let ticking = Ticking {
            since,
            known: 7,
            ticks,
            longer: 2,
            ..Ticking::new()
        };
        let noted = Ticking {
            since: then,
            first: then.and(Some(9)),
            known,
            ticks: due,
            longer,
            ..Ticking::new()
        };
        let is = ticking.noted(TIMES, 9, seen(known, wanted, false), true);
        same(&rt, (ticking, wanted, is), (ticking, wanted, noted));
    }
}

/// How many values were known when it ticked last, how many when it was noted last; whether a tick is wanted,
/// how many are known, whether it voted for the last of them at its own ballot and for the next one at any;
/// and whether the next tick is due at once.
const GOES_ON: &[(Option<u32>, u32, bool, u32, bool, bool)] = &[
    (Some(7), 7, true, 8, true, true),
    (Some(7), 7, false, 8, true, false),
    (Some(7), 7, true, 8, false, false),
    // Nothing became known since that tick, or more than one, or it never ticked.
    (Some(7), 7, true, 7, true, false),
    (Some(7), 7, true, 9, true, false),
    (Some(7), 8, true, 9, true, false),
    (Some(6), 7, true, 8, true, false),
    (Some(9), 7, true, 8, true, false),
    (None, 0, true, 1, true, false),
    (Some(0), 0, true, 1, true, true),
    (Some(u32::MAX), 7, true, 0, true, false),
];

#[test]
fn a_server_that_decides_again_goes_on_at_once(rt: HostRuntime) {
    for &(at, noted, wanted, known, resumes, goes_on) in GOES_ON {
        let ticking = Ticking {
            at,
            known: noted,
            ..Ticking::new()
        };
        let then = ticking.noted(TIMES, 9, seen(known, wanted, resumes), false);
        same(&rt, (ticking, then.goes_on()), (ticking, goes_on));
        // It stays so until it ticks.
        let later = then.noted(TIMES, 99, seen(known, wanted, false), false);
        same(&rt, (then, later.goes_on()), (then, goes_on));
        let ticked = [then.begun(), then.ticked(TIMES, 9, true)];
        for after in ticked {
            same(&rt, (after.at, after.goes_on()), (Some(known), false));
        }
    }
}

/// Since when a tick is wanted, how many were due, how many patiences longer it waits, the moment, and
/// whether one is due. The patience is 150 milliseconds, and grows three times.
const TICKS: &[(Option<u64>, u32, u32, u64, bool)] = &[
    (None, 0, 0, 1_000_000, false),
    (Some(1000), 0, 0, 1149, false),
    (Some(1000), 0, 0, 1150, true),
    (Some(1000), 1, 0, 1299, false),
    (Some(1000), 1, 0, 1300, true),
    (Some(1000), 2, 0, 1449, false),
    (Some(1000), 2, 0, 1450, true),
    (Some(1000), 3, 0, 1450, true),
    (Some(1000), u32::MAX, 0, 1450, true),
    (Some(1000), 2, 1, 1449, false),
    (Some(1000), 2, 1, 1450, true),
    (Some(1000), 2, 10, 2649, false),
    (Some(1000), 2, 10, 2650, true),
    (Some(1000), 0, 10, 2649, false),
    (Some(1000), 9, 70, 11_649, false),
    (Some(1000), 9, 70, 11_650, true),
    (Some(1000), 9, u32::MAX, 600_000_000_000, false),
    (Some(1000), 9, u32::MAX, 700_000_000_000, true),
];

#[test]
fn the_patience_grows(rt: HostRuntime) {
    for &(since, ticks, longer, now, due) in TICKS {
        let ticking = Ticking {
            since,
            known: 7,
            ticks,
            longer,
            ..Ticking::new()
        };
        same(
            &rt,
            (ticking, now, ticking.is_due(now, 150, TIMES, true)),
            (ticking, now, due),
        );
        ensure(&rt, !ticking.is_due(now, u64::MAX, TIMES, true), ticking);
    }
}

/// Since when a tick is waited for, since when one was wanted first; whether the server has a stake, whether
/// messages of an attempt came, the moment; and since when it is waited for then.
const LEFT: &[(Option<u64>, Option<u64>, bool, bool, u64, Option<u64>)] = &[
    (None, None, false, true, 100, Some(100)),
    (Some(100), Some(100), false, true, 900, Some(900)),
    (Some(900), Some(100), false, true, 15_099, Some(15_099)),
    // For fifteen seconds at most.
    (Some(15_099), Some(100), false, true, 15_100, Some(15_099)),
    (Some(15_099), Some(100), false, true, 90_000, Some(15_099)),
    // A server with a stake leaves it to nobody. Without messages nothing is put off.
    (Some(100), Some(100), true, true, 900, Some(100)),
    (Some(100), Some(100), false, false, 900, Some(100)),
];

#[test]
fn who_has_no_stake_leaves_it_to_the_others(rt: HostRuntime) {
    for &(since, first, stake, stirred, now, then) in LEFT {
        let ticking = Ticking {
            since,
            first,
            known: 7,
            ..Ticking::new()
        };
        let seen = Seen {
            stake,
            ..seen(7, true, false)
        };
        let is = ticking.noted(TIMES, now, seen, stirred);
        let noted = Ticking {
            since: then,
            first: first.or(Some(now)),
            ..ticking
        };
        same(&rt, (ticking, now, is), (ticking, now, noted));
        // It begins anew with news, and if no tick is wanted.
        let unwanted = Seen {
            wanted: false,
            ..seen
        };
        let is = ticking.noted(TIMES, now, unwanted, stirred);
        same(&rt, (is.since, is.first), (None, None));
        let news = Seen { known: 8, ..seen };
        let is = ticking.noted(TIMES, now, news, stirred);
        same(&rt, (is.since, is.first), (Some(now), Some(now)));
    }
}

/// How many ticks were due, how many patiences longer it waits, whether the server has a stake; the moment,
/// and whether a tick is due. It is waited for since 1000, with a patience of 150 milliseconds.
const LONGER: &[(u32, u32, bool, u64, bool)] = &[
    (0, 0, true, 1150, true),
    (0, 0, false, 2649, false),
    (0, 0, false, 2650, true),
    (2, 0, false, 2649, false),
    (2, 0, false, 2650, true),
    (0, 9, false, 2650, true),
    (0, 20, false, 4149, false),
    (0, 20, false, 4150, true),
];

#[test]
fn who_has_no_stake_waits_longer(rt: HostRuntime) {
    for &(ticks, longer, stake, now, due) in LONGER {
        let ticking = Ticking {
            since: Some(1000),
            known: 7,
            ticks,
            longer,
            ..Ticking::new()
        };
        let is = ticking.is_due(now, 150, TIMES, stake);
        same(&rt, (ticking, stake, now, is), (ticking, stake, now, due));
    }
}

/// How many ticks were due, how many patiences longer it waits, whether a majority answered since the last
/// tick; and how many ticks were due then, how many patiences longer it waits.
const TICKED: &[(u32, u32, bool, u32, u32)] = &[
    (0, 0, true, 1, 0),
    (1, 0, true, 2, 10),
    (7, 30, true, 8, 40),
    // The last one was not in vain: news came.
    (0, 30, true, 1, 30),
    (7, 30, false, 8, 0),
    (0, 30, false, 1, 0),
    (u32::MAX, u32::MAX, true, u32::MAX, u32::MAX),
];

#[test]
fn a_tick_that_a_majority_answers_in_vain_is_counted(rt: HostRuntime) {
    for &(ticks, longer, answered, due, then) in TICKED {
        let ticking = Ticking {
            since: Some(5),
            known: 7,
            ticks,
            longer,
            ..Ticking::new()
        };
        let ticked = Ticking {
            since: Some(9),
            first: None,
            known: 7,
            ticks: due,
            longer: then,
            at: Some(7),
            resumes: false,
        };
        same(
            &rt,
            (ticking, answered, ticking.ticked(TIMES, 9, answered)),
            (ticking, answered, ticked),
        );
    }
}

/// What came (anything, a response, messages that are no questions), empty steps, how many microseconds the
/// server rests, and empty steps then.
const RESTS: &[(bool, bool, bool, u32, Option<u64>, u32)] = &[
    (false, false, false, 0, Some(0), 1),
    (false, false, false, 15, Some(0), 16),
    (false, false, false, 16, Some(10), 17),
    (false, false, false, 199, Some(10), 200),
    (false, false, false, 200, Some(1500), 201),
    (false, false, false, 1999, Some(1500), 2000),
    (false, false, false, 2000, Some(20_000), 2001),
    (false, false, false, u32::MAX, Some(20_000), u32::MAX),
    (true, false, false, 300, None, 300),
    (true, false, true, 300, None, 0),
    (false, true, false, 300, None, 0),
    (true, true, true, 300, None, 0),
];

#[test]
fn a_step_rests_where_nothing_came(rt: HostRuntime) {
    for &(came, served, stirred, empty, micros, then) in RESTS {
        let resting = Resting {
            came,
            served,
            stirred,
            empty,
        };
        let rest = resting
            .is_due()
            .then_some(TIMES.rest_after(empty, false, 0));
        let is = (rest, resting.empty_after());
        same(&rt, (resting, is), (resting, (micros, then)));
    }
}

/// Empty steps, and how many microseconds a server rests while it tells somebody something.
const TELLS: &[(u32, u64)] = &[
    (0, 0),
    (15, 0),
    (16, 10),
    (199, 10),
    (200, 500),
    (2000, 500),
    (u32::MAX, 500),
];

#[test]
fn who_tells_rests_for_a_short_time(rt: HostRuntime) {
    for &(empty, micros) in TELLS {
        same(
            &rt,
            (empty, TIMES.rest_after(empty, true, 0)),
            (empty, micros),
        );
    }
}

/// How many clients a server has, empty steps, and how many microseconds it rests.
const CROWDS: &[(usize, u32, u64)] = &[
    (4, 0, 0),
    (4, 15, 0),
    (4, 16, 10),
    (5, 0, 10),
    (5, 199, 10),
    (5, 200, 1500),
    (64, 15, 10),
    (64, 2000, 20_000),
];

#[test]
fn with_many_clients_it_rests_at_once(rt: HostRuntime) {
    for &(clients, empty, micros) in CROWDS {
        let rest = TIMES.rest_after(empty, false, clients);
        same(&rt, (clients, empty, rest), (clients, empty, micros));
    }
}

/// Whether anything came, whether a response was written, how many such steps follow one another, and how
/// many microseconds the server rests after each.
const STEPS: &[(bool, bool, u32, Option<u64>)] = &[
    (false, false, 3, Some(20_000)),
    (true, false, 2, None),
    (false, false, 1, Some(20_000)),
    (true, true, 1, None),
    (false, false, 16, Some(0)),
    (false, false, 184, Some(10)),
    (true, false, 5, None),
    (false, false, 1800, Some(1500)),
    (false, false, 9, Some(20_000)),
    (false, true, 1, None),
    (false, false, 16, Some(0)),
    (false, false, 1, Some(10)),
];

#[test]
fn a_server_begins_quiet_and_wakes_with_a_client(rt: HostRuntime) {
    let cluster = Cluster::new(1).expect(&rt, "a cluster");
    let mut pace = Pace::new(TIMES, cluster, node_of(&rt, 1, 1), 0);
    for &(came, served, steps, micros) in STEPS {
        for step in 0..steps {
            same(
                &rt,
                (came, served, step, pace.rest(came, served, 0)),
                (came, served, step, micros),
            );
        }
    }
}
