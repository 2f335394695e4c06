//! How a delivery goes on, and how long nodes that are asked at once have to answer, as tables.
use crate::comparing::ensure;
use editor_plan::{Came, DeliveryClock, Step, answers_within};
use std::process::Abort;

/// What exchanges brought, when each ended, and how the delivery goes on, if a minute may pass without a
/// receipt.
const STEPS: &[(Came, u64, Step)] = &[
    (Came::Answers, 1, Step::Again(2)),
    (Came::Answers, 4, Step::Again(4)),
    (Came::Answers, 9, Step::Again(8)),
    (Came::Receipt, 12, Step::Again(0)),
    (Came::Receipt, 13, Step::Again(0)),
    (Came::Answers, 14, Step::Again(2)),
    (Came::Answers, 17, Step::Again(4)),
    (Came::Answers, 22, Step::Again(8)),
    (Came::Answers, 31, Step::Again(16)),
    (Came::Answers, 48, Step::Again(32)),
    (Came::Answers, 81, Step::Again(64)),
    (Came::Answers, 146, Step::Again(128)),
    (Came::Answers, 275, Step::Again(250)),
    // Five seconds without a receipt, counted from the last receipt, and then from the turn to the next node.
    (Came::Answers, 5_012, Step::Again(250)),
    (Came::Answers, 5_013, Step::Next),
    (Came::Answers, 10_012, Step::Again(2)),
    (Came::Silence, 10_014, Step::Next),
    (Came::Silence, 60_012, Step::Next),
    (Came::Silence, 60_013, Step::GiveUp),
];

fn steps(
    rt: &impl Abort,
    clock: &mut DeliveryClock,
    came: (Came, u64),
    patience: u64,
    wanted: Step,
) {
    let (came, now) = came;
    ensure(rt, clock.step(came, now, patience) == wanted, now);
}

#[test]
fn delivery_clocks(rt: HostRuntime) {
    let mut clock = DeliveryClock::new();
    for &(came, now, wanted) in STEPS {
        steps(&rt, &mut clock, (came, now), 60, wanted);
    }
}

/// The seconds that may pass without a receipt, when an exchange begins, and how long it waits for an answer.
/// The last receipt came after 1,500 milliseconds.
const WAITS: &[(u64, u64, u64)] = &[
    (60, 1_500, 5_000),
    (60, 57_499, 5_000),
    (60, 57_500, 4_000),
    (60, 61_499, 1_000),
    (60, 70_000, 1_000),
    (12, 10_500, 3_000),
    (2, 1_500, 2_000),
    (0, 1_500, 1_000),
];

#[test]
fn waits_for_answers(rt: HostRuntime) {
    let mut clock = DeliveryClock::new();
    steps(&rt, &mut clock, (Came::Receipt, 1_500), 60, Step::Again(0));
    for &(patience, now, wanted) in WAITS {
        ensure(&rt, clock.within(now, patience) == wanted, now);
    }
}

/// With no patience the delivery gives up after the first exchange that brought nothing.
#[test]
fn no_patience(rt: HostRuntime) {
    steps(
        &rt,
        &mut DeliveryClock::new(),
        (Came::Receipt, 0),
        0,
        Step::Again(0),
    );
    steps(
        &rt,
        &mut DeliveryClock::new(),
        (Came::Answers, 0),
        0,
        Step::GiveUp,
    );
}

/// How often nodes were asked before, how many milliseconds have passed since, how many seconds may pass, and
/// how many milliseconds the nodes have to answer.
const ANSWERS: &[(u64, u64, u64, u64)] = &[
    (0, 0, 60, 2_000),
    (0, 0, 0, 2_000),
    (1, 2_500, 60, 10_000),
    (2, 13_000, 60, 10_000),
    // At most the seconds that are left, and at least one second.
    (1, 2_500, 3, 1_000),
    (1, 2_500, 9, 7_000),
    (5, 52_999, 60, 8_000),
    (6, 61_000, 60, 1_000),
    (u64::MAX, u64::MAX, u64::MAX, 10_000),
];

#[test]
fn answers_of_nodes_asked_at_once(rt: HostRuntime) {
    for &(times, passed, patience, within) in ANSWERS {
        ensure(
            &rt,
            answers_within(times, passed, patience) == within,
            passed,
        );
    }
}
