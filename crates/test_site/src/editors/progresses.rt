//! What a delivery reports while it is under way, as a table.
use crate::comparing::{ensure, same};
use editor_plan::{Came, Progress};

/// What exchanges brought, when each ended and how many commands were left then; how many have their
/// receipts, if that is reported; and whether it is reported that none comes.
const STEPS: &[(Came, u64, usize, Option<usize>, bool)] = &[
    (Came::Answers, 5, 9, None, false),
    (Came::Receipt, 10, 7, None, false),
    // A second after it began, and then a second after the last report, if the number is another one.
    (Came::Receipt, 999, 6, None, false),
    (Came::Receipt, 1_000, 6, Some(3), false),
    (Came::Receipt, 1_999, 5, None, false),
    (Came::Receipt, 2_000, 5, Some(4), false),
    (Came::Answers, 3_999, 5, None, false),
    // Two seconds after the last receipt, and only once.
    (Came::Silence, 4_000, 5, None, true),
    (Came::Answers, 9_000, 5, None, false),
    (Came::Receipt, 9_001, 4, Some(5), false),
    (Came::Answers, 11_000, 4, None, false),
    (Came::Answers, 11_001, 4, None, true),
    (Came::Silence, 99_000, 4, None, false),
    (Came::Receipt, 99_001, 0, Some(9), false),
];

#[test]
fn progresses(rt: HostRuntime) {
    let mut progress = Progress::new(9);
    for &(came, now, left, told, silent) in STEPS {
        same(&rt, progress.count(now, left), told);
        ensure(&rt, progress.falls_silent(now, came) == silent, now);
    }
    same(&rt, progress.all(), 9);
}

/// How many of forty commands have their receipts, one after the other, and whether the ledger is saved then:
/// after more than two new receipts, as two are a sixteenth.
const KEPT: &[(usize, bool)] = &[
    (0, false),
    (2, false),
    (3, true),
    (3, false),
    (5, false),
    (6, true),
    (40, true),
    (40, false),
];

#[test]
fn ledgers_saved_meanwhile(rt: HostRuntime) {
    let mut progress = Progress::new(40);
    for &(has, kept) in KEPT {
        ensure(&rt, progress.keeps(has) == kept, has);
    }
    let mut few = Progress::new(15);
    ensure(&rt, few.keeps(1), 1);
}
