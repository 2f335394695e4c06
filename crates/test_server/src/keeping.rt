//! When a server puts on record what it learned: each rule as a table.
use crate::comparing::same;
use server_pace::{Keeping, Times};

/// How many instances were kept and since when more are known, the moment, how many are known; and since when
/// more are known then.
const NOTED: &[(u32, Option<u64>, u64, u32, Option<u64>)] = &[
    (0, None, 9, 0, None),
    (0, None, 9, 1, Some(9)),
    (0, Some(5), 9, 2, Some(5)),
    (7, None, 9, 7, None),
    (7, Some(5), 9, 8, Some(5)),
];

#[test]
fn what_is_known_waits_to_be_kept(rt: HostRuntime) {
    for &(kept, since, now, known, then) in NOTED {
        let keeping = Keeping { kept, since };
        let noted = keeping.noted(now, known);
        same(
            &rt,
            (keeping, noted),
            (keeping, Keeping { kept, since: then }),
        );
    }
}

/// How many instances were kept and since when more are known, the moment, how many are known; and from which
/// instance on how many are kept next.
const NEXT: &[(u32, Option<u64>, u64, u32, Option<(u32, u32)>)] = &[
    (0, None, 9000, 0, None),
    (0, Some(1000), 1099, 1, None),
    (0, Some(1000), 1100, 1, Some((1, 1))),
    (0, Some(1000), 1100, 700, Some((1, 700))),
    (0, Some(1000), 1000, 1023, None),
    (0, Some(1000), 1000, 1024, Some((1, 1024))),
    (0, Some(1000), 1000, 100_000, Some((1, 1024))),
    (1024, Some(1000), 1099, 2047, None),
    (1024, Some(1000), 1000, 2048, Some((1025, 1024))),
    (999_999, Some(0), 100, 1_000_000, Some((1_000_000, 1))),
    (1_000_000, Some(0), 100, 1_000_001, None),
];

#[test]
fn a_block_is_kept_and_what_waited_for_its_time(rt: HostRuntime) {
    let times = Times::new(None, None);
    for &(kept, since, now, known, next) in NEXT {
        let keeping = Keeping { kept, since };
        let is = keeping
            .next(times, now, known)
            .map(|(first, count)| (first.number(), count));
        same(&rt, (keeping, now, known, is), (keeping, now, known, next));
    }
}

#[test]
fn what_is_kept_is_not_kept_again(rt: HostRuntime) {
    let keeping = Keeping {
        kept: 7,
        since: Some(5),
    };
    let after = Keeping {
        kept: 1031,
        since: None,
    };
    same(&rt, keeping.passed(1024), after);
    same(&rt, keeping.passed(u32::MAX).kept, u32::MAX);
}
