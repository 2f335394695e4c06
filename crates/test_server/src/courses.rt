//! How far a node that asked is told: each rule as a table.
use crate::comparing::{ensure, same};
use server_pace::{Course, Times};
use site_ids::Instance;
use std::process::Abort;

fn times() -> Times {
    Times::new(None, None)
}

/// A node asked for instance 100 at 1000, and is told from 228 on next. Five stretches may be on their way.
/// The last telling took a tenth of a second.
fn course() -> Course {
    Course {
        first: 100,
        next: 228,
        budget: 5,
        repeats: 0,
        at: 1000,
        since: 1000,
        back: false,
        took: 100,
        asked: false,
    }
}

fn instance(rt: &impl Abort, number: u32) -> Instance {
    Instance::new(number).expect(rt, "an instance")
}

/// Which instance it asks for, and its budget then, in stretches.
const MOVED: &[(u32, u32)] = &[
    (102, 6),
    (164, 6),
    (165, 7),
    (228, 7),
    (229, 8),
    (3000, 51),
    (3813, 64),
    (1_000_000, 64),
];

#[test]
fn who_asks_further_on_is_told_more(rt: HostRuntime) {
    for &(number, budget) in MOVED {
        let wanted = Course {
            first: number,
            next: number.max(228),
            budget,
            at: 1700,
            since: 1700,
            asked: true,
            ..course()
        };
        let moved = course().heard(times(), 1700, instance(&rt, number));
        same(&rt, (number, moved), (number, wanted));
    }
}

#[test]
fn who_asks_again_is_told_again(rt: HostRuntime) {
    for number in [100, 101] {
        // What it was told may be on its way for as long as that took.
        let first = course().heard(times(), 1100, instance(&rt, number));
        let waits = Course {
            first: number,
            repeats: 1,
            at: 1100,
            asked: true,
            ..course()
        };
        same(&rt, first, waits);
        // Then it is told from there on, with a budget a quarter less.
        let again = course().heard(times(), 1101, instance(&rt, number));
        let wanted = Course {
            first: number,
            next: number,
            budget: 3,
            repeats: 1,
            at: 1101,
            since: 1101,
            back: true,
            asked: true,
            ..course()
        };
        same(&rt, again, wanted);
    }
}

#[test]
fn what_is_told_again_may_be_on_its_way(rt: HostRuntime) {
    let again = Course {
        back: true,
        ..course()
    };
    for number in [100, 101] {
        // It may be on its way for twice as long as the last telling took.
        let soon = again.heard(times(), 1200, instance(&rt, number));
        let waits = Course {
            first: number,
            repeats: 1,
            at: 1200,
            asked: true,
            ..again
        };
        same(&rt, soon, waits);
        let late = again.heard(times(), 1201, instance(&rt, number));
        let anew = Course {
            next: number,
            budget: 3,
            at: 1201,
            since: 1201,
            ..waits
        };
        same(&rt, late, anew);
        // If it asks further on, the time since 1000 is how long the telling took.
        let further = soon.heard(times(), 1250, instance(&rt, 300));
        same(
            &rt,
            (further.since, further.back, further.took),
            (1250, false, 250),
        );
        same(&rt, (further.repeats, further.next), (0, 300));
    }
}

#[test]
fn no_line_is_too_bad(rt: HostRuntime) {
    let mut course = course();
    for now in 2..40 {
        course = course.heard(times(), now * 1000, instance(&rt, 100));
    }
    same(&rt, (course.budget, course.repeats), (2, 38));
}

#[test]
fn an_earlier_question_comes_late_or_begins_anew(rt: HostRuntime) {
    for number in [1, 99] {
        let late = course().heard(times(), 1399, instance(&rt, number));
        same(&rt, late, course());
        let anew = course().heard(times(), 1400, instance(&rt, number));
        same(&rt, anew, Course::new(times(), 1400, instance(&rt, number)));
    }
}

/// From which instance on it is told next, its budget in stretches, how many instances the next stretch
/// covers; and whether that one may be sent.
const OPEN: &[(u32, u32, u32, bool)] = &[
    (100, 1, 64, true),
    (101, 1, 64, false),
    (164, 2, 64, true),
    (165, 2, 64, false),
    // Long values: a stretch covers fewer instances.
    (108, 2, 8, true),
    (109, 2, 8, false),
    (4132, 64, 64, true),
    (4133, 64, 64, false),
    (100, 0, 64, true),
    (101, 0, 64, false),
    (1, 0, 0, true),
];

#[test]
fn so_many_stretches_are_on_their_way(rt: HostRuntime) {
    for &(next, budget, count, may) in OPEN {
        let course = Course {
            next,
            budget,
            ..course()
        };
        same(
            &rt,
            (course, count, course.is_open(count)),
            (course, count, may),
        );
    }
}

#[test]
fn a_telling_goes_on_behind_itself(rt: HostRuntime) {
    let first = Course::new(times(), 1000, instance(&rt, 100));
    ensure(&rt, first.asked && first.is_open(64), first);
    let told = first.told(64).told(64);
    same(&rt, (told.first, told.next, told.asked), (100, 228, false));
    ensure(&rt, !told.is_open(64), told);
    same(&rt, first.told(u32::MAX).next, u32::MAX);
}
