//! The promise of a span on record.
use crate::comparing::{ensure, same};
use crate::disks::{holds, is_long_behind};
use crate::listed::SPANNED;
use crate::samples::{ballot, instance};
use crate::steps::{Step, disk_behind, promises, take};
use crate::stored::{arm, empty, ends, is_refused, opened, put_span};
use durable::{Record, RecordFault};
use site_disk::MemDisk;
use site_ids::MAX_INSTANCE;
use std::alloc::Global;
use std::process::Abort;

/// How many calls of a put pass, what the crash chooses, and then the file's length and whether the promise
/// is kept.
const CRASHES: &[(u32, u8, u64, bool)] = &[
    (0, 0, 11, false),
    (0, 1, 11, false),
    (0, 7, 11, false),
    (1, 0, 11, false),
    (1, 1, 27, false),
    (1, 7, 27, false),
    (2, 0, 27, false),
    (2, 1, 27, false),
    (2, 7, 27, false),
    (3, 0, 27, false),
    (3, 1, 27, true),
    (3, 7, 27, false),
    (4, 0, 27, true),
    (4, 1, 27, true),
    (4, 7, 27, true),
];

/// Steps of an empty record, and further ones after it was closed and opened again.
fn play(rt: &impl Abort, alloc: Global, before: &[Step], behind: &[Step]) {
    let mut record = opened(rt, alloc, disk_behind(rt, alloc, before));
    take(rt, alloc, &mut record, behind);
    drop(record);
}

/// The next opening finds these rounds promised from instance 4 on.
fn finds(rt: &impl Abort, alloc: Global, disk: MemDisk, rounds: &[u32]) {
    let record = opened(rt, alloc, disk);
    promises(rt, &record, 4, rounds);
    drop(record);
}

/// The disk has the bytes of `SPANNED`, after eight calls.
fn is_spanned(rt: &impl Abort, disk: &mut MemDisk) {
    same(rt, disk.calls().len(), 8);
    ensure(rt, holds(disk, &SPANNED), SPANNED.len());
}

const ONE_SPAN: &[Step] = &[Step::Span(5, 3, 1), Step::Promised(4, &[0, 1, 1, 1, 0])];

#[test]
fn a_span_is_one_entry_of_sixteen_bytes(rt: HostRuntime) {
    let mut disk = disk_behind(&rt, rt.alloc(), ONE_SPAN);
    is_spanned(&rt, &mut disk);
    finds(&rt, rt.alloc(), disk, &[0, 1, 1, 1, 0]);
}

const RAISING: &[Step] = &[
    Step::Promise(6, 3),
    Step::Promise(7, 1),
    Step::Vote(7, 1, "v"),
    Step::Span(5, 3, 2),
    Step::Promised(4, &[0, 2, 3, 2, 0]),
    Step::Vote(6, 3, "w"),
    Step::NoSpan(5, 3, 2),
    Step::Span(7, 2, 2),
];

const RAISED: &[Step] = &[
    Step::Promised(4, &[0, 2, 3, 2, 2, 0]),
    Step::GreatestRound(3),
    Step::Voted(6, "w"),
    Step::Voted(7, "v"),
];

#[test]
fn a_span_raises_what_is_lower(rt: HostRuntime) {
    play(&rt, rt.alloc(), RAISING, RAISED);
}

/// `SPANNED`, with its span once more after it.
const TWICE: &[u8] =
    b"SITEREC1\x02\x03\x01\x00\x00\x00\x0b\x04\x00\x00\x00\x05\x03\x00\x00\x00\x01\x01\x01\x00\x00\x00\x0b\x04\x00\x00\x00\x05\x03\x00\x00\x00\x01\x01\x00";

#[test]
fn a_span_that_raises_nothing_is_damage(rt: HostRuntime) {
    is_refused(&rt, rt.alloc(), 2, &SPANNED, None);
    is_refused(&rt, rt.alloc(), 2, TWICE, Some(RecordFault::Damaged));
}

const LAST_SPANS: &[Step] = &[
    Step::Span(MAX_INSTANCE - 63, 64, 1),
    Step::NoSpan(MAX_INSTANCE - 62, 64, 2),
    Step::NoSpan(MAX_INSTANCE, 1, 2),
];

const LAST_PROMISES: &[Step] = &[
    Step::Promised(MAX_INSTANCE, &[1]),
    Step::Promised(MAX_INSTANCE - 64, &[0]),
];

#[test]
fn spans_of_sixty_four_up_to_the_last_instance(rt: HostRuntime) {
    play(&rt, rt.alloc(), LAST_SPANS, LAST_PROMISES);
}

/// A put of the span whose disk fails after `calls` calls, if it makes more than that.
fn put_armed(rt: &impl Abort, record: &mut Record<MemDisk>, calls: u32) {
    arm(record, calls);
    let put = put_span(record, instance(rt, 5), 3, ballot(rt, 1, 1));
    if calls < 4 {
        ends(rt, put, Err(RecordFault::Device));
        promises(rt, record, 4, &[0, 0, 0, 0, 0]);
    } else {
        ends(rt, put, Ok(()));
    }
}

/// After the crash the file has that length, and the next opening finds the promise or not.
fn crash(rt: &impl Abort, alloc: Global, row: (u32, u8, u64, bool)) {
    let (calls, choice, length, kept) = row;
    let mut record = empty(rt, alloc);
    put_armed(rt, &mut record, calls);
    let mut disk = record.close();
    ensure(rt, is_long_behind(&mut disk, Some(choice), length), row);
    let round = u32::from(kept);
    finds(rt, alloc, disk, &[0, round, round, round, 0]);
}

#[test]
fn a_crash_after_each_call_keeps_the_span_or_not(rt: HostRuntime) {
    for &row in CRASHES {
        crash(&rt, rt.alloc(), row);
    }
}
