//! What was learned, on record.
use crate::comparing::{ensure, same};
use crate::disks::{holds, is_long_behind};
use crate::listed::LEARNED;
use crate::samples::instance;
use crate::steps::{Step, disk_behind, take};
use crate::stored::{arm, empty, ends, is_refused, opened, put_learned};
use durable::{Record, RecordFault};
use site_disk::MemDisk;
use std::alloc::Global;
use std::process::Abort;

/// How many calls of a put pass, what the crash chooses, and then the file's length and whether the value is
/// kept.
const CRASHES: &[(u32, u8, u64, bool)] = &[
    (0, 0, 11, false),
    (0, 7, 11, false),
    (1, 0, 11, false),
    (1, 1, 23, false),
    (2, 0, 23, false),
    (2, 1, 23, false),
    (3, 0, 23, false),
    (3, 1, 23, true),
    (4, 0, 23, true),
    (4, 7, 23, true),
];

/// Steps of an empty record, and what an opening finds after them.
fn play(rt: &impl Abort, alloc: Global, before: &[Step], behind: &[Step]) {
    let mut record = opened(rt, alloc, disk_behind(rt, alloc, before));
    take(rt, alloc, &mut record, behind);
    drop(record);
}

const ONE: &[Step] = &[Step::Learn(1, "ab"), Step::Learned(1, Some("ab"))];

/// The disk has the bytes of `LEARNED`, after eight calls.
fn is_kept(rt: &impl Abort, disk: &mut MemDisk) {
    same(rt, disk.calls().len(), 8);
    ensure(rt, holds(disk, &LEARNED), LEARNED.len());
}

#[test]
fn a_learned_value_is_one_entry(rt: HostRuntime) {
    let mut disk = disk_behind(&rt, rt.alloc(), ONE);
    is_kept(&rt, &mut disk);
    play(&rt, rt.alloc(), ONE, &[Step::Learned(1, Some("ab"))]);
}

/// A value is learned once, raises nothing, and is no vote. A vote for another value comes later, and one for
/// the same value.
const BESIDE_VOTES: &[Step] = &[
    Step::Learn(1, "v"),
    Step::NoLearn(1, "v"),
    Step::NoLearn(1, "w"),
    Step::Promised(1, &[0, 0]),
    Step::GreatestRound(0),
    Step::Promise(1, 1),
    Step::Vote(1, 1, "w"),
    Step::Vote(1, 2, "v"),
    Step::Vote(2, 3, "x"),
    Step::Learn(2, "x"),
    Step::Learn(3, ""),
];

const FOUND: &[Step] = &[
    Step::Promised(1, &[2, 3, 0]),
    Step::GreatestRound(3),
    Step::Voted(1, "v"),
    Step::Learned(1, Some("v")),
    Step::Learned(2, Some("x")),
    Step::Learned(3, Some("")),
    Step::Learned(4, None),
    Step::NoLearn(1, "v"),
];

#[test]
fn what_is_learned_stands_beside_votes(rt: HostRuntime) {
    play(&rt, rt.alloc(), BESIDE_VOTES, FOUND);
}

/// `LEARNED`, with its entry once more after it.
const TWICE: &[u8] =
    b"SITEREC1\x02\x03\x01\x00\x00\x00\x07\x06\x00\x00\x00\x01ab\x01\x00\x00\x00\x07\x06\x00\x00\x00\x01ab\x00";

/// `LEARNED`, and then another value at the same instance.
const ANOTHER: &[u8] =
    b"SITEREC1\x02\x03\x01\x00\x00\x00\x07\x06\x00\x00\x00\x01ab\x01\x00\x00\x00\x06\x06\x00\x00\x00\x01c\x00";

#[test]
fn a_second_learned_value_is_damage(rt: HostRuntime) {
    is_refused(&rt, rt.alloc(), 2, &LEARNED, None);
    is_refused(&rt, rt.alloc(), 2, TWICE, Some(RecordFault::Damaged));
    is_refused(&rt, rt.alloc(), 2, ANOTHER, Some(RecordFault::Damaged));
}

const IN_A_BATCH: &[Step] = &[
    Step::Begin,
    Step::Vote(1, 1, "w"),
    Step::Learn(1, "v"),
    Step::Learned(1, Some("v")),
    Step::NoLearn(1, "v"),
    Step::Seal,
];

#[test]
fn a_batch_has_a_learned_value(rt: HostRuntime) {
    let found = &[Step::Voted(1, "w"), Step::Learned(1, Some("v"))];
    play(&rt, rt.alloc(), IN_A_BATCH, found);
    play(&rt, rt.alloc(), &IN_A_BATCH[..5], &[Step::Learned(1, None)]);
}

/// A put of the value whose disk fails after `calls` calls, if it makes more than that.
fn put_armed(rt: &impl Abort, alloc: Global, record: &mut Record<MemDisk>, calls: u32) {
    arm(record, calls);
    let put = put_learned(rt, alloc, record, instance(rt, 1), b"ab");
    if calls < 4 {
        ends(rt, put, Err(RecordFault::Device));
        take(rt, alloc, record, &[Step::Learned(1, None)]);
    } else {
        ends(rt, put, Ok(()));
    }
}

/// After the crash the file has that length, and the next opening finds the value or not.
fn crash(rt: &impl Abort, alloc: Global, row: (u32, u8, u64, bool)) {
    let (calls, choice, length, kept) = row;
    let mut record = empty(rt, alloc);
    put_armed(rt, alloc, &mut record, calls);
    let mut disk = record.close();
    ensure(rt, is_long_behind(&mut disk, Some(choice), length), row);
    let text = if kept { Some("ab") } else { None };
    let mut record = opened(rt, alloc, disk);
    take(rt, alloc, &mut record, &[Step::Learned(1, text)]);
    drop(record);
}

#[test]
fn a_crash_after_each_call_keeps_the_value_or_not(rt: HostRuntime) {
    for &row in CRASHES {
        crash(&rt, rt.alloc(), row);
    }
}
