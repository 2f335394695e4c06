//! One call of a disk fails, and those after it pass.
use crate::comparing::{ensure, same};
use crate::disks::{begins, crashed_within, is_long, reads, syncs, writes};
use crate::samples::ballot;
use crate::stored::{
    ONE_PROMISE, arm, disk_of, ends, formatted, found_round, is_promised, one_of_three, opened,
    put_round,
};
use durable::{Record, RecordFault};
use site_disk::{Armed, Disk, FailOnce, MemDisk};
use std::alloc::Global;
use std::process::Abort;

/// How many calls of a put pass before one fails, and the round of the next opening, without a crash.
const PUTS: &[(u32, u32)] = &[(0, 0), (1, 0), (2, 0), (3, 1)];

/// What a crash chooses after an opening.
const CHOICES: &[u8] = &[0, 1, 7];

/// A put with a call that fails, and then one that returns `Stopped`.
fn fail_put(rt: &impl Abort, record: &mut Record<FailOnce<MemDisk>>, calls: u32) {
    arm(record, calls);
    ends(rt, put_round(record, 1), Err(RecordFault::Device));
    same(rt, record.is_stopped(), true);
    ends(rt, put_round(record, 1), Err(RecordFault::Stopped));
}

/// The disk after such a put.
fn failed_put(rt: &impl Abort, alloc: Global, calls: u32) -> FailOnce<MemDisk> {
    let mut record = opened(rt, alloc, FailOnce::new(formatted(rt, alloc)));
    fail_put(rt, &mut record, calls);
    let disk = record.close();
    same(rt, disk.failures(), 1);
    disk
}

/// The opening after such a put finds the round, and so does the next one, after a crash.
fn settles(rt: &impl Abort, alloc: Global, calls: u32, choice: u8, round: u32) {
    let record = opened(rt, alloc, failed_put(rt, alloc, calls));
    same(rt, (calls, record.round()), (calls, round));
    let disk = crashed_within(record.close(), choice);
    let found = found_round(rt, alloc, disk);
    same(rt, (calls, choice, found), (calls, choice, round));
}

/// Whatever a crash chooses after an opening, what the opening found is kept.
#[test]
fn an_opening_settles_the_entry_in_flight(rt: HostRuntime) {
    for &(calls, round) in PUTS {
        for &choice in CHOICES {
            settles(&rt, rt.alloc(), calls, choice, round);
        }
    }
}

/// A call that failed did nothing, and the one after it works as always. A call that fails at the disk within
/// counts too.
fn check_calls(rt: &impl Abort, disk: &mut FailOnce<MemDisk>) {
    disk.arm(1);
    ensure(rt, is_long(disk, 3), 3);
    ensure(rt, !writes(disk, 0, b"xy"), 2);
    let mut bytes = [0; 3];
    disk.arm(0);
    ensure(rt, !reads(disk, 0, &mut bytes), 1);
    same(rt, bytes, [0; 3]);
    ensure(rt, begins(disk, b"abc"), 0);
}

fn check_further_calls(rt: &impl Abort, disk: &mut FailOnce<MemDisk>) {
    ensure(rt, writes(disk, 1, b"z"), 1);
    disk.arm(0);
    ensure(rt, !syncs(disk), 0);
    ensure(rt, !reads(disk, 9, &mut [0; 3]), 9);
    same(rt, disk.failures(), 4);
}

/// One call of the disk within failed. That disk has what it had.
fn check_within(rt: &impl Abort, mut disk: MemDisk) {
    same(rt, disk.failures(), 1);
    disk.crash(0);
    ensure(rt, begins(&mut disk, b"abc"), 0);
    drop(disk);
}

#[test]
fn one_armed_call_fails(rt: HostRuntime) {
    let mut disk = FailOnce::new(disk_of(&rt, rt.alloc(), b"abc"));
    check_calls(&rt, &mut disk);
    check_further_calls(&rt, &mut disk);
    check_within(&rt, disk.into_inner());
}

/// The disk of a promise's record, of which `calls` calls pass before one fails.
fn armed(rt: &impl Abort, alloc: Global, calls: u32) -> FailOnce<MemDisk> {
    let mut disk = FailOnce::new(disk_of(rt, alloc, &ONE_PROMISE));
    disk.arm(calls);
    disk
}

/// The disk of an opening of which one call failed.
fn failed_opening(rt: &impl Abort, alloc: Global, calls: u32) -> FailOnce<MemDisk> {
    let (cluster, node) = one_of_three(rt, 2);
    match Record::open(alloc, cluster, node, armed(rt, alloc, calls)) {
        Ok(_record) => panic!(rt; "an opening without one of its calls"),
        Err((fault, disk)) => {
            same(rt, (fault, disk.failures()), (RecordFault::Device, 1));
            disk
        }
    }
}

fn opens(rt: &impl Abort, alloc: Global, disk: FailOnce<MemDisk>) {
    let record = opened(rt, alloc, disk);
    is_promised(rt, &record, Some(ballot(rt, 1, 1)));
    drop(record);
}

/// Each call of an opening fails in turn. The opening gives the disk back, and the next one succeeds.
#[test]
fn an_opening_that_fails_gives_the_disk_back(rt: HostRuntime) {
    let alloc = rt.alloc();
    for calls in 0..4 {
        opens(&rt, alloc, failed_opening(&rt, alloc, calls));
    }
    opens(&rt, alloc, armed(&rt, alloc, 4));
}
