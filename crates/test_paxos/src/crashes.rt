//! Crashes after each call of a put.
use crate::comparing::{ensure, same};
use crate::disks::{begins, is_long, is_long_behind, reads, syncs, writes};
use crate::stored::{arm, disk_of, empty, ends, found_round, put_round};
use durable::{Record, RecordFault};
use site_disk::{Armed, Disk, MemDisk};
use std::alloc::Global;
use std::process::Abort;

/// How many calls pass, what the crash chooses, and then the file's length and round.
const CRASHES: &[(u32, u8, u64, u32)] = &[
    (0, 0, 11, 0),
    (0, 1, 11, 0),
    (0, 7, 11, 0),
    (1, 0, 11, 0),
    (1, 1, 21, 0),
    (1, 7, 21, 0),
    (2, 0, 21, 0),
    (2, 1, 21, 0),
    (2, 7, 21, 0),
    (3, 0, 21, 0),
    (3, 1, 21, 1),
    (3, 7, 21, 0),
    (4, 0, 21, 1),
    (4, 1, 21, 1),
    (4, 7, 21, 1),
];

/// A put whose disk fails after `calls` calls, if it makes more than that; and then another put.
fn put(rt: &impl Abort, record: &mut Record<MemDisk>, calls: u32) {
    arm(record, calls);
    let put = put_round(record, 1);
    if calls < 4 {
        ends(rt, put, Err(RecordFault::Device));
        ends(rt, put_round(record, 2), Err(RecordFault::Stopped));
    } else {
        ends(rt, put, Ok(()));
    }
}

/// After the crash the file has that length, and the next opening finds the round.
fn crash(rt: &impl Abort, alloc: Global, row: (u32, u8, u64, u32)) {
    let (calls, choice, length, round) = row;
    let mut record = empty(rt, alloc);
    put(rt, &mut record, calls);
    let mut disk = record.close();
    ensure(rt, is_long_behind(&mut disk, Some(choice), length), row);
    let found = found_round(rt, alloc, disk);
    same(rt, (calls, choice, found), (calls, choice, round));
}

#[test]
fn a_crash_after_each_call_keeps_the_round_or_not(rt: HostRuntime) {
    for &row in CRASHES {
        crash(&rt, rt.alloc(), row);
    }
}

fn fail_each(rt: &impl Abort, disk: &mut MemDisk) {
    disk.arm(1);
    ensure(rt, is_long(disk, 3), 3);
    let passes = syncs(disk) || writes(disk, 0, b"d") || reads(disk, 0, &mut [0]);
    same(rt, (passes, disk.failures()), (false, 3));
}

#[test]
fn an_armed_disk_fails_each_further_call(rt: HostRuntime) {
    let mut disk = disk_of(&rt, rt.alloc(), b"abc");
    fail_each(&rt, &mut disk);
    disk.disarm();
    ensure(&rt, begins(&mut disk, b"abc"), 0);
    drop(disk);
}
