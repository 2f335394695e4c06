//! A record's file grows ahead. What the record has is kept, whichever call fails and whatever a crash
//! chooses.
use crate::comparing::{ensure, same};
use crate::disks::{crashed_within, holds, is_long};
use crate::samples::ballot;
use crate::steps::{Step, take};
use crate::stored::{ONE_PROMISE, arm, disk_of, ends, found_round, is_promised, opened, put_round};
use durable::{Record, RecordFault};
use site_disk::{Call, Disk, FailOnce, MemDisk};
use std::alloc::Global;
use std::process::Abort;

/// The room that is asked for. The gate is byte 25, so the file gets 41 bytes.
const ROOM: u64 = 16;

/// `ONE_PROMISE`, grown.
const GROWN: [u8; 41] =
    *b"SITEREC1\x02\x03\x01\x00\x00\x00\x0a\x02\x00\x00\x00\x01\x00\x00\x00\x01\x01\x00\x00\x00\x00\x00\x00\x00\x00\x00\x00\x00\x00\x00\x00\x00\x00";

/// The same, grown more, and round 2: it took the place of zeros.
const GROWN_AND_USED: [u8; 53] =
    *b"SITEREC1\x02\x03\x01\x00\x00\x00\x0a\x02\x00\x00\x00\x01\x00\x00\x00\x01\x01\x01\x00\x00\x00\x05\x01\x00\x00\x00\x02\x00\x00\x00\x00\x00\x00\x00\x00\x00\x00\x00\x00\x00\x00\x00\x00\x00\x00";

/// How many calls of a growth pass before one fails, what the growth returns, how many failures the disk
/// counts, and how long the file is.
const GROWTHS: &[(u32, Result<bool, RecordFault>, u64, u64)] = &[
    (0, Err(RecordFault::Device), 1, 26),
    (1, Ok(false), 0, 26),
    (2, Err(RecordFault::Device), 1, 41),
    (9, Ok(true), 0, 41),
];

/// What a crash chooses.
const CHOICES: &[u8] = &[0, 1, 7];

/// How many writes and syncs were made.
fn writes_and_syncs(disk: &MemDisk) -> usize {
    let mut count: usize = 0;
    for call in disk.calls() {
        if matches!(call, Call::Write { .. } | Call::Sync) {
            count = count.saturating_add(1);
        }
    }
    count
}

/// A record of one promise, which has grown.
fn grown(rt: &impl Abort, alloc: Global) -> Record<MemDisk> {
    let mut record = opened(rt, alloc, disk_of(rt, alloc, &ONE_PROMISE));
    same(rt, record.grow(ROOM), Ok(true));
    record
}

/// The disk after a growth, of which as many calls passed as the row says before one failed.
fn grown_armed(
    rt: &impl Abort,
    alloc: Global,
    row: (u32, Result<bool, RecordFault>, u64, u64),
) -> FailOnce<MemDisk> {
    let (calls, wanted, failures, length) = row;
    let mut record = opened(rt, alloc, FailOnce::new(disk_of(rt, alloc, &ONE_PROMISE)));
    arm(&mut record, calls);
    same(rt, (calls, record.grow(ROOM)), (calls, wanted));
    same(rt, (calls, record.is_stopped()), (calls, wanted.is_err()));
    is_promised(rt, &record, Some(ballot(rt, 1, 1)));
    let mut disk = record.close();
    same(rt, (calls, disk.failures()), (calls, failures));
    ensure(rt, is_long(&mut disk, length), calls);
    disk
}

/// What is on the disk after such a growth and a crash opens as always, and takes more entries.
fn survives(
    rt: &impl Abort,
    alloc: Global,
    row: (u32, Result<bool, RecordFault>, u64, u64),
    choice: u8,
) {
    let disk = crashed_within(grown_armed(rt, alloc, row), choice);
    let mut record = opened(rt, alloc, disk);
    is_promised(rt, &record, Some(ballot(rt, 1, 1)));
    same(rt, record.is_cut_short(), false);
    ends(rt, put_round(&mut record, 2), Ok(()));
    same(rt, found_round(rt, alloc, record.close()), 2);
}

/// A lack of room is no fault, and leaves a record that runs. A length or a sync that fails stops the record.
/// Whatever a crash chooses then, the record is as it was.
#[test]
fn each_call_of_a_growth_fails_in_turn(rt: HostRuntime) {
    for &row in GROWTHS {
        for &choice in CHOICES {
            survives(&rt, rt.alloc(), row, choice);
        }
    }
}

/// The file gets zeros, by one write and one sync, after an opening's sync.
#[test]
fn a_file_grows_by_zeros(rt: HostRuntime) {
    let mut disk = grown(&rt, rt.alloc()).close();
    ensure(&rt, holds(&mut disk, &GROWN), 41);
    same(&rt, writes_and_syncs(&disk), 5);
    drop(disk);
}

/// If there is room already, nothing is written or synced.
#[test]
fn room_is_made_once(rt: HostRuntime) {
    let mut record = grown(&rt, rt.alloc());
    same(&rt, record.grow(ROOM), Ok(true));
    let disk = record.close();
    same(&rt, writes_and_syncs(&disk), 5);
    drop(disk);
}

/// What is put then is written over the zeros, and the file is as long as before.
#[test]
fn entries_take_the_place_of_zeros(rt: HostRuntime) {
    let mut record = opened(&rt, rt.alloc(), disk_of(&rt, rt.alloc(), &ONE_PROMISE));
    same(&rt, record.grow(28), Ok(true));
    ends(&rt, put_round(&mut record, 2), Ok(()));
    let mut disk = record.close();
    ensure(&rt, holds(&mut disk, &GROWN_AND_USED), 53);
    drop(disk);
}

/// While a batch is open the file does not grow, and the batch is sealed as always.
#[test]
fn no_file_grows_within_a_batch(rt: HostRuntime) {
    let alloc = rt.alloc();
    let mut record = opened(&rt, alloc, disk_of(&rt, alloc, &ONE_PROMISE));
    take(&rt, alloc, &mut record, &[Step::Begin, Step::Round(2)]);
    same(&rt, record.grow(ROOM), Ok(false));
    take(&rt, alloc, &mut record, &[Step::Seal]);
    same(&rt, record.bytes(), 53);
    let mut disk = record.close();
    ensure(&rt, is_long(&mut disk, 54), 54);
    same(&rt, found_round(&rt, alloc, disk), 2);
}
