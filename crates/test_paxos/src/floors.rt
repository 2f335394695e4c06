//! Records that take the place of a lost one: how they are made, what they report, what is damage.
use crate::comparing::{ensure, same};
use crate::disks::{holds, is_long_behind};
use crate::listed::{FLOORED, SUMMED_FLOOR};
use crate::records::are_calls;
use crate::steps::{Step, disk_behind, take};
use crate::stored::{
    ONE_ROUND, disk_of, ends, format_above, formatted, found_floor, is_refused, opened,
};
use durable::RecordFault;
use site_disk::{Armed, MemDisk};
use std::alloc::Global;
use std::process::Abort;

/// A new record above instance 65.
fn floored(rt: &impl Abort, alloc: Global) -> MemDisk {
    let mut disk = MemDisk::new(alloc);
    ends(rt, format_above(rt, &mut disk), Ok(()));
    disk
}

/// The record was made by seven calls, and no other record is made in its file.
fn is_made(rt: &impl Abort, disk: &mut MemDisk) {
    ensure(rt, are_calls(disk.calls(), b"LWSWSWS"), 7);
    ensure(rt, holds(disk, &SUMMED_FLOOR), SUMMED_FLOOR.len());
    let again = format_above(rt, disk);
    ends(rt, again, Err(RecordFault::NotARecord));
    ensure(rt, holds(disk, &SUMMED_FLOOR), SUMMED_FLOOR.len());
}

#[test]
fn a_floor_is_seven_calls_and_29_bytes(rt: HostRuntime) {
    let mut disk = floored(&rt, rt.alloc());
    is_made(&rt, &mut disk);
    let found = found_floor(&rt, rt.alloc(), disk);
    same(&rt, found, Ok(65));
}

/// A file with bytes stays as it is.
fn leaves(rt: &impl Abort, disk: &mut MemDisk) {
    let made = format_above(rt, disk);
    ends(rt, made, Err(RecordFault::NotARecord));
    ensure(rt, holds(disk, &ONE_ROUND), ONE_ROUND.len());
}

#[test]
fn a_file_with_bytes_is_left(rt: HostRuntime) {
    leaves(&rt, &mut disk_of(&rt, rt.alloc(), &ONE_ROUND));
}

/// The floor promises nothing, is no vote, counts for no round. Votes above it reach further, what is learned
/// or promised does not.
const ABOVE: &[Step] = &[
    Step::Floor(65),
    Step::Reach(65),
    Step::GreatestRound(0),
    Step::Promised(64, &[0, 0, 0]),
    Step::Learned(65, None),
    Step::Learn(70, "x"),
    Step::Promise(66, 1),
    Step::Reach(65),
    Step::Vote(3, 1, "w"),
    Step::Reach(65),
    Step::Vote(66, 1, "v"),
    Step::Reach(66),
    Step::Span(67, 5, 2),
    Step::Round(4),
    Step::Reach(66),
];

const ABOVE_FOUND: &[Step] = &[
    Step::Floor(65),
    Step::Reach(66),
    Step::GreatestRound(4),
    Step::Promised(64, &[0, 0, 1, 2]),
    Step::Voted(66, "v"),
    Step::Voted(3, "w"),
    Step::Learned(70, Some("x")),
];

/// The record of a disk takes these steps. The next opening finds `found`.
fn play(rt: &impl Abort, alloc: Global, disk: MemDisk, steps: &[Step], found: &[Step]) {
    let mut record = opened(rt, alloc, disk);
    take(rt, alloc, &mut record, steps);
    let mut record = opened(rt, alloc, record.close());
    take(rt, alloc, &mut record, found);
    drop(record);
}

#[test]
fn a_record_above_a_floor(rt: HostRuntime) {
    let disk = floored(&rt, rt.alloc());
    play(&rt, rt.alloc(), disk, ABOVE, ABOVE_FOUND);
}

const WITHOUT: &[Step] = &[
    Step::Floor(0),
    Step::Reach(0),
    Step::Promise(9, 1),
    Step::Learn(8, "x"),
    Step::Reach(0),
    Step::Vote(7, 1, "v"),
    Step::Reach(7),
    Step::Vote(2, 1, "w"),
    Step::Reach(7),
];

const WITHOUT_FOUND: &[Step] = &[Step::Floor(0), Step::Reach(7)];

#[test]
fn a_record_without_a_floor(rt: HostRuntime) {
    let disk = formatted(&rt, rt.alloc());
    play(&rt, rt.alloc(), disk, WITHOUT, WITHOUT_FOUND);
}

/// A batch that isn't sealed reaches further only in memory.
const UNSEALED: &[Step] = &[Step::Begin, Step::Vote(7, 1, "v"), Step::Reach(7)];

#[test]
fn a_batch_reaches_once_it_is_sealed(rt: HostRuntime) {
    let alloc = rt.alloc();
    let disk = disk_behind(&rt, alloc, UNSEALED);
    let sealed = &[Step::Begin, Step::Vote(7, 1, "v"), Step::Seal];
    play(&rt, alloc, disk, sealed, &[Step::Reach(7)]);
    let disk = disk_behind(&rt, alloc, UNSEALED);
    play(&rt, alloc, disk, &[Step::Reach(0)], &[Step::Reach(0)]);
}

/// Records of node 2 of three, and why they are refused: after a round, twice, as 0, as 1,000,001 and
/// 1,000,000, a byte short and one too long.
const FLOORS: &[(&[u8], Option<RecordFault>)] = &[
    (&FLOORED, None),
    (&SUMMED_FLOOR, None),
    (
        b"SITEREC1\x02\x03\x01\x00\x00\x00\x05\x01\x00\x00\x00\x01\x01\x00\x00\x00\x05\x05\x00\x00\x00\x41\x00",
        Some(RecordFault::Damaged),
    ),
    (
        b"SITEREC1\x02\x03\x01\x00\x00\x00\x05\x05\x00\x00\x00\x41\x01\x00\x00\x00\x05\x05\x00\x00\x00\x41\x00",
        Some(RecordFault::Damaged),
    ),
    (
        b"SITEREC1\x02\x03\x01\x00\x00\x00\x05\x05\x00\x00\x00\x00\x00",
        Some(RecordFault::Damaged),
    ),
    (
        b"SITEREC1\x02\x03\x01\x00\x00\x00\x05\x05\x00\x0f\x42\x41\x00",
        Some(RecordFault::Damaged),
    ),
    (
        b"SITEREC1\x02\x03\x01\x00\x00\x00\x05\x05\x00\x0f\x42\x40\x00",
        None,
    ),
    (
        b"SITEREC1\x02\x03\x01\x00\x00\x00\x04\x05\x00\x00\x41\x00",
        Some(RecordFault::Damaged),
    ),
    (
        b"SITEREC1\x02\x03\x01\x00\x00\x00\x06\x05\x00\x00\x00\x41\x00\x00",
        Some(RecordFault::Damaged),
    ),
];

#[test]
fn a_floor_is_the_first_entry_and_an_instance(rt: HostRuntime) {
    for &(bytes, want) in FLOORS {
        is_refused(&rt, rt.alloc(), 2, bytes, want);
    }
}

/// How many calls pass, what the crash chooses, if there is one, and then the file's length, and whether it
/// opens, with the floor.
const INTERRUPTED: &[(u32, Option<u8>, u64, bool)] = &[
    (0, None, 0, false),
    (1, Some(1), 0, false),
    (2, None, 10, false),
    (2, Some(0), 0, false),
    (2, Some(1), 10, false),
    (3, Some(1), 10, false),
    (4, None, 39, false),
    (4, Some(0), 10, false),
    (4, Some(1), 39, false),
    (4, Some(7), 39, false),
    (5, Some(0), 39, false),
    (5, Some(1), 39, false),
    (6, None, 39, true),
    (6, Some(0), 39, false),
    (6, Some(1), 39, true),
    (6, Some(7), 39, false),
    (7, Some(0), 39, true),
    (7, Some(7), 39, true),
];

/// A new record whose disk fails after `calls` calls, if it makes more than that.
fn interrupted(rt: &impl Abort, alloc: Global, calls: u32) -> MemDisk {
    let mut disk = MemDisk::new(alloc);
    disk.arm(calls);
    let made = format_above(rt, &mut disk);
    if calls < 7 {
        ends(rt, made, Err(RecordFault::Device));
    } else {
        ends(rt, made, Ok(()));
    }
    disk
}

fn interrupt(rt: &impl Abort, alloc: Global, row: (u32, Option<u8>, u64, bool)) {
    let (calls, choice, length, opens) = row;
    let mut disk = interrupted(rt, alloc, calls);
    ensure(rt, is_long_behind(&mut disk, choice, length), row);
    let found = found_floor(rt, alloc, disk);
    let wanted = if opens {
        Ok(65)
    } else {
        Err(RecordFault::NotARecord)
    };
    same(rt, (calls, choice, found), (calls, choice, wanted));
}

#[test]
fn each_call_of_a_format_fails(rt: HostRuntime) {
    for &row in INTERRUPTED {
        interrupt(&rt, rt.alloc(), row);
    }
}

/// Whatever a crash chooses after a format that a failed call of the disk ended, it leaves no record, or one
/// with the floor.
fn is_none_or_floor(rt: &impl Abort, alloc: Global, calls: u32, choice: u8) {
    let mut disk = interrupted(rt, alloc, calls);
    disk.crash(choice);
    let found = found_floor(rt, alloc, disk);
    let is_right = found == Ok(65) || found == Err(RecordFault::NotARecord);
    ensure(rt, is_right, (calls, choice));
}

#[test]
fn no_crash_leaves_a_record_without_its_floor(rt: HostRuntime) {
    for calls in 0..8 {
        for choice in 0..=255 {
            is_none_or_floor(&rt, rt.alloc(), calls, choice);
        }
    }
}
