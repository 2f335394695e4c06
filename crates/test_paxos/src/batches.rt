//! A record keeps all of a batch or none of it, whichever call of its seal fails and whatever a crash
//! chooses. A batch's bytes are those of single puts, after their sum.
use crate::changes::with_byte;
use crate::comparing::{ensure, same};
use crate::damage::is_of;
use crate::disks::{crashed_within, is_long, is_long_behind, reads};
use crate::listed::{RECORD, SPANNED_SUMMED, SUMMED, SUMMED_FLOOR, entries};
use crate::samples::{ballot, instance, is_bytes};
use crate::steps::{Step, act, disk_behind, take};
use crate::stored::{
    arm, damaged_from, disk_of, empty, ends, formatted, is_promised, opened, read_bytes,
};
use durable::{Record, RecordFault};
use site_disk::{Armed, Call, Disk, FailOnce, MemDisk};
use site_ids::Instance;
use std::alloc::Global;
use std::process::Abort;

/// How many calls of a seal pass, what the crash chooses, if there is one, and then the file's length and
/// whether the batch is kept.
const CRASHES: &[(u32, Option<u8>, u64, bool)] = &[
    (0, None, 11, false),
    (0, Some(0), 11, false),
    (0, Some(1), 11, false),
    (0, Some(7), 11, false),
    (1, None, 71, false),
    (1, Some(0), 11, false),
    (1, Some(1), 71, false),
    (1, Some(7), 71, false),
    (2, None, 71, false),
    (2, Some(0), 71, false),
    (2, Some(1), 71, false),
    (2, Some(7), 71, false),
    (3, None, 71, true),
    (3, Some(0), 71, false),
    (3, Some(1), 71, true),
    (3, Some(7), 71, false),
    (4, None, 71, true),
    (4, Some(0), 71, true),
    (4, Some(1), 71, true),
    (4, Some(7), 71, true),
];

/// How many calls pass before one fails, and whether the next opening finds the batch, without a crash.
const SEALS: &[(u32, bool)] = &[(0, false), (1, false), (2, false), (3, true)];

/// What a crash chooses after an opening.
const CHOICES: &[u8] = &[0, 1, 7];

const ROUND: Step = Step::Round(1);

const PROMISE: Step = Step::Promise(1, 1);

const VOTE: Step = Step::Vote(1, 2, "ab");

/// What `RECORD` holds.
const THREE: &[Step] = &[ROUND, PROMISE, VOTE];

const NOT_SEALED: &[Step] = &[Step::Begin, ROUND, PROMISE, VOTE];

const IN_ONE_BATCH: &[Step] = &[Step::Begin, ROUND, PROMISE, VOTE, Step::Seal];

/// The entries of `RECORD`, the second and the third after their sum.
const THE_LATER: [u8; 71] =
    *b"SITEREC1\x02\x03\x01\x00\x00\x00\x05\x01\x00\x00\x00\x01\x01\x00\x00\x00\x0d\x18\x00\x00\x00 \x06]\xbc\x13\xfd9x\xfa\x01\x00\x00\x00\x0a\x02\x00\x00\x00\x01\x00\x00\x00\x01\x01\x01\x00\x00\x00\x0c\x03\x00\x00\x00\x01\x00\x00\x00\x02\x01ab\x00";

/// The same, the first and the second after their sum.
const THE_FIRST: [u8; 71] =
    *b"SITEREC1\x02\x03\x01\x00\x00\x00\x0d\x18\x00\x00\x00\x19`\xef\xa0v\xe89\x02\xfd\x01\x00\x00\x00\x05\x01\x00\x00\x00\x01\x01\x00\x00\x00\x0a\x02\x00\x00\x00\x01\x00\x00\x00\x01\x01\x01\x00\x00\x00\x0c\x03\x00\x00\x00\x01\x00\x00\x00\x02\x01ab\x00";

/// The same, the first after its sum, and the third after its own.
const TWICE: [u8; 89] =
    *b"SITEREC1\x02\x03\x01\x00\x00\x00\x0d\x18\x00\x00\x00\x0a\x9a\xd4\x91\x0b\xa7`7;\x01\x00\x00\x00\x05\x01\x00\x00\x00\x01\x01\x00\x00\x00\x0a\x02\x00\x00\x00\x01\x00\x00\x00\x01\x01\x01\x00\x00\x00\x0d\x18\x00\x00\x00\x11\x89\x04\xd1\xc0\x01d\x07U\x01\x00\x00\x00\x0c\x03\x00\x00\x00\x01\x00\x00\x00\x02\x01ab\x00";

/// Steps that write the entries of `RECORD`, the bytes, and how many writes and syncs there are then,
/// including an opening's.
const WRITERS: &[(&[Step], &[u8], usize)] = &[
    (THREE, &RECORD, 13),
    (IN_ONE_BATCH, &SUMMED, 5),
    (
        &[ROUND, Step::Begin, PROMISE, VOTE, Step::Seal],
        &THE_LATER,
        9,
    ),
    (
        &[Step::Begin, ROUND, Step::Begin, PROMISE, Step::Seal, VOTE],
        &THE_FIRST,
        9,
    ),
    (
        &[
            Step::Begin,
            ROUND,
            Step::Seal,
            Step::Seal,
            PROMISE,
            Step::Begin,
            VOTE,
            Step::Seal,
        ],
        &TWICE,
        13,
    ),
];

/// Further steps, which a record that stopped refuses.
const REFUSED: &[Step] = &[Step::Begin, Step::Round(9), Step::Promise(9, 9), Step::Seal];

/// The record has these rounds.
fn tells_rounds<D: Disk>(rt: &impl Abort, record: &Record<D>, round: u32, greatest: u32) {
    let rounds = (record.round(), record.greatest_round());
    same(rt, rounds, (round, greatest));
}

/// Whether a vote at that instance is on record if `voted`, and none if not.
fn is_voted<D: Disk>(record: &Record<D>, at: Instance, voted: bool) -> bool {
    record.slot(at).vote.is_some() == voted
}

/// The record has the three entries, or none of them.
fn tells<D: Disk>(rt: &impl Abort, record: &Record<D>, all: bool) {
    ensure(rt, is_voted(record, instance(rt, 1), all), all);
    if all {
        tells_rounds(rt, record, 1, 2);
        is_promised(rt, record, Some(ballot(rt, 2, 1)));
    } else {
        tells_rounds(rt, record, 0, 0);
        is_promised(rt, record, None);
    }
}

/// A batch of three, whose seal returns `sealed`.
fn seal_three<D: Disk>(
    rt: &impl Abort,
    alloc: Global,
    record: &mut Record<D>,
    sealed: Result<(), RecordFault>,
) {
    take(rt, alloc, record, THREE);
    tells(rt, record, true);
    ends(rt, record.seal(), sealed);
    tells(rt, record, true);
}

/// A record that stopped takes nothing more.
fn is_over<D: Disk>(rt: &impl Abort, alloc: Global, record: &mut Record<D>) {
    same(rt, record.is_stopped(), true);
    for (number, &step) in REFUSED.iter().enumerate() {
        let came = act(rt, alloc, record, step);
        same(rt, (number, came), (number, Err(RecordFault::Stopped)));
    }
}

/// A batch of three, of which `calls` calls of the disk pass.
fn seal_armed<D: Armed>(rt: &impl Abort, alloc: Global, record: &mut Record<D>, calls: u32) {
    ends(rt, record.begin(), Ok(()));
    arm(record, calls);
    if calls < 4 {
        seal_three(rt, alloc, record, Err(RecordFault::Device));
        is_over(rt, alloc, record);
    } else {
        seal_three(rt, alloc, record, Ok(()));
    }
}

/// The next opening finds the three entries, or none of them.
fn finds(rt: &impl Abort, alloc: Global, disk: MemDisk, all: bool) {
    let record = opened(rt, alloc, disk);
    tells(rt, &record, all);
    drop(record);
}

/// After the crash the file has that length, and the next opening finds the batch or not.
fn crash(rt: &impl Abort, alloc: Global, row: (u32, Option<u8>, u64, bool)) {
    let (calls, choice, length, all) = row;
    let mut record = empty(rt, alloc);
    seal_armed(rt, alloc, &mut record, calls);
    let mut disk = record.close();
    ensure(rt, is_long_behind(&mut disk, choice, length), row);
    finds(rt, alloc, disk, all);
}

#[test]
fn a_crash_after_each_call_of_a_seal_keeps_all_or_none(rt: HostRuntime) {
    for &row in CRASHES {
        crash(&rt, rt.alloc(), row);
    }
}

/// The disk of a seal of which one call failed.
fn failed_seal(rt: &impl Abort, alloc: Global, calls: u32) -> FailOnce<MemDisk> {
    let mut record = opened(rt, alloc, FailOnce::new(formatted(rt, alloc)));
    seal_armed(rt, alloc, &mut record, calls);
    let disk = record.close();
    same(rt, disk.failures(), 1);
    disk
}

fn settles(rt: &impl Abort, alloc: Global, calls: u32, choice: u8, all: bool) {
    let record = opened(rt, alloc, failed_seal(rt, alloc, calls));
    tells(rt, &record, all);
    finds(rt, alloc, crashed_within(record.close(), choice), all);
}

/// Whatever a crash chooses after an opening, what the opening found is kept.
#[test]
fn an_opening_settles_the_batch(rt: HostRuntime) {
    for &(calls, all) in SEALS {
        for &choice in CHOICES {
            settles(&rt, rt.alloc(), calls, choice, all);
        }
    }
}

/// Nothing of a batch that isn't sealed is on the disk.
#[test]
fn a_batch_that_is_not_sealed_is_lost(rt: HostRuntime) {
    let mut disk = disk_behind(&rt, rt.alloc(), NOT_SEALED);
    ensure(&rt, is_long(&mut disk, 11), 11);
    finds(&rt, rt.alloc(), disk, false);
}

fn writes_and_syncs(calls: &[Call]) -> usize {
    let mut count: usize = 0;
    for call in calls {
        if matches!(call, Call::Write { .. } | Call::Sync) {
            count = count.saturating_add(1);
        }
    }
    count
}

/// How many writes and syncs these steps make, including an opening's.
fn calls_of(rt: &impl Abort, alloc: Global, steps: &[Step]) -> usize {
    let disk = disk_behind(rt, alloc, steps);
    let calls = writes_and_syncs(disk.calls());
    drop(disk);
    calls
}

/// These steps write these bytes, with `calls` writes and syncs, including an opening's.
fn write(rt: &impl Abort, alloc: Global, steps: &[Step], wanted: &[u8], calls: usize) {
    let mut disk = disk_behind(rt, alloc, steps);
    same(rt, writes_and_syncs(disk.calls()), calls);
    let mut room = [0; 89];
    let bytes = room.get_mut(..wanted.len()).expect(rt, "room");
    ensure(rt, reads(&mut disk, 0, bytes), calls);
    ensure(rt, is_bytes(bytes, wanted), calls);
    ensure(rt, is_long(&mut disk, wanted.len() as u64), calls);
    drop(disk);
}

const SPAN_BATCH: &[Step] = &[Step::Begin, Step::Span(5, 3, 1), Step::Seal];

const EMPTY_BATCH: &[Step] = &[Step::Begin, Step::Seal];

/// However a record's entries came there, their bytes are the same. A batch's entries come after their sum.
#[test]
fn batches_and_puts_write_the_same_bytes(rt: HostRuntime) {
    let alloc = rt.alloc();
    for &(steps, wanted, calls) in WRITERS {
        write(&rt, alloc, steps, wanted, calls);
    }
    write(&rt, alloc, SPAN_BATCH, &SPANNED_SUMMED, 5);
    same(&rt, calls_of(&rt, alloc, EMPTY_BATCH), 1);
}

/// The record that these steps write.
fn record_behind(rt: &impl Abort, alloc: Global, steps: &[Step]) -> [u8; 71] {
    let mut disk = disk_behind(rt, alloc, steps);
    let mut bytes = [0; 71];
    ensure(rt, reads(&mut disk, 0, &mut bytes), 71);
    drop(disk);
    bytes
}

/// What a batch wrote after its sum is what the definition of a record reads there.
#[test]
fn a_batch_stands_for_its_entries(rt: HostRuntime) {
    let batch = record_behind(&rt, rt.alloc(), IN_ONE_BATCH);
    let mut bytes = [0; 53];
    bytes[..10].copy_from_slice(&batch[..10]);
    bytes[10..].copy_from_slice(&batch[28..]);
    let entries = entries(&rt, rt.alloc());
    ensure(&rt, is_of(&rt, rt.alloc(), &bytes, &entries), bytes.len());
    drop(entries);
}

const FURTHER: &[Step] = &[
    Step::Begin,
    Step::Round(5),
    Step::Span(1, 2, 6),
    Step::Seal,
    Step::Vote(2, 6, "w"),
];

/// The record has what it had before, and what `FURTHER` put.
fn tells_further(rt: &impl Abort, record: Record<MemDisk>) {
    tells_rounds(rt, &record, 5, 6);
    is_promised(rt, &record, Some(ballot(rt, 6, 1)));
    ensure(rt, is_voted(&record, instance(rt, 2), true), 2);
    drop(record);
}

/// A record that single puts wrote takes a batch, and one that a batch wrote takes a put.
#[test]
fn a_stored_record_goes_on(rt: HostRuntime) {
    let alloc = rt.alloc();
    let mut record = opened(&rt, alloc, disk_of(&rt, alloc, &RECORD));
    take(&rt, alloc, &mut record, FURTHER);
    tells_further(&rt, opened(&rt, alloc, record.close()));
}

/// A floor of 65 after its sum, and then a batch of round 1.
const FLOOR_AND_ROUND: [u8; 67] =
    *b"SITEREC1\x02\x03\x01\x00\x00\x00\x0d\x18\x00\x00\x00\x0a\xc7\xe7\xa5\x8cq\xc5\xf6$\x01\x00\x00\x00\x05\x05\x00\x00\x00\x41\x01\x00\x00\x00\x0d\x18\x00\x00\x00\x0a\x9a\xd4\x91\x0b\xa7`7;\x01\x00\x00\x00\x05\x01\x00\x00\x00\x01\x00";

/// Records whose first gate is shut, and whether an open gate after a batch shows that an accident shut it.
const SHUT: &[(&[u8], bool)] = &[
    (&TWICE, true),
    (&FLOOR_AND_ROUND, true),
    (&SUMMED_FLOOR, false),
    (&THE_FIRST, true),
    (&SUMMED, false),
    (&THE_LATER, false),
    (&RECORD, false),
];

/// If an accident shuts a batch's gate, that is noticed as long as a gate after the batch is open.
#[test]
fn a_gate_that_an_accident_shut(rt: HostRuntime) {
    let alloc = rt.alloc();
    for &(record, noticed) in SHUT {
        let bytes = with_byte(&rt, alloc, record, 10, 3);
        let cut = read_bytes(&rt, alloc, 2, &bytes).map(|opened| opened.is_cut_short());
        same(&rt, cut, Ok(noticed));
        let from = if noticed { Some(10) } else { None };
        same(&rt, damaged_from(&rt, alloc, &bytes), Ok(from));
        let whole = read_bytes(&rt, alloc, 2, record).map(|opened| opened.is_cut_short());
        same(&rt, whole, Ok(false));
        drop(bytes);
    }
}
