//! A record cut at each byte, and with each byte changed. What such bytes stand for is computed from the
//! definition of a record.
use crate::changes::with_byte;
use crate::comparing::{ensure, same};
use crate::listed::{
    FLOORED, LEARNED, LEARNED_SUMMED, Listed, RECORD, SPANNED, SPANNED_SUMMED, SUMMED,
    SUMMED_FLOOR, entries, floored, learned, spanned,
};
use crate::samples::{instance, is_bytes, is_text};
use crate::stored::{damaged_from, one_of_three, read_bytes};
use durable::{Record, RecordFault};
use site_disk::MemDisk;
use site_ids::Instance;
use std::alloc::Global;
use std::process::Abort;
use test_record::entry::Entry;
use test_record::recorded::{self, floor, greatest_round, is_slot, last_round, last_vote, reach};
use test_record::standing::{refusal, stands_plainly_for};

/// Worked out by hand: a place and a byte there. If the record then stands for a history, also how many
/// entries that has, its last round, and the value that is voted for at instance 1.
const LISTED: &[(usize, u8, Option<(usize, u32, &str)>)] = &[
    (9, 0, None),
    (11, 1, None),
    (15, 5, Some((3, 0, "ab"))),
    (15, 6, Some((3, 0, "ab"))),
    (25, 5, None),
    (16, 1, Some((3, 16_777_217, "ab"))),
    (19, 0, None),
    (25, 6, Some((3, 1, "ab"))),
    (25, 3, Some((3, 1, "ab"))),
    (33, 3, None),
    (40, 7, None),
    (39, 10, Some((3, 1, ""))),
    (39, 11, Some((3, 1, "a"))),
    (39, 13, None),
    (51, 0, Some((3, 1, "a\0"))),
    (52, 1, None),
    (52, 2, Some((3, 1, "ab"))),
];

/// How many histories are listed, worked out by hand too. At each of the four gates each byte except 1; in
/// each of the three kinds that of a learned value, in the first also that of a floor; in a number each byte
/// except its own, and except those that make it 0 or an instance above 1,000,000; and a promise's ballot
/// only up to that of the vote after it.
const COUNT: usize = 4 * 255
    + (3 + 1)
    // The round; the promise's kind, instance and ballot.
    + (3 * 255 + 254)
    + 1
    + (15 + 255 + 254)
    + (1 + 2)
    // The vote's length, instance, round, node and value.
    + 2
    + (15 + 255 + 254)
    + (3 * 255 + 254)
    + 2
    + 2 * 255;

/// The same for the record of a span. At its two gates each byte except 1; in the kind that of a vote for one
/// byte, and that of a learned value; each count from 2 to 64 except its own.
const SPANNED_COUNT: usize = 2 * 255
    // The kind, the first instance, the count, the ballot.
    + 2
    + (15 + 255 + 254)
    + 62
    + (3 * 255 + 254)
    + 2;

/// The same for the record of a learned value. At its two gates each byte except 1; the two shorter lengths;
/// the instance, the value.
const LEARNED_COUNT: usize = 2 * 255 + 2 + (15 + 255 + 254) + 2 * 255;

/// The same for the record of a floor. At its two gates each byte except 1; the kinds of a round and of a
/// learned value; the instance.
const FLOORED_COUNT: usize = 2 * 255 + 2 + (15 + 255 + 254);

/// Whether the record has the learned value that a history has at an instance, or neither has one.
fn is_learned_of(record: &Record<MemDisk>, history: &[Entry], instance: Instance) -> bool {
    match (
        record.learned(instance),
        recorded::learned(history, instance),
    ) {
        (Some(came), Some(wanted)) => is_bytes(came.as_bytes(), wanted.as_bytes()),
        (None, None) => true,
        _ => false,
    }
}

/// Whether the record has the slot of an instance, and what was learned there, as the history has them.
fn is_slot_of(record: &Record<MemDisk>, history: &[Entry], instance: Instance) -> bool {
    is_slot(history, instance, record.slot(instance)) && is_learned_of(record, history, instance)
}

/// Whether the record has the slots of `count` instances from `first` on, as far as there are instances.
fn tells_span(record: &Record<MemDisk>, history: &[Entry], first: Instance, count: u8) -> bool {
    for past in 0..count {
        if let Some(instance) = Instance::new(first.number() + past as u32) {
            if !is_slot_of(record, history, instance) {
                return false;
            }
        }
    }
    true
}

/// Whether the record has the slots of the instances that a history names, and of the one after a span.
fn tells_named(record: &Record<MemDisk>, history: &[Entry]) -> bool {
    for entry in history {
        let told = match entry {
            Entry::Round(_) => true,
            Entry::Promised(instance, _)
            | Entry::Voted(instance, _)
            | Entry::Learned(instance, _)
            | Entry::Floor(instance) => is_slot_of(record, history, *instance),
            Entry::PromisedSpan(first, count, _) => {
                tells_span(record, history, *first, count.saturating_add(1))
            }
        };
        if !told {
            return false;
        }
    }
    true
}

/// Whether the record has the floor, and reaches as far as the history.
fn tells_reach(record: &Record<MemDisk>, history: &[Entry]) -> bool {
    record.floor() == floor(history) && record.reach() == reach(history)
}

/// Whether the record has the history's rounds, floor and slots: those of the first three instances, and
/// those that the history names. No history here names more than two of the first three.
fn tells(rt: &impl Abort, record: &Record<MemDisk>, history: &[Entry]) -> bool {
    record.round() == last_round(history)
        && record.greatest_round() == greatest_round(history)
        && tells_reach(record, history)
        && tells_span(record, history, instance(rt, 1), 3)
        && tells_named(record, history)
}

/// Whether node 2 of three opens the bytes, and they stand for this history; if there is none, whether it
/// refuses them.
fn comes_to(rt: &impl Abort, alloc: Global, bytes: &[u8], history: Option<&[Entry]>) -> bool {
    match read_bytes(rt, alloc, 2, bytes) {
        Ok(record) => is_told(rt, alloc, record, bytes, history),
        Err(fault) => history.is_none() && is_refusal(rt, bytes, fault),
    }
}

/// Whether that is why node 2 refuses the bytes.
fn is_refusal(rt: &impl Abort, bytes: &[u8], fault: RecordFault) -> bool {
    let (cluster, node) = one_of_three(rt, 2);
    refusal(cluster, node, bytes) == fault
}

/// Whether the bytes stand for that history, and the record has it.
fn is_told(
    rt: &impl Abort,
    alloc: Global,
    record: Record<MemDisk>,
    bytes: &[u8],
    history: Option<&[Entry]>,
) -> bool {
    let is_told = match history {
        Some(history) => is_of(rt, alloc, bytes, history) && tells(rt, &record, history),
        None => false,
    };
    drop(record);
    is_told
}

/// Whether node 2's record of these bytes, which has no sum, stands for that history.
pub fn is_of(rt: &impl Abort, alloc: Global, bytes: &[u8], history: &[Entry]) -> bool {
    let (cluster, node) = one_of_three(rt, 2);
    stands_plainly_for(alloc, cluster, node, bytes, history).expect(rt, "memory")
}

/// The beginning of the entries that the bytes stand for.
fn beginning<'a>(
    rt: &impl Abort,
    alloc: Global,
    bytes: &[u8],
    entries: &'a [Entry],
) -> Option<&'a [Entry]> {
    for count in 0..=entries.len() {
        if is_of(rt, alloc, bytes, &entries[..count]) {
            return Some(&entries[..count]);
        }
    }
    None
}

fn cut_at_each_byte(rt: &impl Abort, alloc: Global, bytes: &[u8], entries: &[Entry]) {
    for len in 0..=bytes.len() {
        let history = beginning(rt, alloc, &bytes[..len], entries);
        ensure(rt, comes_to(rt, alloc, &bytes[..len], history), len);
    }
}

/// A gate's place and byte, as a torn put of the last entry leaves it, a torn batch of the last two, and one
/// of all three; and of a whole record.
const GATES: &[(usize, u8)] = &[(35, 0), (20, 0), (10, 0), (35, 1)];

/// Nothing after a closed gate is read, however many entries are there.
#[test]
fn a_record_cut_at_each_byte(rt: HostRuntime) {
    let alloc = rt.alloc();
    let entries = entries(&rt, alloc);
    for &(place, gate) in GATES {
        let bytes = with_byte(&rt, alloc, &RECORD, place, gate);
        cut_at_each_byte(&rt, alloc, &bytes, &entries);
    }
    drop(entries);
}

/// Whether a record with this byte at a place stands for what is listed, if the byte changes it.
fn changes(rt: &impl Abort, alloc: Global, listed: &Listed<'_>, place: usize, byte: u8) -> bool {
    let bytes = with_byte(rt, alloc, listed.record(), place, byte);
    is_bytes(&bytes, listed.record()) || comes_to(rt, alloc, &bytes, listed.at(place, byte))
}

/// The record with each other byte at a place stands for what is listed. It has `of` bytes.
fn change_byte(rt: &impl Abort, alloc: Global, listed: &Listed<'_>, place: usize, of: usize) {
    for byte in 0..=255 {
        ensure(
            rt,
            changes(rt, alloc, listed, place, byte),
            (byte, place, of),
        );
    }
}

fn change_each_byte(rt: &impl Abort, alloc: Global, listed: Listed<'_>) {
    let len = listed.record().len();
    for place in 0..len {
        change_byte(rt, alloc, &listed, place, len);
    }
    drop(listed);
}

#[test]
fn a_record_with_each_byte_changed(rt: HostRuntime) {
    let alloc = rt.alloc();
    let listed = Listed::of(&rt, alloc, &RECORD, entries(&rt, alloc));
    change_each_byte(&rt, alloc, listed);
    let listed = Listed::of(&rt, alloc, &SPANNED, spanned(&rt, alloc));
    change_each_byte(&rt, alloc, listed);
    let listed = Listed::of(&rt, alloc, &LEARNED, learned(&rt, alloc));
    change_each_byte(&rt, alloc, listed);
    let listed = Listed::of(&rt, alloc, &FLOORED, floored(&rt, alloc));
    change_each_byte(&rt, alloc, listed);
}

fn is_voted_for(rt: &impl Abort, history: &[Entry], text: &str) -> bool {
    match last_vote(history, instance(rt, 1)) {
        Some(vote) => is_text(&vote.value, text),
        None => false,
    }
}

/// Whether a history has as many entries as wanted, the last round, and a vote for the value at instance 1.
fn is_such(rt: &impl Abort, history: &[Entry], wanted: (usize, u32, &str)) -> bool {
    let (count, round, text) = wanted;
    history.len() == count && last_round(history) == round && is_voted_for(rt, history, text)
}

/// Whether what is wanted is listed; if nothing is wanted, whether nothing is listed.
fn is_right(rt: &impl Abort, listed: Option<&[Entry]>, wanted: Option<(usize, u32, &str)>) -> bool {
    match listed {
        Some(history) => matches!(wanted, Some(wanted) if is_such(rt, history, wanted)),
        None => wanted.is_none(),
    }
}

fn check_rows(rt: &impl Abort, listed: &Listed<'_>) {
    for &(place, byte, wanted) in LISTED {
        let is_right = is_right(rt, listed.at(place, byte), wanted);
        ensure(rt, is_right, (place, byte));
    }
}

#[test]
fn the_list_has_what_is_worked_out(rt: HostRuntime) {
    let alloc = rt.alloc();
    let listed = Listed::of(&rt, alloc, &RECORD, entries(&rt, alloc));
    same(&rt, listed.len(), COUNT);
    check_rows(&rt, &listed);
    drop(listed);
    let listed = Listed::of(&rt, alloc, &SPANNED, spanned(&rt, alloc));
    same(&rt, listed.len(), SPANNED_COUNT);
    drop(listed);
    let listed = Listed::of(&rt, alloc, &LEARNED, learned(&rt, alloc));
    same(&rt, listed.len(), LEARNED_COUNT);
    drop(listed);
    let listed = Listed::of(&rt, alloc, &FLOORED, floored(&rt, alloc));
    same(&rt, listed.len(), FLOORED_COUNT);
    drop(listed);
}

const BITS: &[u8] = &[1, 2, 4, 8, 16, 32, 64, 128];

/// A record of one batch after its sum: where its last gate is, and how many entries it has.
#[derive(Clone, Copy)]
struct OneBatch<'a> {
    record: &'a [u8],
    last: usize,
    count: usize,
}

impl<'a> OneBatch<'a> {
    /// The record of that many entries: its last byte is its last gate.
    fn of(record: &'a [u8], count: usize) -> OneBatch<'a> {
        OneBatch {
            record,
            last: record.len().saturating_sub(1),
            count,
        }
    }
}

/// What happens to the record if one bit of the byte at a place is flipped: how many entries are read, or the
/// refusal. `byte` is the flipped byte.
fn flipped(batch: OneBatch<'_>, place: usize, byte: u8) -> Result<usize, RecordFault> {
    match place {
        0..8 => Err(RecordFault::NotARecord),
        8 | 9 => Err(RecordFault::WrongNode),
        // the sum's gate: it is shut, which ends the list
        10 => Ok(0),
        // the last gate: only a byte that opens it changes what is read
        _ if place == batch.last && byte != 1 => Ok(batch.count),
        _ => Err(RecordFault::Damaged),
    }
}

/// The byte from which on the record is damaged then.
fn place_of(batch: OneBatch<'_>, place: usize, byte: u8) -> Result<Option<u64>, RecordFault> {
    match flipped(batch, place, byte) {
        Ok(_) => Ok(None),
        // the last gate is opened, and nothing comes after it
        Err(RecordFault::Damaged) if place == batch.last => Ok(Some(batch.last as u64)),
        Err(RecordFault::Damaged) => Ok(Some(10)),
        Err(fault) => Err(fault),
    }
}

/// Whether node 2 opens the bytes and finds that many of these entries, or refuses them so.
fn opens(
    rt: &impl Abort,
    alloc: Global,
    bytes: &[u8],
    wanted: Result<usize, RecordFault>,
    entries: &[Entry],
) -> bool {
    match (read_bytes(rt, alloc, 2, bytes), wanted) {
        (Ok(record), Ok(count)) => {
            let told = match entries.get(..count) {
                Some(entries) => tells(rt, &record, entries),
                None => false,
            };
            drop(record);
            told
        }
        (Err(came), Err(wanted)) => came == wanted,
        (Ok(record), Err(_)) => {
            drop(record);
            false
        }
        (Err(_), Ok(_)) => false,
    }
}

/// The record with each bit of the byte at a place flipped is read or refused as it should be.
fn flip_each_bit(
    rt: &impl Abort,
    alloc: Global,
    batch: OneBatch<'_>,
    entries: &[Entry],
    (place, was): (usize, u8),
) {
    for &bit in BITS {
        let byte = was ^ bit;
        let bytes = with_byte(rt, alloc, batch.record, place, byte);
        let wanted = flipped(batch, place, byte);
        ensure(rt, opens(rt, alloc, &bytes, wanted, entries), (place, byte));
        let from = place_of(batch, place, byte);
        same(rt, damaged_from(rt, alloc, &bytes), from);
        drop(bytes);
    }
}

/// The record opens. With each bit flipped it is read or refused as it should be.
fn flip_each(rt: &impl Abort, alloc: Global, batch: OneBatch<'_>, entries: Vec<Entry>) {
    let whole = opens(rt, alloc, batch.record, Ok(batch.count), &entries);
    ensure(rt, whole, batch.record.len());
    for (place, &was) in batch.record.iter().enumerate() {
        flip_each_bit(rt, alloc, batch, &entries, (place, was));
    }
    drop(entries);
}

/// Each flipped bit of what a sum covers is noticed, lengths and gates included, and so is each of the sum
/// itself. A sum's gate that is shut ends the list, as always.
#[test]
fn a_record_with_a_sum_and_each_bit_flipped(rt: HostRuntime) {
    let alloc = rt.alloc();
    let batch = OneBatch::of(&SUMMED, 3);
    flip_each(&rt, alloc, batch, entries(&rt, alloc));
    let span = OneBatch::of(&SPANNED_SUMMED, 1);
    flip_each(&rt, alloc, span, spanned(&rt, alloc));
    let value = OneBatch::of(&LEARNED_SUMMED, 1);
    flip_each(&rt, alloc, value, learned(&rt, alloc));
    let floor = OneBatch::of(&SUMMED_FLOOR, 1);
    flip_each(&rt, alloc, floor, floored(&rt, alloc));
}
