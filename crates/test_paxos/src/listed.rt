//! The histories that a record stands for with one byte changed, computed from its own.
use crate::changes::{changed, other, places, with_byte};
use crate::samples::{ballot, instance, push, value, vote};
use crate::stored::one_of_three;
use site_ids::{Cluster, NodeId};
use std::alloc::Global;
use std::collections::BTreeMap;
use std::mem;
use std::process::Abort;
use test_record::entry::Entry;
use test_record::history::is_history;
use test_record::spelling::spelled;
use test_record::standing::stands_plainly_for;

/// The record of node 2 of 3. At 10 the gate of round 1, at 20 that of the promise of (1, 1) at instance 1,
/// at 35 that of the vote for `ab` at (2, 1) there, at 52 the last gate.
pub const RECORD: [u8; 53] =
    *b"SITEREC1\x02\x03\x01\x00\x00\x00\x05\x01\x00\x00\x00\x01\x01\x00\x00\x00\x0a\x02\x00\x00\x00\x01\x00\x00\x00\x01\x01\x01\x00\x00\x00\x0c\x03\x00\x00\x00\x01\x00\x00\x00\x02\x01ab\x00";

/// The same as a batch writes it, after the sum of its entries: at 10 the gate of the sum, at 28 that of the
/// first entry, at 70 the last gate.
pub const SUMMED: [u8; 71] =
    *b"SITEREC1\x02\x03\x01\x00\x00\x00\x0d\x18\x00\x00\x00*`\x9a\xe6Ms\x1e$\x0d\x01\x00\x00\x00\x05\x01\x00\x00\x00\x01\x01\x00\x00\x00\x0a\x02\x00\x00\x00\x01\x00\x00\x00\x01\x01\x01\x00\x00\x00\x0c\x03\x00\x00\x00\x01\x00\x00\x00\x02\x01ab\x00";

/// Its history.
pub fn entries(rt: &impl Abort, alloc: Global) -> Vec<Entry> {
    let first = instance(rt, 1);
    let voted = vote(rt, alloc, ballot(rt, 2, 1), "ab");
    let mut entries = Vec::new(alloc);
    push(rt, &mut entries, Entry::Round(1));
    let promised = Entry::Promised(first, ballot(rt, 1, 1));
    push(rt, &mut entries, promised);
    push(rt, &mut entries, Entry::Voted(first, voted));
    entries
}

/// The record of node 2 of 3 whose one entry is the promise of (1, 1) at the three instances from 5 on. At 10
/// its gate, at 26 the last one.
pub const SPANNED: [u8; 27] =
    *b"SITEREC1\x02\x03\x01\x00\x00\x00\x0b\x04\x00\x00\x00\x05\x03\x00\x00\x00\x01\x01\x00";

/// Its history.
pub fn spanned(rt: &impl Abort, alloc: Global) -> Vec<Entry> {
    let promised = Entry::PromisedSpan(instance(rt, 5), 3, ballot(rt, 1, 1));
    let mut entries = Vec::new(alloc);
    push(rt, &mut entries, promised);
    entries
}

/// The same after the sum of its entry: at 10 the gate of the sum, at 44 the last one.
pub const SPANNED_SUMMED: [u8; 45] =
    *b"SITEREC1\x02\x03\x01\x00\x00\x00\x0d\x18\x00\x00\x00\x10\xb3$\x04i\x888\xa2\x0e\x01\x00\x00\x00\x0b\x04\x00\x00\x00\x05\x03\x00\x00\x00\x01\x01\x00";

/// The record of node 2 of 3 whose one entry is `ab`, learned at instance 1. At 10 its gate, at 22 the last
/// one.
pub const LEARNED: [u8; 23] = *b"SITEREC1\x02\x03\x01\x00\x00\x00\x07\x06\x00\x00\x00\x01ab\x00";

/// The same after the sum of its entry: at 10 the gate of the sum, at 40 the last one.
pub const LEARNED_SUMMED: [u8; 41] =
    *b"SITEREC1\x02\x03\x01\x00\x00\x00\x0d\x18\x00\x00\x00\x0c\x83\x0e+\xdc:9\xf2V\x01\x00\x00\x00\x07\x06\x00\x00\x00\x01ab\x00";

/// Its history.
pub fn learned(rt: &impl Abort, alloc: Global) -> Vec<Entry> {
    let mut entries = Vec::new(alloc);
    let one = Entry::Learned(instance(rt, 1), value(rt, alloc, b"ab"));
    push(rt, &mut entries, one);
    entries
}

/// A record of node 2 of 3 whose one entry is a floor, 65, without a sum. At 10 its gate, at 20 the last one.
pub const FLOORED: [u8; 21] = *b"SITEREC1\x02\x03\x01\x00\x00\x00\x05\x05\x00\x00\x00\x41\x00";

/// The same as it is made in the place of a lost record, after the sum of the floor: at 10 the gate of the
/// sum, at 28 that of the floor, at 38 the last one.
pub const SUMMED_FLOOR: [u8; 39] =
    *b"SITEREC1\x02\x03\x01\x00\x00\x00\x0d\x18\x00\x00\x00\x0a\xc7\xe7\xa5\x8cq\xc5\xf6$\x01\x00\x00\x00\x05\x05\x00\x00\x00\x41\x00";

/// Its history.
pub fn floored(rt: &impl Abort, alloc: Global) -> Vec<Entry> {
    let mut entries = Vec::new(alloc);
    push(rt, &mut entries, Entry::Floor(instance(rt, 65)));
    entries
}

fn copies(rt: &impl Abort, alloc: Global, entries: &[Entry]) -> Vec<Entry> {
    let mut copies = Vec::new(alloc);
    for entry in entries {
        push(rt, &mut copies, entry.try_clone().expect(rt, "memory"));
    }
    copies
}

/// The entries with another one in the place of one of them.
fn replaced(
    rt: &impl Abort,
    alloc: Global,
    entries: &[Entry],
    at: usize,
    other: Entry,
) -> Vec<Entry> {
    let mut entries = copies(rt, alloc, entries);
    match entries.get_mut(at) {
        Some(there) => drop(mem::replace(there, other)),
        None => drop(other),
    }
    entries
}

/// The first byte that isn't the record's at its place.
fn first_other(record: &[u8], bytes: &[u8]) -> Option<(usize, u8)> {
    for (place, &byte) in bytes.iter().enumerate() {
        if place >= record.len() || record[place] != byte {
            return Some((place, byte));
        }
    }
    None
}

/// Histories by the place and the byte with which a record stands for them.
#[derive(Drop)]
pub struct Listed<'a> {
    alloc: Global,
    cluster: Cluster,
    node: NodeId,
    record: &'a [u8],
    histories: BTreeMap<(usize, u8), Vec<Entry>>,
}

impl<'a> Listed<'a> {
    /// Of this record and its history.
    pub fn of(rt: &impl Abort, alloc: Global, record: &'a [u8], entries: Vec<Entry>) -> Listed<'a> {
        let mut listed = Listed::new(rt, alloc, record);
        listed.list_all(rt, &entries);
        drop(entries);
        listed
    }

    /// Of this record, of which nothing is listed yet.
    fn new(rt: &impl Abort, alloc: Global, record: &'a [u8]) -> Listed<'a> {
        let (cluster, node) = one_of_three(rt, 2);
        Listed {
            alloc,
            cluster,
            node,
            record,
            histories: BTreeMap::new(alloc),
        }
    }

    pub fn record(&self) -> &[u8] {
        self.record
    }

    pub fn len(&self) -> usize {
        self.histories.len()
    }

    pub fn at(&self, place: usize, byte: u8) -> Option<&[Entry]> {
        match self.histories.get(&(place, byte)) {
            Some(history) => Some(history.as_slice()),
            None => None,
        }
    }

    /// Whether the record with this byte stands for these entries.
    fn stands_with(&self, rt: &impl Abort, place: usize, byte: u8, entries: &[Entry]) -> bool {
        let file = with_byte(rt, self.alloc, self.record, place, byte);
        stands_plainly_for(self.alloc, self.cluster, self.node, &file, entries).expect(rt, "memory")
    }

    /// Lists these entries if it does.
    fn list_at(&mut self, rt: &impl Abort, place: usize, byte: u8, entries: &[Entry]) {
        if self.stands_with(rt, place, byte, entries) {
            let history = copies(rt, self.alloc, entries);
            let listed: Result<_, _> = self.histories.insert((place, byte), history);
            drop(listed.expect(rt, "memory"));
        }
    }

    /// Lists these entries, which are spelled as `bytes`, at the first byte that differs from the record. If
    /// none differs, lists them at each byte in the place of the gate after them.
    fn list_spelled(&mut self, rt: &impl Abort, bytes: &[u8], entries: &[Entry]) {
        match first_other(self.record, bytes) {
            Some((place, byte)) => self.list_at(rt, place, byte, entries),
            None => {
                for byte in 0..=255 {
                    self.list_at(rt, bytes.len(), byte, entries);
                }
            }
        }
    }

    /// Lists these entries, if they are a history.
    fn list(&mut self, rt: &impl Abort, entries: &[Entry]) {
        if is_history(self.cluster, entries) {
            let bytes = spelled(self.alloc, self.cluster, self.node, entries).expect(rt, "memory");
            self.list_spelled(rt, &bytes, entries);
        }
    }

    /// Lists the entries with another one, if there is one, in the place of one of them.
    fn list_with(&mut self, rt: &impl Abort, entries: &[Entry], at: usize, other: Option<Entry>) {
        if let Some(other) = other {
            let entries = replaced(rt, self.alloc, entries, at, other);
            self.list(rt, &entries);
            drop(entries);
        }
    }

    /// Lists the entries with one of them changed.
    fn list_changes(&mut self, rt: &impl Abort, entries: &[Entry], at: usize, entry: &Entry) {
        for place in 0..places(entry) {
            for byte in 0..=255 {
                let other = changed(rt, self.alloc, self.cluster, entry, place, byte);
                self.list_with(rt, entries, at, other);
            }
            let other = other(rt, self.alloc, self.cluster, entry, place);
            self.list_with(rt, entries, at, other);
        }
    }

    /// Lists the beginnings of the record's entries, and the entries with one of them changed.
    fn list_all(&mut self, rt: &impl Abort, entries: &[Entry]) {
        self.list(rt, entries);
        for (at, entry) in entries.iter().enumerate() {
            self.list(rt, &entries[..at]);
            self.list_changes(rt, entries, at, entry);
        }
    }
}
