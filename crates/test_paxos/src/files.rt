//! A record on a real file. `tools/audit/trace-put` shows the system's calls of these tests.
use crate::comparing::{ensure, same};
use crate::disks::{lengthens, reads, syncs, writes};
use crate::samples::{ballot, instance};
use crate::stored::{ONE_ROUND, ends, one_of_three, opened, put_round, put_vote_for};
use durable::Record;
use site_disk::{Disk, FileDisk};
use std::alloc::{Alloc, Global};
use std::fs::{self, File, Files, OpenOptions};
use std::io::ErrorKind;
use std::os::unix::fs::FileExt;
use std::process::Abort;

const FOLDER: &str = "paxos_suite_files";

const FILE: &str = "paxos_suite_files/record";

const BATCH_FILE: &str = "paxos_suite_batch";

const LONG_FILE: &str = "paxos_suite_long";

/// An empty record of node 2 of three, which has grown by ten bytes.
const LONG: [u8; 21] = *b"SITEREC1\x02\x03\x00\x00\x00\x00\x00\x00\x00\x00\x00\x00\x00";

/// The system's error for a write to a file that is open for reading.
const EBADF: i32 = 9;

/// How many votes the batch has.
const VOTES: u32 = 64;

fn fills(file: &File, bytes: &mut [u8]) -> bool {
    file.read_exact_at(bytes, 0).is_ok()
}

/// The bytes of the file are these, as this handle reads them.
fn has_bytes(rt: &impl Abort, file: &File, wanted: [u8; 21]) {
    let mut bytes = [0; 21];
    ensure(rt, fills(file, &mut bytes), 21);
    same(rt, bytes, wanted);
}

/// This many calls failed, and the last one with an error of this kind.
fn has_failed(rt: &impl Abort, disk: &FileDisk, count: u64, kind: Option<ErrorKind>) {
    let last = match disk.last_failure() {
        Some(error) => Some(error.kind()),
        None => None,
    };
    same(rt, disk.failures(), count);
    ensure(rt, last == kind, count);
}

/// A read past the end fails, and no call did before. The disk keeps the system's error when calls succeed
/// again.
fn check_disk(rt: &impl Abort, mut disk: FileDisk) {
    has_failed(rt, &disk, 0, None);
    ensure(rt, !reads(&mut disk, 0, &mut [0; 22]), 22);
    ensure(rt, syncs(&mut disk), 0);
    has_failed(rt, &disk, 1, Some(ErrorKind::UnexpectedEof));
    drop(disk);
}

/// A disk whose file is open only for reading refuses each write, and keeps the error. The file does not
/// become longer, which is no failure.
fn check_read_only(rt: &impl Abort, file: File) {
    let mut disk = FileDisk::new(file);
    ensure(rt, !lengthens(&mut disk, 21, b"x"), 21);
    has_failed(rt, &disk, 0, None);
    ensure(rt, !writes(&mut disk, 0, b"x"), 0);
    let error = disk.last_failure().expect(rt, "an error");
    same(rt, error.raw_os_error(), Some(EBADF));
    drop(disk);
}

/// A record on a new file.
fn made(rt: &impl Abort, alloc: Global, file: File) -> Record<FileDisk> {
    let (cluster, node) = one_of_three(rt, 2);
    let mut disk = FileDisk::new(file);
    Record::format(cluster, node, &mut disk).expect(rt, "a record");
    opened(rt, alloc, disk)
}

/// A record on a new file takes a round, and the reader finds it while the record is open.
fn keep_round(rt: &impl Abort, alloc: Global, file: File, reader: &File) {
    let mut record = made(rt, alloc, file);
    ends(rt, put_round(&mut record, 1), Ok(()));
    has_bytes(rt, reader, ONE_ROUND);
    drop(record);
}

fn find_round(rt: &impl Abort, alloc: Global, file: File) {
    let record = opened(rt, alloc, FileDisk::new(file));
    same(rt, record.round(), 1);
    check_disk(rt, record.close());
}

/// Opens a file to read and write it, and makes it if it does not exist.
fn made_anew(rt: &(impl Files<File = File> + Abort), path: &str) -> File {
    let mut options = OpenOptions::new();
    options.read(true).write(true).create(true);
    options.open(rt, path).expect(rt, "a file")
}

fn length_of(rt: &impl Abort, file: &File) -> u64 {
    file.metadata().expect(rt, "a length").len()
}

fn open(rt: &(impl Files<File = File> + Abort), path: &str) -> File {
    File::open(rt, path).expect(rt, path)
}

fn sync_folder(rt: &(impl Files<File = File> + Abort)) {
    let folder = open(rt, FOLDER);
    folder.sync_all().expect(rt, "a sync");
}

/// Makes the folder, without what an earlier run left there.
fn make_folder(rt: &(impl Files + Alloc + Abort)) {
    let _ = fs::remove_dir_all(rt, FOLDER);
    fs::create_dir(rt, FOLDER).expect(rt, "a folder");
}

/// A record on a new file takes a round, and is found when the file is opened again.
fn keep(rt: &(impl Files<File = File> + Abort), alloc: Global) {
    let file = made_anew(rt, FILE);
    let reader = open(rt, FILE);
    keep_round(rt, alloc, file, &reader);
    sync_folder(rt);
    let file = made_anew(rt, FILE);
    same(rt, length_of(rt, &file), 21);
    find_round(rt, alloc, file);
    check_read_only(rt, reader);
}

#[test]
fn a_real_file_keeps_the_record(rt: HostRuntime) {
    make_folder(&rt);
    keep(&rt, rt.alloc());
    fs::remove_dir_all(&rt, FOLDER).expect(&rt, "no folder");
}

/// The record takes a vote at each of `VOTES` instances, all in one batch.
fn put_votes(rt: &impl Abort, alloc: Global, record: &mut Record<FileDisk>) {
    ends(rt, record.begin(), Ok(()));
    for at in 1..=VOTES {
        let vote = (instance(rt, at), ballot(rt, 1, 1));
        let put = put_vote_for(rt, alloc, record, vote, b"value");
        ends(rt, put, Ok(()));
    }
    ends(rt, record.seal(), Ok(()));
}

fn keep_votes(rt: &impl Abort, alloc: Global, file: File) {
    let mut record = made(rt, alloc, file);
    put_votes(rt, alloc, &mut record);
    drop(record);
}

fn has_votes(rt: &impl Abort, record: &Record<FileDisk>) {
    for at in 1..=VOTES {
        ensure(rt, record.slot(instance(rt, at)).vote.is_some(), at);
    }
}

fn find_votes(rt: &impl Abort, alloc: Global, file: File) {
    let record = opened(rt, alloc, FileDisk::new(file));
    has_votes(rt, &record);
    drop(record);
}

/// A new file, without what an earlier run left there.
fn new_batch_file(rt: &(impl Files<File = File> + Abort)) -> File {
    let _ = fs::remove_file(rt, BATCH_FILE);
    made_anew(rt, BATCH_FILE)
}

#[test]
fn a_real_file_keeps_a_batch(rt: HostRuntime) {
    keep_votes(&rt, rt.alloc(), new_batch_file(&rt));
    find_votes(&rt, rt.alloc(), made_anew(&rt, BATCH_FILE));
    fs::remove_file(&rt, BATCH_FILE).expect(&rt, "no file");
}

/// The reader finds zeros after an empty record that grew, and then a round in their place.
fn grow(rt: &impl Abort, alloc: Global, file: File, reader: &File) {
    let mut record = made(rt, alloc, file);
    same(rt, record.grow(11), Ok(true));
    has_bytes(rt, reader, LONG);
    ends(rt, put_round(&mut record, 1), Ok(()));
    has_bytes(rt, reader, ONE_ROUND);
    same(rt, length_of(rt, reader), 21);
    drop(record);
}

#[test]
fn a_real_file_grows(rt: HostRuntime) {
    let _ = fs::remove_file(&rt, LONG_FILE);
    let file = made_anew(&rt, LONG_FILE);
    let reader = open(&rt, LONG_FILE);
    grow(&rt, rt.alloc(), file, &reader);
    fs::remove_file(&rt, LONG_FILE).expect(&rt, "no file");
}
