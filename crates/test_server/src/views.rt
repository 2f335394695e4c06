//! What is reported of records.

use crate::comparing::{ensure, same};
use durable::RecordFault;
use server_inspect::{View, lines_of};
use site_disk::{Disk, MemDisk};
use std::alloc::Global;
use std::process::Abort;

/// A file, and what is reported of it, or why it is refused.
type Row = (&'static [u8], Result<&'static str, RecordFault>);

const ROWS: &[Row] = &[
    (
        b"SITEREC1\x02\x03\x00",
        Ok("node: 2\nnodes: 3\nvotes: 0\nlearned: 0\nlast instance: 0\nreaches: 0\nbytes: 11\n"),
    ),
    // a promise and a round are neither votes nor learned
    (
        b"SITEREC1\x01\x03\x01\x00\x00\x00\x0a\x02\x00\x00\x00\x09\x00\x00\x00\x01\x01\x01\x00\x00\x00\x05\x01\x00\x00\x00\x07\x00",
        Ok("node: 1\nnodes: 3\nvotes: 0\nlearned: 0\nlast instance: 0\nreaches: 0\nbytes: 36\n"),
    ),
    // a floor
    (
        b"SITEREC1\x01\x05\x01\x00\x00\x00\x05\x05\x00\x00\x00\x41\x00",
        Ok(
            "node: 1\nnodes: 5\nvotes: 0\nlearned: 0\nlast instance: 0\nfloor: 65\nreaches: 65\nbytes: 21\n",
        ),
    ),
    // a vote past it, a value learned past that, one below; and a torn end
    (
        b"SITEREC1\x09\x09\x01\x00\x00\x00\x05\x05\x00\x00\x00\x41\x01\x00\x00\x00\x0b\x03\x00\x00\x00\x42\x00\x00\x00\x01\x01v\x01\x00\x00\x00\x06\x06\x00\x00\x00\x46x\x01\x00\x00\x00\x06\x06\x00\x00\x00\x01y\x00\x01\x02\x03",
        Ok(
            "node: 9\nnodes: 9\nvotes: 1\nlearned: 2\nlast instance: 70\nfloor: 65\nreaches: 66\nbytes: 62\n",
        ),
    ),
    // two votes at one instance
    (
        b"SITEREC1\x01\x01\x01\x00\x00\x00\x0b\x03\x00\x0f\x42\x40\x00\x00\x00\x01\x01v\x01\x00\x00\x00\x0b\x03\x00\x0f\x42\x40\x00\x00\x00\x02\x01v\x00",
        Ok(
            "node: 1\nnodes: 1\nvotes: 1\nlearned: 0\nlast instance: 1000000\nreaches: 1000000\nbytes: 43\n",
        ),
    ),
    (b"", Err(RecordFault::NotARecord)),
    (b"abc", Err(RecordFault::NotARecord)),
    (b"SITEREC1\x02\x03", Err(RecordFault::NotARecord)),
    // a format above a floor that was cut short
    (
        b"\x00\x00\x00\x00\x00\x00\x00\x00\x01\x05\x01\x00\x00\x00\x05\x05\x00\x00\x00\x41\x00",
        Err(RecordFault::NotARecord),
    ),
    (b"SITEREC1\x00\x03\x00", Err(RecordFault::WrongNode)),
    (b"SITEREC1\x04\x03\x00", Err(RecordFault::WrongNode)),
    (b"SITEREC1\x01\x00\x00", Err(RecordFault::WrongNode)),
    (b"SITEREC1\x01\x0a\x00", Err(RecordFault::WrongNode)),
    (b"SITEREC1\x01\x03\x01", Err(RecordFault::Damaged)),
    // a floor after a round
    (
        b"SITEREC1\x01\x05\x01\x00\x00\x00\x05\x01\x00\x00\x00\x07\x01\x00\x00\x00\x05\x05\x00\x00\x00\x41\x00",
        Err(RecordFault::Damaged),
    ),
];

/// A disk that holds these bytes.
fn disk_of(rt: &impl Abort, alloc: Global, bytes: &[u8]) -> MemDisk {
    let mut disk = MemDisk::new(alloc);
    ensure(rt, disk.write_at(0, bytes).is_ok(), bytes.len());
    disk
}

/// What is reported of the record on that disk.
fn told(rt: &impl Abort, alloc: Global, disk: MemDisk) -> Result<String, RecordFault> {
    match View::of(alloc, disk) {
        Ok(view) => Ok(lines_of(alloc, &view).expect(rt, "memory")),
        Err((fault, disk)) => {
            drop(disk);
            Err(fault)
        }
    }
}

fn tells(rt: &impl Abort, alloc: Global, row: Row) {
    let (bytes, wanted) = row;
    match told(rt, alloc, disk_of(rt, alloc, bytes)) {
        Ok(text) => same(rt, Ok(text.as_str()), wanted),
        Err(fault) => same(rt, Err(fault), wanted),
    }
}

#[test]
fn records_are_told_by_lines(rt: HostRuntime) {
    for &row in ROWS {
        tells(&rt, rt.alloc(), row);
    }
}
