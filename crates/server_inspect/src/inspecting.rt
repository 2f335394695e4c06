//! Prints what a record holds.

ghost use Rattle.http_read.specs.Bytes.{end_of};
ghost use Rattle.server_inspect.specs.Inspecting.{HasInspected, HasShown, Refuses, SaysMore};

use crate::lines::lines_of;
use crate::snapshot::{End, Snapshot};
use crate::view::{View, damage_of};
use durable::RecordFault;
use engine_common::say as say_line;
use http_read::{Counted, write_all};
use server_faults::{Cause, ServerFault, say, say_where_of_record, say_why_of_record};
use std::alloc::Global;
use std::fs::File;
use std::io;
use std::io::Write;
use std::rt::Files;

/// How many times a file that seems damaged is read: a node may have written over a torn end while it was
/// read.
const READS: u32 = 10;

/// The file as it is now.
fn open<R: Files<File = File>>(
    rt: &R,
    path: &str,
    cause: &mut Cause,
) -> Result<Snapshot, RecordFault> {
    match File::open(rt, path) {
        Ok(file) => match Snapshot::new(file) {
            Ok(snapshot) => Ok(snapshot),
            Err(file) => {
                cause.error = file.last_failure();
                Err(RecordFault::Device)
            }
        },
        Err(e) if e.kind() == io::ErrorKind::OutOfMemory => Err(RecordFault::OutOfMemory),
        Err(e) => {
            cause.error = Some(e);
            Err(RecordFault::Device)
        }
    }
}

/// Why a record is refused: the end of its file, if that was seen, and the byte from which on it is damaged,
/// if that was found.
#[derive(Clone, Copy, Drop)]
struct Refusal {
    fault: RecordFault,
    end: Option<End>,
    place: Option<u64>,
}

/// The byte from which on a record is damaged, if it was refused for that.
fn place_of(alloc: Global, fault: RecordFault, snapshot: &mut Snapshot) -> Option<u64> {
    if fault != RecordFault::Damaged {
        return None;
    }
    damage_of(alloc, snapshot).unwrap_or(None)
}

/// What is reported of the record; or why it is refused.
fn look<R: Files<File = File>>(
    rt: &R,
    alloc: Global,
    path: &str,
    cause: &mut Cause,
) -> Result<View, Refusal> {
    let snapshot = match open(rt, path, cause) {
        Ok(snapshot) => snapshot,
        Err(fault) => {
            return Err(Refusal {
                fault,
                end: None,
                place: None,
            });
        }
    };
    let end = Some(snapshot.end());
    match View::of(alloc, snapshot) {
        Ok(view) => Ok(view),
        Err((fault, mut snapshot)) => {
            cause.error = snapshot.file().last_failure();
            let place = place_of(alloc, fault, &mut snapshot);
            Err(Refusal { fault, end, place })
        }
    }
}

/// The same, read again as long as it seems damaged and changes.
fn look_again<R: Files<File = File>>(
    rt: &R,
    alloc: Global,
    path: &str,
    cause: &mut Cause,
) -> Result<View, Refusal> {
    let mut before = None;
    for _ in 1..READS {
        match look(rt, alloc, path, cause) {
            Err(refusal) if refusal.fault == RecordFault::Damaged && refusal.end != before => {
                before = refusal.end;
            }
            looked => return looked,
        }
    }
    look(rt, alloc, path, cause)
}

/// Prints what is reported of the record.
fn show<W: Write, E: Write>(
    alloc: Global,
    out: &mut Counted<W>,
    err: &mut Counted<E>,
    view: &View,
) -> u8
    ensures { HasShown (end_of W.contents out.old out.new) (end_of E.contents err.old err.new) result }
{
    match lines_of(alloc, view) {
        Ok(text) => match write_all(out, text.as_bytes()) {
            Ok(()) => 0,
            Err(_) => say_line(err, "write failed\n"),
        },
        Err(_) => say_line(err, "out of memory\n"),
    }
}

/// Says what is wrong with it, and where.
fn say_more<E: Write>(
    alloc: Global,
    err: &mut Counted<E>,
    path: &str,
    refusal: Refusal,
    cause: &Cause,
)
    ensures { SaysMore (end_of E.contents err.old err.new) path.now refusal.place }
{
    match refusal.place {
        Some(at) => say_where_of_record(alloc, err, path, at),
        None if refusal.fault == RecordFault::OutOfMemory => {}
        None => say_why_of_record(alloc, err, path, refusal.fault, cause, false),
    }
}

/// Says why it is refused.
fn refuse<E: Write>(
    alloc: Global,
    err: &mut Counted<E>,
    path: &str,
    refusal: Refusal,
    cause: &Cause,
) -> u8
    ensures { Refuses (end_of E.contents err.old err.new) path.now refusal.fault refusal.place result }
{
    let status = say(alloc, err, ServerFault::from(refusal.fault));
    say_more(alloc, err, path, refusal, cause);
    status
}

/// Prints what the record at a path holds, even if a node has it locked. Returns the exit status.
pub fn inspect<R: Files<File = File>, W: Write, E: Write>(
    rt: &R,
    alloc: Global,
    out: &mut Counted<W>,
    err: &mut Counted<E>,
    path: &str,
) -> u8
    ensures { HasInspected (end_of W.contents out.old out.new)
        (end_of E.contents err.old err.new) path.now result }
{
    let mut cause = Cause::none();
    match look_again(rt, alloc, path, &mut cause) {
        Ok(view) => show(alloc, out, err, &view),
        Err(refusal) => refuse(alloc, err, path, refusal, &cause),
    }
}
