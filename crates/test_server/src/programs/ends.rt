//! Readers that end and fail in mid-stream, and writers that fail.
use crate::comparing::{ensure, same};
use crate::programs::runs::{GREETING, Printed, prints, run};
use sitectl::{Counted, siterender};
use std::alloc::Global;
use std::io;
use std::io::Write;
use std::process::Abort;
use test_ends::{Sink, trickle};

pub(crate) fn with_room(alloc: Global, room: usize) -> Counted<Sink> {
    Counted::new(Sink::with_room(alloc, room))
}

/// What the greeting prints.
const PAGE: &[u8] = b"Hello, world!\n";

/// What is said if nothing is released.
const LINE: &[u8] = b"no release\n";

/// How it ends if a command is cut off.
const FRAMING: &[u8] = b": framing\n";

fn says_framing(rt: &impl Abort, printed: &Printed) {
    let err = printed.err.as_slice();
    same(rt, (printed.status, printed.out.is_empty()), (1, true));
    ensure(rt, err.ends_with(FRAMING), err);
}

/// Where a command ends.
const ENDS: &[usize] = &[0, 42, 79, 102];

fn cut_off(rt: &impl Abort, alloc: Global, input: &[u8]) {
    let printed = run(alloc, input, None, "/");
    if ENDS.contains(&input.len()) {
        prints(rt, &printed, (1, b"", LINE));
    } else {
        says_framing(rt, &printed);
    }
}

#[test]
fn input_cut_off_anywhere(rt: HostRuntime) {
    let whole = GREETING.as_bytes();
    for end in 0..whole.len() {
        cut_off(&rt, rt.alloc(), &whole[..end]);
    }
}

/// What is printed over a reader that fails after `good` calls, and how many calls failed.
fn over_reader(alloc: Global, good: usize) -> (Printed, u64) {
    let mut reader = Counted::new(trickle(GREETING.as_bytes(), good));
    let mut out = with_room(alloc, 1000);
    let mut err = with_room(alloc, 1000);
    let status = siterender(alloc, &mut reader, &mut out, &mut err, None, "/");
    let printed = Printed {
        status,
        out: out.into_inner().taken,
        err: err.into_inner().taken,
    };
    (printed, reader.failures())
}

fn read_over(rt: &impl Abort, alloc: Global, good: usize) {
    let (printed, failures) = over_reader(alloc, good);
    if good <= GREETING.len() {
        same(rt, failures, 1);
        prints(rt, &printed, (1, b"", b"read failed\n"));
    } else {
        same(rt, failures, 0);
        prints(rt, &printed, (0, PAGE, b""));
    }
}

#[test]
fn a_reader_fails_anywhere(rt: HostRuntime) {
    for good in 0..GREETING.len() + 2 {
        read_over(&rt, rt.alloc(), good);
    }
}

/// What is printed over writers with room for `out` and `err` bytes, and how many calls of each failed.
fn over_writers(alloc: Global, input: &str, out: usize, err: usize) -> (Printed, (u64, u64)) {
    let mut reader = Counted::new(input.as_bytes());
    let mut out = with_room(alloc, out);
    let mut err = with_room(alloc, err);
    let status = siterender(alloc, &mut reader, &mut out, &mut err, None, "/");
    let failures = (out.failures(), err.failures());
    let printed = Printed {
        status,
        out: out.into_inner().taken,
        err: err.into_inner().taken,
    };
    (printed, failures)
}

/// The first writer takes that beginning of the page, and the other one the line.
fn writes_to(rt: &impl Abort, alloc: Global, begun: &[u8]) {
    let (printed, failures) = over_writers(alloc, GREETING, begun.len(), 1000);
    same(rt, failures.0, 1);
    prints(rt, &printed, (1, begun, b"write failed\n"));
}

#[test]
fn a_writer_fails_anywhere(rt: HostRuntime) {
    for room in 0..PAGE.len() {
        writes_to(&rt, rt.alloc(), &PAGE[..room]);
    }
}

/// The first writer takes nothing, and the other one that beginning of the line.
fn writes_line_to(rt: &impl Abort, alloc: Global, begun: &[u8]) {
    let (printed, failures) = over_writers(alloc, "", 0, begun.len());
    same(rt, failures, (0, 1));
    prints(rt, &printed, (1, b"", begun));
}

#[test]
fn both_writers_fail(rt: HostRuntime) {
    for room in 0..LINE.len() {
        writes_line_to(&rt, rt.alloc(), &LINE[..room]);
    }
}

/// Holds what it was given until it is flushed.
#[derive(Drop)]
struct Held {
    held: Vec<u8>,
    shown: Vec<u8>,
}

impl Write for Held {
    fn write(&mut self, buf: &[u8]) -> io::Result<usize> {
        self.held.extend_from_slice(buf)?;
        Ok(buf.len())
    }

    fn flush(&mut self) -> io::Result<()> {
        self.shown.extend_from_slice(self.held.as_slice())?;
        self.held.clear();
        Ok(())
    }
}

/// What was flushed of a page.
fn flushed(rt: &impl Abort, alloc: Global) -> Vec<u8> {
    let mut reader = Counted::new(GREETING.as_bytes());
    let mut out = Counted::new(Held {
        held: Vec::new(alloc),
        shown: Vec::new(alloc),
    });
    let mut err = with_room(alloc, 1000);
    let status = siterender(alloc, &mut reader, &mut out, &mut err, None, "/");
    same(rt, status, 0);
    out.into_inner().shown
}

#[test]
fn what_is_written_is_flushed(rt: HostRuntime) {
    let shown = flushed(&rt, rt.alloc());
    same(&rt, shown.as_slice(), PAGE);
}
