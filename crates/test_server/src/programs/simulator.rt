//! What the simulator prints over readers and writers that fail at each byte.
use crate::comparing::ensure;
use crate::programs::ends::with_room;
use crate::programs::runs::{Printed, prints};
use sitectl::{Counted, sitesim};
use std::alloc::Global;
use std::process::Abort;
use test_ends::trickle;

const SCHEDULE: &str = "nodes 1\nsubmit 1 1 1 8\nrelease\n\ntick 1\nsettle\nshow 1\nget 1 1 /\n";

const PRINTED: &[u8] = b"node 1: up known 1 newest 1\nnode 1 release 1 /: 404 10\nnot found\n";

fn trickled(alloc: Global, good: usize, room: usize) -> Printed {
    let mut reader = Counted::new(trickle(SCHEDULE.as_bytes(), good));
    let mut out = with_room(alloc, room);
    let mut err = Counted::new(Vec::<u8>::new(alloc));
    let status = sitesim(alloc, &mut reader, &mut out, &mut err);
    Printed {
        status,
        out: out.into_inner().taken,
        err: err.into_inner(),
    }
}

/// It fails as its line says, after a beginning of what is printed.
fn is_begun(rt: &impl Abort, printed: &Printed) {
    let begun = printed.out.as_slice();
    prints(rt, printed, (1, begun, b"read failed\n"));
    ensure(rt, PRINTED.starts_with(begun), begun);
}

#[test]
fn a_reader_fails_anywhere(rt: HostRuntime) {
    for good in 0..=SCHEDULE.len() {
        is_begun(&rt, &trickled(rt.alloc(), good, 1000));
    }
    let whole = trickled(rt.alloc(), 1000, 1000);
    prints(&rt, &whole, (0, PRINTED, b""));
}

/// It fails as its line says, after that beginning of what is printed.
fn is_cut(rt: &impl Abort, alloc: Global, begun: &[u8]) {
    let printed = trickled(alloc, 1000, begun.len());
    prints(rt, &printed, (1, begun, b"write failed\n"));
}

#[test]
fn a_writer_fails_anywhere(rt: HostRuntime) {
    for room in 0..PRINTED.len() {
        is_cut(&rt, rt.alloc(), &PRINTED[..room]);
    }
}
