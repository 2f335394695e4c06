//! The renderer over memory.

use crate::comparing::same;
use sitectl::{Counted, siterender};
use std::alloc::Global;
use std::process::Abort;

/// Four commands that make a greeting and release it.
pub(crate) const GREETING: &str =
    "1 1 35\nput template t\nHello, {{subject}}!\n1 2 30\nput data d\n{\"subject\":\"world\"}1 3 16\nput route / t d\n1 4 8\nrelease\n";

/// What a run printed, and its status.
#[derive(Drop)]
pub(crate) struct Printed {
    pub status: u8,
    pub out: Vec<u8>,
    pub err: Vec<u8>,
}

/// A run ended with this status, and printed this.
pub(crate) fn prints(rt: &impl Abort, printed: &Printed, wanted: (u8, &[u8], &[u8])) {
    let (out, err) = (printed.out.as_slice(), printed.err.as_slice());
    same(rt, (printed.status, out, err), wanted);
}

/// Runs the engine over memory.
pub(crate) fn run(alloc: Global, input: &[u8], release: Option<u64>, path: &str) -> Printed {
    let mut reader = Counted::new(input);
    let mut out = Counted::new(Vec::<u8>::new(alloc));
    let mut err = Counted::new(Vec::<u8>::new(alloc));
    let status = siterender(alloc, &mut reader, &mut out, &mut err, release, path);
    Printed {
        status,
        out: out.into_inner(),
        err: err.into_inner(),
    }
}
