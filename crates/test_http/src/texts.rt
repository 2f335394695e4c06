//! Texts that are put together.
use std::alloc::Global;
use std::process::Abort;

/// Three texts, one after the other.
pub(crate) fn joined(
    rt: &impl Abort,
    alloc: Global,
    before: &str,
    part: &str,
    behind: &str,
) -> String {
    [before, part, behind].join(alloc, "").expect(rt, "memory")
}

/// This text, repeated.
pub(crate) fn times(rt: &impl Abort, alloc: Global, part: &str, count: usize) -> String {
    part.repeat(alloc, count).expect(rt, "memory")
}
