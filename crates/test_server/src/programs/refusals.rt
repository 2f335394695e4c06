//! Each call with one allocation that fails. It returns what it always returns, or that an allocation failed,
//! and then the next try returns what it always returns.
//!
//! Each test tries everything twice. A second program, `tools/gate/refuse-growths`, runs each test once for
//! each of its allocations, and makes that one fail: the first try meets it, the second does not. Without
//! that program no allocation fails.
use crate::comparing::ensure;
use crate::programs::runs::{GREETING, Printed, run};
use std::alloc::Global;
use std::process::Abort;

/// Two rows, each by a partial.
const ROWS: &str =
    "1 1 46\nput template t\n{{#rows}}\n  {{>row}}\n{{/rows}}\n1 2 38\nput partial row\n- {{name}} {{{name}}}\n1 3 49\nput data d\n{\"rows\":[{\"name\":\"a&b\"},{\"name\":\"c\"}]}1 4 16\nput route / t d\n1 5 8\nrelease\n";

fn is_page(printed: &Printed, body: &str) -> bool {
    printed.status == 0 && printed.out.as_slice() == body.as_bytes() && printed.err.is_empty()
}

/// Only one line: an allocation of the engine failed, or one of the writer over memory.
fn is_refusal(printed: &Printed) -> bool {
    let line = printed.err.as_slice();
    printed.status == 1
        && printed.out.is_empty()
        && (line == b"out of memory\n".as_slice() || line == b"write failed\n".as_slice())
}

/// Whether a run shows the page. If not, an allocation failed.
fn shows(rt: &impl Abort, printed: &Printed, body: &str) -> bool {
    if is_page(printed, body) {
        return true;
    }
    ensure(rt, is_refusal(printed), body);
    false
}

fn run_shows(rt: &impl Abort, alloc: Global, input: &str, body: &str) -> bool {
    shows(rt, &run(alloc, input.as_bytes(), None, "/"), body)
}

/// At most one of two runs has an allocation that fails.
fn engine(rt: &impl Abort, alloc: Global, input: &str, body: &str) {
    let first = run_shows(rt, alloc, input, body);
    let second = run_shows(rt, alloc, input, body);
    ensure(rt, first || second, body);
}

#[test]
fn the_engine(rt: HostRuntime) {
    engine(&rt, rt.alloc(), GREETING, "Hello, world!\n");
    engine(&rt, rt.alloc(), ROWS, "  - a&amp;b a&b\n  - c c\n");
}
