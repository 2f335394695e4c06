//! A history of a ledger, step by step.
use crate::comparing::same;
use crate::editors::ledgers::{plan, plan_release, receive, told};
use editor_ledger::Ledger;
use std::alloc::Global;
use std::process::Abort;

/// What happens to a ledger.
#[derive(Clone, Copy)]
enum Step {
    /// The commands of a folder are planned, a letter each.
    Plan(&'static str),
    Release,
    Receive(u64),
}

/// Each step, and the ledger after it.
const HISTORY: &[(Step, &str)] = &[
    (Step::Release, "1 0 "),
    (Step::Plan(""), "1 0 "),
    (Step::Plan("TA"), "3 0  1T 2A"),
    (Step::Receive(3), "3 0  1T 2A"),
    (Step::Receive(2), "3 0 A 1T"),
    (Step::Receive(2), "3 0 A 1T"),
    (Step::Receive(1), "3 0 AT"),
    (Step::Plan("TA"), "3 0 AT"),
    (Step::Release, "4 0 AT 3!"),
    (Step::Receive(3), "4 3 AT"),
    (Step::Release, "4 3 AT"),
    (Step::Plan("BR"), "7 3 AT 4B 5R 6t"),
    (Step::Receive(4), "7 3 TB 5R 6t"),
    (Step::Receive(6), "7 3 Bt 5R"),
    (Step::Receive(5), "7 3 BtR"),
    (Step::Plan("RT"), "9 3 BtR 7T 8a"),
    (Step::Receive(7), "9 3 BRT 8a"),
    (Step::Receive(8), "9 3 RTa"),
    (Step::Plan(""), "11 3 RTa 9r 10t"),
    (Step::Receive(9), "11 3 Tar 10t"),
    (Step::Receive(10), "11 3 art"),
];

fn take(rt: &impl Abort, alloc: Global, ledger: &mut Ledger, step: Step) {
    match step {
        Step::Plan(letters) => plan(rt, alloc, ledger, letters),
        Step::Release => plan_release(rt, alloc, ledger),
        Step::Receive(number) => receive(rt, ledger, number),
    }
}

fn is_told(rt: &impl Abort, alloc: Global, ledger: &Ledger, wanted: &str) {
    let line = told(alloc, ledger).expect(rt, "memory");
    same(rt, line.as_str(), wanted);
}

fn take_all(rt: &impl Abort, alloc: Global, ledger: &mut Ledger) {
    for &(step, wanted) in HISTORY {
        take(rt, alloc, ledger, step);
        is_told(rt, alloc, ledger, wanted);
    }
}

#[test]
fn history(rt: HostRuntime) {
    let mut ledger = Ledger::new(rt.alloc(), 7);
    take_all(&rt, rt.alloc(), &mut ledger);
    same(&rt, ledger.editor(), 7);
}
