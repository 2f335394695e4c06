//! What a server calls after the turns of a batch.
use crate::comparing::same;
use crate::group::node_of;
use crate::written_clock::{Call, called};
use server_pace::Due;
use site_ids::Instance;
use std::process::Abort;

/// What is due (a fresh value, a telling, a question, a tick), whether the server yields, and what it calls:
/// the first of them that applies. A tick is due after the patience, or at once.
const CALLS: &[(bool, bool, bool, bool, bool, Call)] = &[
    (false, false, false, false, false, Call::Widen),
    (false, false, false, true, false, Call::Tick),
    (false, false, true, false, false, Call::Ask),
    (false, false, true, true, false, Call::Tick),
    (false, true, false, false, false, Call::Tell(2, 7)),
    (false, true, false, true, false, Call::Tick),
    (false, true, true, false, false, Call::Ask),
    (false, true, true, true, false, Call::Tick),
    (true, false, false, false, false, Call::Tick),
    (true, false, true, true, false, Call::Tick),
    (true, true, true, true, false, Call::Tick),
    (false, false, false, false, true, Call::Nothing),
    (false, false, false, true, true, Call::Tick),
    (false, false, true, false, true, Call::Ask),
    (false, true, false, false, true, Call::Tell(2, 7)),
];

/// What is due, as above, if instances are to be put on record, too. That goes before everything except a
/// fresh value and a question.
const KEEPS: &[(bool, bool, bool, bool, bool, Call)] = &[
    (false, false, false, false, false, Call::Keep(5, 3)),
    (false, true, false, true, true, Call::Keep(5, 3)),
    (false, false, true, false, true, Call::Ask),
    (false, true, true, true, false, Call::Ask),
    (true, false, false, false, false, Call::Tick),
    (true, true, true, true, false, Call::Tick),
];

/// The instance of that number.
fn instance(rt: &impl Abort, number: u32) -> Instance {
    Instance::new(number).expect(rt, "an instance")
}

/// Checks each row. `block` is what is to be put on record.
fn each(
    rt: &impl Abort,
    rows: &[(bool, bool, bool, bool, bool, Call)],
    block: Option<(Instance, u32)>,
) {
    let to = node_of(rt, 3, 2);
    let first = instance(rt, 7);
    for &(fresh, telling, question, tick, yields, call) in rows {
        for at_once in [false, true] {
            let due = Due {
                fresh,
                block,
                telling: telling.then_some((to, first)),
                question,
                tick: tick && !at_once,
                answered: tick,
                goes_on: tick && at_once,
                waits: yields,
                yields,
            };
            let row = (fresh, telling, question, tick, yields);
            same(rt, (row, called(&due.last_call())), (row, call));
        }
    }
}

#[test]
fn one_call_is_due_behind_a_batch(rt: HostRuntime) {
    each(&rt, CALLS, None);
    each(&rt, KEEPS, Some((instance(&rt, 5), 3)));
}
