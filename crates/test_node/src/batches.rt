//! A batch of calls is judged by what is in memory. Whichever call of its seal fails, the node finds all of
//! it when it is opened again, or none of it. This is no schedule, since each line of a schedule is synced by
//! itself.
use crate::failures::FAILURES;
use crate::heard::Heard;
use crate::peer::Call;
use crate::said::Said;
use crate::samples::Text;
use crate::steps::{Step, act_all, reopened};
use node::NodeFault;
use std::alloc::Global;
use std::process::Abort;

/// A batch that puts a round, a promise and a vote on record. The vote is at the ballot promised in the
/// batch. Within the batch a request is judged by what was put before it: node 3 is refused when it prepares
/// round 1, below the promise.
const JUDGED: &[Step] = &[
    Step::Calls(Call::Begin),
    Step::Calls(Call::Tick),
    Step::Hears(Heard::Prepare(3, 1, 1, 2)),
    Step::Hears(Heard::Propose(3, 1, 2, Text::Raw("v"))),
    Step::Hears(Heard::Prepare(3, 1, 1, 1)),
    Step::Last(3, Said::Nack(1, 2)),
];

/// Its seal makes four calls of the device.
const SEALED: &[Step] = &[Step::Arm(4), Step::Calls(Call::Seal)];

/// A seal that fails, and what the node returns after it.
const NOT_SEALED: &[Step] = &[
    Step::Fails(Call::Seal, NodeFault::Device),
    Step::Stopped,
    Step::Fails(Call::Tick, NodeFault::Stopped),
    Step::Fails(Call::Begin, NodeFault::Stopped),
    Step::Fails(Call::Seal, NodeFault::Stopped),
];

/// All three entries show: the next round, the refusal below the promise, and the vote as round 3 is
/// promised.
const ALL: &[Step] = &[
    Step::Calls(Call::Tick),
    Step::Last(0, Said::Prepare(1, 2, 1)),
    Step::Hears(Heard::Prepare(3, 1, 1, 1)),
    Step::Last(3, Said::Nack(1, 2)),
    Step::Hears(Heard::Prepare(3, 1, 1, 3)),
    Step::Last(3, Said::Told(1, 2)),
];

/// None of them does.
const NONE: &[Step] = &[
    Step::Calls(Call::Tick),
    Step::Last(0, Said::Prepare(1, 1, 1)),
    Step::Hears(Heard::Prepare(3, 1, 1, 1)),
    Step::Last(3, Said::Promise(1)),
    Step::Hears(Heard::Prepare(3, 1, 1, 3)),
    Step::Last(3, Said::Promise(1)),
];

/// Steps before and after a crash by a choice, or without one.
fn find(rt: &impl Abort, alloc: Global, before: &[&[Step]], crash: Option<u8>, behind: &[Step]) {
    act_all(rt, &mut reopened(rt, alloc, before, crash), behind);
}

fn shown(all: bool) -> &'static [Step] {
    if all { ALL } else { NONE }
}

fn fail(rt: &impl Abort, alloc: Global, calls: u32, crash: Option<u8>, all: bool) {
    let armed = [Step::Arm(calls)];
    find(rt, alloc, &[JUDGED, &armed, NOT_SEALED], crash, shown(all));
}

#[test]
fn a_device_fails_at_each_call_of_a_seal(rt: HostRuntime) {
    for &(calls, crash, all) in FAILURES {
        fail(&rt, rt.alloc(), calls, crash, all);
    }
    find(&rt, rt.alloc(), &[JUDGED, SEALED], Some(0), ALL);
}

/// Calls after a seal, and a batch that puts nothing on record: it passes on a device that fails at once.
const GOES_ON: &[Step] = &[
    Step::Calls(Call::Seal),
    Step::Hears(Heard::Prepare(3, 1, 1, 3)),
    Step::Last(3, Said::Told(1, 2)),
    Step::Calls(Call::Begin),
    Step::Hears(Heard::Prepare(3, 1, 1, 1)),
    Step::Last(3, Said::Nack(1, 3)),
    Step::Arm(0),
    Step::Calls(Call::Seal),
];

/// The same as `ALL`, if round 3 was promised after the seal.
const ALL_AND_MORE: &[Step] = &[
    Step::Calls(Call::Tick),
    Step::Last(0, Said::Prepare(1, 2, 1)),
    Step::Hears(Heard::Prepare(3, 1, 1, 1)),
    Step::Last(3, Said::Nack(1, 3)),
    Step::Hears(Heard::Prepare(3, 1, 1, 3)),
    Step::Last(3, Said::Told(1, 2)),
];

#[test]
fn a_node_goes_on_behind_a_seal(rt: HostRuntime) {
    find(&rt, rt.alloc(), &[JUDGED, GOES_ON], Some(0), ALL_AND_MORE);
}
