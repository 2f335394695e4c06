//! A node whose record has a floor is mute up to it. This is no schedule, since there a floor is 64 or more,
//! and no line shows how far a record reaches. (`examples/schedules/replaced` and the cases `floors` are.)
use crate::heard::Heard;
use crate::peer::{Call, Peer};
use crate::said::Said;
use crate::samples::{NOTHING, RELEASE, Text};
use crate::steps::{Step, act_all};
use node::NodeFault;
use std::alloc::Global;
use std::process::Abort;

/// Steps of a node that was replaced above that floor.
fn play_above(rt: &impl Abort, alloc: Global, floor: u32, steps: &[Step]) {
    act_all(rt, &mut Peer::replaced(rt, alloc, floor), steps);
}

/// Requests up to the floor, and for a span that begins there, count only as a reason for a tick.
const REQUESTS: &[Step] = &[
    Step::Reaches(65, 65),
    Step::Learns(true),
    Step::Wants(false),
    Step::Hears(Heard::Prepare(2, 1, 1, 1)),
    Step::Wants(true),
    Step::Hears(Heard::Prepare(2, 65, 1, 1)),
    Step::Hears(Heard::Prepare(2, 65, 64, 2)),
    Step::Hears(Heard::Propose(2, 65, 2, NOTHING)),
    Step::Hears(Heard::Propose(2, 1, 2, NOTHING)),
    Step::Many(0),
    Step::Reaches(65, 65),
    Step::Hears(Heard::Prepare(2, 66, 2, 1)),
    Step::Says(2, &[Said::Promise(66), Said::Promise(67)]),
    Step::Hears(Heard::Propose(2, 66, 1, Text::Raw("v"))),
    Step::Says(0, &[Said::Vote(66, 1, "v")]),
    Step::Reaches(65, 66),
];

#[test]
fn a_mute_node_answers_no_request_up_to_its_floor(rt: HostRuntime) {
    play_above(&rt, rt.alloc(), 65, REQUESTS);
}

/// It tells what it learned, and counts votes. It takes part once it knows all up to its floor, and stays
/// mute up to there.
const TAKES_PART: &[Step] = &[
    Step::Hears(Heard::Vote(2, RELEASE)),
    Step::Hears(Heard::Vote(3, RELEASE)),
    Step::Knows(1),
    Step::Publishes(1),
    Step::Hears(Heard::Ask(3, 1)),
    Step::Forget,
    Step::Learns(true),
    Step::Hears(Heard::Chosen(2, 2, NOTHING)),
    Step::Learns(false),
    Step::Queues(2, 3),
    Step::Calls(Call::Tick),
    Step::Says(0, &[Said::Prepare(3, 1, 1)]),
    Step::Widens(Ok(true)),
    Step::Says(0, &[Said::Prepare(4, 2, 1)]),
    Step::Hears(Heard::Prepare(3, 2, 1, 9)),
    Step::Many(0),
];

#[test]
fn a_node_takes_part_once_it_knows_all_up_to_its_floor(rt: HostRuntime) {
    play_above(&rt, rt.alloc(), 2, TAKES_PART);
}

/// If all up to the floor is known, a tick puts its round again.
const TRIES: &[Step] = &[
    Step::Hears(Heard::Chosen(2, 1, NOTHING)),
    Step::Arm(0),
    Step::Fails(Call::Tick, NodeFault::Device),
    Step::Fails(Call::Tick, NodeFault::Stopped),
    Step::Many(0),
];

#[test]
fn a_tick_past_the_floor_takes_a_round(rt: HostRuntime) {
    play_above(&rt, rt.alloc(), 1, TRIES);
}

/// What it knew is forgotten in a crash, and its floor is not.
const FORGETS: &[Step] = &[
    Step::Reaches(1, 1),
    Step::Learns(true),
    Step::Hears(Heard::Prepare(2, 1, 1, 1)),
    Step::Many(0),
];

#[test]
fn a_floor_outlives_a_crash(rt: HostRuntime) {
    let alloc = rt.alloc();
    let mut node = Peer::replaced(&rt, alloc, 1);
    act_all(&rt, &mut node, TRIES);
    act_all(&rt, &mut node.again(&rt, Some(0)), FORGETS);
}
