//! Faults of a node: the drive ends there, and what was sent before stays sent.
use crate::driven::steps::{Step, play_each};
use node::NodeFault;

/// A value is pending. A release is chosen at instance 1, and node 3 asks for it.
const BEGUN: &[Step] = &[
    Step::Submits(2),
    Step::Hears("010702000000010000001400000001000000000000000172656c656173650a"),
    Step::Hears("01060300000001"),
];

/// A prepare of node 3 at instance 2, whose put is the device's first call.
const PUT_FAILS: &[Step] = &[
    Step::Hears("010103000000020000000103"),
    Step::Hears("01060300000001"),
    Step::Arm(0),
    Step::Ends(9, Some(NodeFault::Device)),
    Step::Tried(3),
    Step::Many(1),
    Step::Ends(2, Some(NodeFault::Stopped)),
    Step::Tried(4),
    Step::Many(1),
    Step::Stopped(true),
];

/// The device's first call is the tick's, after all turns.
const TICK_FAILS: &[Step] = &[
    Step::Arm(0),
    Step::Ends(9, Some(NodeFault::Device)),
    Step::Tried(9),
    Step::Many(1),
    Step::Ends(2, Some(NodeFault::Stopped)),
    Step::Tried(11),
    Step::Many(1),
    Step::Stopped(true),
];

/// Another value is chosen there. The node isn't stopped: it answers again, and its tick sends to all.
const CONFLICT: &[Step] = &[
    Step::Hears("01070200000001000000010a"),
    Step::Hears("01060300000001"),
    Step::Ends(9, Some(NodeFault::Conflict)),
    Step::Tried(3),
    Step::Many(1),
    Step::Ends(2, None),
    Step::Tried(5),
    Step::Many(5),
    Step::Stopped(false),
];

/// The answer to the question.
const ANSWERED: &[Step] = &[
    Step::Sent(
        0,
        3,
        "010701000000010000001400000001000000000000000172656c656173650a",
    ),
    Step::NoPage,
];

const FAULTS: &[&[&[Step]]] = &[
    &[BEGUN, PUT_FAILS, ANSWERED],
    &[BEGUN, TICK_FAILS, ANSWERED],
    &[BEGUN, CONFLICT, ANSWERED],
];

#[test]
fn a_fault_ends_a_drive_and_takes_nothing_back(rt: HostRuntime) {
    play_each(&rt, rt.alloc(), FAULTS);
}
