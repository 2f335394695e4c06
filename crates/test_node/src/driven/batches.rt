//! Batches: what one takes and posts, the calls that a burst makes of the device, and what a batch that fails
//! leaves. Nothing is posted then, and all of the batch is found again or none.
use crate::driven::driven_node::reopened;
use crate::driven::steps::{Last, Step, act_all, behind, play_each};
use crate::failures::FAILURES;
use node::NodeFault;
use std::alloc::Global;
use std::process::Abort;

const PREPARE: &str = "010102000000010000000102";

const PROPOSAL: &str = "0103020000000100000001020000000107";

/// All that comes: a prepare of node 2, its proposal, votes of a majority, a question, and bytes that are no
/// message.
const SIX: &[&str] = &[
    PREPARE,
    PROPOSAL,
    "0104020000000100000001020000000107",
    "0104030000000100000001020000000107",
    "01060300000001",
    "ff",
];

/// A promise to node 2, a vote for all, and the value to the asker. What the last call posts for all comes
/// last: a tick if a value waits, and otherwise a question about the next instance.
const POSTED: &[&[&[Step]]] = &[
    &[&[
        Step::Takes(&[], Last::TickOrAsk, Ok(0)),
        Step::Posts(&[(0, "01060100000001")]),
    ]],
    &[&[
        Step::Takes(&[PREPARE, PROPOSAL], Last::TickOrAsk, Ok(0)),
        Step::Posts(&[
            (2, "01020100000001000000010200"),
            (0, "0104010000000100000001020000000107"),
            (0, "010101000000010000000101"),
        ]),
    ]],
    &[&[
        Step::Takes(SIX, Last::TickOrAsk, Ok(1)),
        Step::Posts(&[
            (2, "01020100000001000000010200"),
            (0, "0104010000000100000001020000000107"),
            (3, "010701000000010000000107"),
            (0, "01060100000002"),
        ]),
    ]],
];

#[test]
fn a_batch_posts_what_it_hands_out_in_order(rt: HostRuntime) {
    play_each(&rt, rt.alloc(), POSTED);
}

/// Proposals of node 2 at three instances.
const BURST: &[&str] = &[
    PROPOSAL,
    "0103020000000200000001020000000107",
    "0103020000000300000001020000000107",
];

/// A question about an instance that isn't known, a vote, and bytes that are no message: nothing goes on
/// record for them.
const IDLE: &[&str] = &["01060300000001", "0104020000000900000001020000000107", "ff"];

const WAITING: &[Step] = &[Step::Submits(1)];

/// A value waits at the node. The armed calls of the device are enough.
const ENOUGH: &[&[&[Step]]] = &[
    &[
        WAITING,
        &[
            Step::Arm(4),
            Step::Takes(BURST, Last::Nothing, Ok(0)),
            Step::PostsMany(3),
        ],
    ],
    // A tick puts a round, and asks all nodes to promise.
    &[
        WAITING,
        &[
            Step::Arm(4),
            Step::Takes(BURST, Last::TickOrAsk, Ok(0)),
            Step::PostsMany(4),
        ],
    ],
    &[
        WAITING,
        &[
            Step::Arm(4),
            Step::Takes(IDLE, Last::TickOrAsk, Ok(1)),
            Step::PostsMany(1),
        ],
    ],
    &[
        WAITING,
        &[
            Step::Arm(0),
            Step::Takes(IDLE, Last::Ask, Ok(1)),
            Step::PostsMany(1),
        ],
    ],
    &[
        WAITING,
        &[
            Step::Arm(0),
            Step::Takes(IDLE, Last::Nothing, Ok(1)),
            Step::PostsMany(0),
        ],
    ],
];

#[test]
fn a_burst_takes_four_calls_of_the_device_and_what_puts_nothing_takes_none(rt: HostRuntime) {
    play_each(&rt, rt.alloc(), ENOUGH);
}

/// The batch ends with the fault of the device, and the next one with that of a node that is stopped. Nothing
/// is posted.
const FAILS: &[Step] = &[
    Step::Takes(BURST, Last::Nothing, Err(NodeFault::Device)),
    Step::PostsMany(0),
    Step::Stopped(true),
    Step::Takes(BURST, Last::Nothing, Err(NodeFault::Stopped)),
    Step::PostsMany(0),
];

fn fail(rt: &impl Abort, alloc: Global, calls: u32, crash: Option<u8>, found: bool) {
    let armed = [Step::Arm(calls)];
    let mut server = reopened(rt, behind(rt, alloc, &[&armed, FAILS]), crash);
    act_all(rt, &mut server, &[Step::Votes(found)]);
}

#[test]
fn a_device_that_fails_leaves_all_of_a_batch_or_none(rt: HostRuntime) {
    for &(calls, crash, found) in FAILURES {
        fail(&rt, rt.alloc(), calls, crash, found);
    }
}
