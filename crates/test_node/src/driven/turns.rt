//! What node 1 of three sends for what it hears, datagram by datagram: by turns without a last call, by
//! `drive`, and with the other calls after turns.
use crate::driven::steps::{Last, Step, play, play_each};

const QUESTION: &str = "01060100000001";

const TICK: &str = "010101000000010000000101";

/// Prepares and proposals.
const SIX: &[Step] = &[
    // A prepare of node 2, its proposal, a prepare of node 3 in the next round.
    Step::Hears("010102000000010000000102"),
    Step::Hears("0103020000000100000001020000000107"),
    Step::Hears("010103000000010000000203"),
    // The first prepare once more.
    Step::Hears("010102000000010000000102"),
    // A question about an instance that isn't known yet, and a vote.
    Step::Hears("01060300000001"),
    Step::Hears("0104020000000100000001020000000107"),
];

const THREE_MORE: &[Step] = &[
    // The vote that makes a majority, the question again, and bytes that are no message.
    Step::Hears("0104030000000100000001020000000107"),
    Step::Hears("01060300000001"),
    Step::Hears("ff"),
];

const SENT_FOR_SIX: &[Step] = &[
    // A promise, a vote to all, a promise that reports the vote, a refusal.
    Step::Sent(0, 2, "01020100000001000000010200"),
    Step::Sent(1, 1, "0104010000000100000001020000000107"),
    Step::Sent(2, 2, "0104010000000100000001020000000107"),
    Step::Sent(3, 3, "0104010000000100000001020000000107"),
    Step::Sent(4, 3, "0102010000000100000002030100000001020000000107"),
    Step::Sent(5, 2, "0105010000000100000001020000000203"),
];

/// The value to the node that asked.
const SENT_FOR_THREE: &[Step] = &[Step::Sent(6, 3, "010701000000010000000107")];

/// Turns without a last call, and then a drive of no turns. Its last call is a tick if the instance was
/// reached and isn't known, and otherwise a question about the next one.
const EXCHANGES: &[&[&[Step]]] = &[
    &[&[
        Step::Turns(0, Last::Nothing, 0),
        Step::Many(0),
        Step::Drives(0, 0),
        Step::SentToAll(0, QUESTION),
    ]],
    &[
        SIX,
        &[Step::Turns(6, Last::Nothing, 0)],
        SENT_FOR_SIX,
        &[Step::Many(6), Step::Drives(0, 0), Step::SentToAll(6, TICK)],
    ],
    &[
        SIX,
        THREE_MORE,
        &[Step::Turns(9, Last::Nothing, 1)],
        SENT_FOR_SIX,
        SENT_FOR_THREE,
        &[
            Step::Many(7),
            Step::Drives(0, 0),
            Step::SentToAll(7, "01060100000002"),
        ],
    ],
];

/// The same as one drive.
const DRIVES: &[&[&[Step]]] = &[
    &[&[Step::Drives(0, 0), Step::SentToAll(0, QUESTION)]],
    &[
        SIX,
        &[Step::Drives(6, 0)],
        SENT_FOR_SIX,
        &[Step::SentToAll(6, TICK)],
    ],
    &[
        SIX,
        THREE_MORE,
        &[Step::Drives(9, 1)],
        SENT_FOR_SIX,
        SENT_FOR_THREE,
        &[Step::SentToAll(7, "01060100000002")],
    ],
];

#[test]
fn a_drive_is_an_exchange_and_a_last_call(rt: HostRuntime) {
    play_each(&rt, rt.alloc(), EXCHANGES);
    play_each(&rt, rt.alloc(), DRIVES);
}

/// After turns that make a tick wanted: a question, then no widening, and a widening if a value waits. All
/// are on one desk.
const WITHOUT_A_TICK: &[&[Step]] = &[
    SIX,
    &[Step::Turns(6, Last::Ask, 0)],
    SENT_FOR_SIX,
    &[
        Step::SentToAll(6, QUESTION),
        Step::Turns(0, Last::Widen, 0),
        Step::Many(9),
        Step::Submits(1),
        Step::Turns(0, Last::Nothing, 0),
        Step::Many(9),
        Step::Turns(0, Last::Widen, 0),
        Step::SentToAll(9, TICK),
    ],
];

#[test]
fn questions_and_widenings_need_no_tick(rt: HostRuntime) {
    play_each(&rt, rt.alloc(), &[WITHOUT_A_TICK]);
}

/// Node 3 asks for what it is told after the answer. Whatever else comes is no question: four messages of
/// attempts, and two votes.
const TOLD: &[Step] = &[
    Step::Turns(1, Last::Nothing, 0),
    Step::Delivered(1, 1, 0),
    Step::Turns(1, Last::Nothing, 0),
    Step::Delivered(1, 1, 0),
    Step::Turns(1, Last::Nothing, 0),
    Step::Delivered(1, 1, 0),
    Step::Turns(1, Last::Nothing, 0),
    Step::Delivered(1, 1, 0),
    Step::Many(6),
    // It is told the vote.
    Step::Turns(1, Last::Nothing, 0),
    Step::Delivered(0, 0, 1),
    Step::Turns(0, Last::Tell(3, 1), 0),
    Step::Sent(6, 3, "0104010000000100000001020000000107"),
    Step::Many(7),
    Step::Turns(1, Last::Nothing, 0),
    Step::Delivered(0, 1, 0),
    Step::Turns(1, Last::Nothing, 0),
    Step::Delivered(0, 1, 0),
    Step::Many(7),
    // It is answered with the value, and told it.
    Step::Turns(1, Last::Nothing, 0),
    Step::Delivered(0, 0, 1),
    Step::Turns(0, Last::Tell(3, 1), 0),
    Step::Sent(7, 3, "010701000000010000000107"),
    Step::Sent(8, 3, "010701000000010000000107"),
    Step::Many(9),
    Step::Turns(1, Last::Nothing, 1),
    Step::Delivered(0, 0, 0),
];

#[test]
fn a_telling_goes_to_who_asked(rt: HostRuntime) {
    play_each(&rt, rt.alloc(), &[&[SIX, THREE_MORE, TOLD]]);
}

const ASKS_ALL: &[Step] = &[Step::Drives(0, 0), Step::SentToAll(0, QUESTION)];

#[test]
fn one_for_all_goes_to_each_node_in_order(rt: HostRuntime) {
    for size in 1..=9 {
        play(&rt, rt.alloc(), size, ASKS_ALL);
    }
}
