//! Datagrams that spell no message of three nodes, and the longest one that does.
use crate::driven::driven_node::DrivenNode;
use crate::driven::steps::{Last, Step, act_all, play};
use site_drive::MemLink;
use std::process::Abort;

/// Datagrams that spell none.
const MALFORMED: &[&str] = &[
    "",
    "01",
    "ff",
    // The prepare 010102000000010000000102 of node 2 without its last byte, and with a byte more.
    "0101020000000100000001",
    "01010200000001000000010200",
    // The same prepare in another version, and of a node that is not one of the three.
    "020102000000010000000102",
    "010104000000010000000102",
];

/// The prepare is taken, and the promise reports no vote.
const NOTHING_CHANGED: &[Step] = &[
    Step::Turns(99, Last::Nothing, 7),
    Step::Many(0),
    Step::Knows(0),
    Step::Wants(false),
    Step::Hears("010102000000010000000102"),
    Step::Turns(1, Last::Nothing, 0),
    Step::Sent(0, 2, "01020100000001000000010200"),
];

/// Each comes by itself, and then all at once.
fn change_nothing(rt: &impl Abort, server: &mut DrivenNode<MemLink>) {
    for &text in MALFORMED {
        let alone = [Step::Hears(text), Step::Turns(1, Last::Nothing, 1)];
        act_all(rt, server, &alone);
    }
    for &text in MALFORMED {
        act_all(rt, server, &[Step::Hears(text)]);
    }
    act_all(rt, server, NOTHING_CHANGED);
}

#[test]
fn datagrams_of_no_message_are_counted_and_change_nothing(rt: HostRuntime) {
    change_nothing(&rt, &mut DrivenNode::over_queues(&rt, rt.alloc(), 3));
}

/// All of a promise except its vote's value, of 32,768 bytes.
pub(crate) const PROMISE_OF_2: &str = "01020200000001000000020101000000010200008000";

const PROMISE_OF_3: &str = "01020300000001000000020101000000010200008000";

const PROPOSAL: &str = "01030100000001000000020100008000";

/// In round 2 of node 1 two promises report the same vote for the longest value. If the slice for a receive
/// had only the longest datagram's length, longer ones would be cut to it.
const LONGEST: &[Step] = &[
    Step::Submits(1),
    Step::Drives(0, 0),
    Step::Drives(0, 0),
    // no value
    Step::HearsLong(PROMISE_OF_2, 22),
    Step::Turns(1, Last::Nothing, 1),
    // a byte less
    Step::HearsLong(PROMISE_OF_2, 32_789),
    Step::Turns(1, Last::Nothing, 1),
    // a byte more, two bytes more, the most that a datagram holds
    Step::HearsLong(PROMISE_OF_2, 32_791),
    Step::Turns(1, Last::Nothing, 1),
    Step::HearsLong(PROMISE_OF_2, 32_792),
    Step::Turns(1, Last::Nothing, 1),
    Step::HearsLong(PROMISE_OF_2, 65_507),
    Step::Turns(1, Last::Nothing, 1),
    // the longest message
    Step::HearsLong(PROMISE_OF_2, 32_790),
    Step::Turns(1, Last::Nothing, 0),
    Step::Many(6),
    Step::HearsLong(PROMISE_OF_3, 32_790),
    Step::Turns(1, Last::Nothing, 0),
    Step::SentLong(6, 1, PROPOSAL, 32_784),
    Step::SentLong(7, 2, PROPOSAL, 32_784),
    Step::SentLong(8, 3, PROPOSAL, 32_784),
    Step::Many(9),
];

#[test]
fn the_longest_message_arrives_and_a_cut_one_does_not(rt: HostRuntime) {
    play(&rt, rt.alloc(), 3, LONGEST);
}
