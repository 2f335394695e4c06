//! Worked rows of one node. They are no schedules, since no line of `sitesim` shows a receipt, the kind of a
//! fault, why a submission is refused or whether a tick is wanted, and no node of a group sends a second
//! value of an instance, or uses up its rounds.
use crate::heard::Heard;
use crate::peer::Call;
use crate::samples::{NOTHING, Text};
use crate::steps::{Step, play};
use node::{NodeFault, Submitted};
use site_ids::MAX_ROUND;

/// A second command under a ticket keeps the first one's receipt. A second value at an instance is refused.
const CHOSEN: &[Step] = &[
    Step::Hears(Heard::Chosen(2, 1, Text::Command(1, "put data d\n{}"))),
    Step::Hears(Heard::Chosen(2, 2, Text::Command(2, "release\n"))),
    Step::Publishes(1),
    Step::Receipt(1, 1),
    Step::Hears(Heard::Chosen(2, 3, Text::Command(1, "remove data d\n"))),
    Step::Hears(Heard::Chosen(2, 4, Text::Command(3, "release\n"))),
    Step::Publishes(2),
    Step::Receipt(1, 1),
    Step::Fails(
        Call::Hear(Heard::Chosen(2, 1, NOTHING)),
        NodeFault::Conflict,
    ),
    Step::Knows(4),
];

#[test]
fn the_first_of_two_values_is_kept(rt: HostRuntime) {
    play(&rt, rt.alloc(), CHOSEN);
}

const SIXTY_FOUR: &[Step] = &[
    Step::Wants(false),
    Step::Queues(0, 63),
    Step::Submits(Text::Command(63, "release\n"), Ok(Submitted::Already)),
    Step::Submits(Text::Command(64, "release\n"), Err(NodeFault::QueueFull)),
    Step::Unread(Text::Command(65, "put template t\n{{#a}}")),
    Step::Wants(true),
];

#[test]
fn a_queue_takes_64(rt: HostRuntime) {
    play(&rt, rt.alloc(), SIXTY_FOUR);
}

/// A refusal is no reason for a tick, and a promise is one.
const REACHED: &[Step] = &[
    Step::Hears(Heard::Nack(3, 5)),
    Step::Wants(false),
    Step::Hears(Heard::Promise(2, 6, 4)),
    Step::Wants(true),
];

#[test]
fn a_tick_is_wanted_after_a_promise(rt: HostRuntime) {
    play(&rt, rt.alloc(), REACHED);
}

/// Without a value to try, a widening returns false, even if no round is left.
const NO_ROUND: &[Step] = &[
    Step::Hears(Heard::Nack(2, MAX_ROUND)),
    Step::Widens(Ok(false)),
    Step::Queues(1, 1),
    Step::Widens(Err(NodeFault::RoundsUsedUp)),
    Step::Says(0, &[]),
];

#[test]
fn a_widening_needs_a_round(rt: HostRuntime) {
    play(&rt, rt.alloc(), NO_ROUND);
}

/// The same at a node whose device is about to fail.
const NO_DISK: &[Step] = &[
    Step::Arm(0),
    Step::Widens(Ok(false)),
    Step::Queues(1, 1),
    Step::Widens(Err(NodeFault::Device)),
    Step::Widens(Err(NodeFault::Stopped)),
    Step::Says(0, &[]),
];

#[test]
fn a_widening_needs_a_disk(rt: HostRuntime) {
    play(&rt, rt.alloc(), NO_DISK);
}

/// Calls that put an entry on record.
const PUTS: &[Call] = &[
    Call::Tick,
    Call::Hear(Heard::Prepare(3, 1, 3, 1)),
    Call::Hear(Heard::Propose(3, 1, 1, NOTHING)),
];

/// The cases `lost-..` of `sitesim` have a put that fails at each call, and what is found after a crash.
#[test]
fn a_device_that_fails_stops_the_node(rt: HostRuntime) {
    for &put in PUTS {
        let steps = [
            Step::Arm(0),
            Step::Fails(put, NodeFault::Device),
            Step::Stopped,
            Step::Fails(put, NodeFault::Stopped),
            Step::Fails(Call::Tell(0, 1), NodeFault::Stopped),
            Step::Many(0),
        ];
        play(&rt, rt.alloc(), &steps);
    }
}
