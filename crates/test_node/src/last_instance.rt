//! The last instance there is, of a span and of a telling. These are no schedules, since one would have to
//! decide nearly a million instances first.
use crate::heard::Heard;
use crate::peer::Call;
use crate::said::Said;
use crate::samples::Text;
use crate::steps::{Step, play, play_over_a_crash};

/// Sixty-four instances. The last of them is the last there is, and only that one rises.
const LONG_SPAN: &[Step] = &[
    Step::Hears(Heard::Prepare(3, 999_937, 63, 1)),
    Step::Many(63),
    Step::Forget,
    Step::Hears(Heard::Prepare(3, 999_937, 64, 1)),
    Step::Many(64),
    Step::Forget,
];

const BELOW_THE_LAST: &[Step] = &[
    Step::Hears(Heard::Prepare(2, 1_000_000, 1, 1)),
    Step::Says(2, &[Said::Nack(1_000_000, 1)]),
];

#[test]
fn the_last_of_a_long_span_rises(rt: HostRuntime) {
    play_over_a_crash(&rt, rt.alloc(), LONG_SPAN, BELOW_THE_LAST);
}

const TOLD: &[Step] = &[
    Step::Hears(Heard::Propose(3, 1_000_000, 1, Text::Raw("v"))),
    Step::Forget,
    Step::Calls(Call::Tell(2, 999_990)),
    Step::Says(2, &[Said::Vote(1_000_000, 1, "v")]),
];

#[test]
fn a_telling_ends_with_the_last_instance(rt: HostRuntime) {
    play(&rt, rt.alloc(), TOLD);
}
