//! How long nodes that are asked at once have to answer.
ghost use Rattle.std.specs.Prelude.{◌≡◌};
ghost use Rattle.editor_plan.specs.Answering.{answers_within};

/// How many milliseconds they have the first time.
pub const FIRST_ANSWERS: u64 = 2_000;

/// How many milliseconds they have at most later.
pub const LATER_ANSWERS: u64 = 10_000;

/// How many milliseconds nodes have to answer. They were asked `times` times before; `patience` seconds may
/// pass in all, and `passed` milliseconds have passed. At first they have few, so that an editor soon learns
/// which are silent. Then they have more, since a busy node answers late, but no longer than the seconds that
/// are left.
pub fn answers_within(times: u64, passed: u64, patience: u64) -> u64
    ensures { result ≡ answers_within times passed patience }
{
    if times == 0 {
        return FIRST_ANSWERS;
    }
    let left = patience.saturating_sub(passed / 1000);
    left.min(LATER_ANSWERS / 1000).max(1) * 1000
}
