//! Time, and waiting.

ghost use Rattle.std.specs.Prelude.{◌≡◌, IfErr};

use crate::talk_fault::TalkFault;
use std::rt::Clock;
use std::thread;
use std::time::{Duration, Instant};

/// The time now.
pub fn now<C: Clock>(clock: &C) -> Result<Instant, TalkFault>
    ensures { IfErr result (λ fault. fault ≡ TalkFault.Clock) }
{
    match Instant::now(clock) {
        Ok(now) => Ok(now),
        Err(_) => Err(TalkFault::Clock),
    }
}

/// How many milliseconds have passed since `since`.
pub fn passed<C: Clock>(clock: &C, since: Instant) -> Result<u64, TalkFault>
    ensures { IfErr result (λ fault. fault ≡ TalkFault.Clock) }
{
    match since.elapsed(clock) {
        Ok(passed) => Ok(u64::try_from(passed.as_millis()).unwrap_or(u64::MAX)),
        Err(_) => Err(TalkFault::Clock),
    }
}

/// Rests for `millis` milliseconds.
pub fn rest<C: Clock>(clock: &C, millis: u64) {
    thread::sleep(clock, Duration::from_millis(millis));
}
