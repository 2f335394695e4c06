//! The last question of a server, and what came since.

ghost use Rattle.std.specs.Prelude.{◌≡◌, None, false};
ghost use Rattle.server_pace.specs.Pacing.{again_after};
ghost use Rattle.server_pace.specs.Questioning.{asking_of, is_behind, lacks};

use crate::asking::Asking;
use crate::seen::Seen;
use node::MAX_TOLD;
use server_times::{Times, has_passed};

/// When a server asked last, and what it knew then.
#[derive(Clone, Copy, Debug, PartialEq, Eq, Drop)]
pub struct LastQuestion {
    /// In milliseconds since the server began; `None` if it never asked.
    pub at: Option<u64>,
    /// How many values were known.
    pub known: u32,
    /// Somebody was seen to try a value since.
    pub tried: bool,
    /// How many questions in a row were for one instance, not counting the first.
    pub again: u32,
}

/// Whether its record has the value of the first unknown instance, or messages were about instances that
/// nobody tries before that one is known.
fn is_behind(seen: Seen) -> bool
    ensures { result ≡ is_behind seen }
{
    seen.kept || seen.known.saturating_add(MAX_TOLD) <= seen.reached
}

/// Whether others seem to know what this server does not. `calm` says that nobody tries a value.
fn lacks(seen: Seen, calm: bool) -> bool
    ensures { result ≡ lacks seen calm }
{
    is_behind(seen) || seen.known == 0 || (calm && seen.known < seen.reached)
}

impl LastQuestion {
    /// The server never asked.
    pub fn never() -> LastQuestion
        ensures { result ≡ record { at = None; known = 0; tried = false; again = 0 } }
    {
        LastQuestion {
            at: None,
            known: 0,
            tried: false,
            again: 0,
        }
    }

    /// How many questions in a row are for one instance, if the next one comes now and this many values are
    /// known.
    pub(crate) fn again_after(self, known: u32) -> u32
        ensures { result ≡ again_after self known }
    {
        if known == self.known {
            self.again.saturating_add(1)
        } else {
            0
        }
    }

    /// What decides whether it asks again, after `empty` steps in which nothing came. `more` says that it is
    /// yet to hear more of what is on its record.
    pub fn asking(self, times: Times, now: u64, seen: Seen, empty: u32, more: bool) -> Asking
        ensures { result ≡ asking_of self times now seen empty more }
    {
        let calm = !self.tried || more;
        let wait = times.asks_again_after(self.again, empty);
        Asking {
            learned: seen.known.saturating_sub(self.known),
            drained: seen.drained,
            calm,
            behind: is_behind(seen),
            lacks: lacks(seen, calm),
            waited: has_passed(self.at, now, wait),
            passed: has_passed(self.at, now, times.asks_after(empty)),
        }
    }
}
