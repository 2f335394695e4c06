//! When a server puts on record what it learned.
//!
//! Each seal waits for the disk twice, so values wait for one another. A server that catches up over 100,000
//! values seals a hundred times for them.

ghost use Rattle.std.specs.Prelude.{◌≡◌, ◌↔◌, IsTrue, None};
ghost use Rattle.server_pace.specs.Keeping.{kept_on, owed_at, IsKeepDue, IsNextBlock};

use server_times::Times;
use site_ids::Instance;

/// For how many instances, from the first one on, the known value was put on record, and since when more is
/// known.
#[derive(Clone, Copy, Debug, PartialEq, Eq, Drop)]
pub struct Keeping {
    /// How many instances were kept since the server began.
    pub kept: u32,
    /// Since when more values are known, in milliseconds since the server began; `None` if no more are.
    pub since: Option<u64>,
}

impl Keeping {
    /// No value is known.
    pub fn new() -> Keeping
        ensures { result ≡ record { kept = 0; since = None } }
    {
        Keeping {
            kept: 0,
            since: None,
        }
    }

    /// What is kept and owed now that this many values are known.
    pub fn noted(self, now: u64, known: u32) -> Keeping
        ensures { result ≡ owed_at self now known }
    {
        Keeping {
            kept: self.kept,
            since: (self.kept < known).then_some(self.since.unwrap_or(now)),
        }
    }

    /// Whether values wait no longer: the oldest has waited for its time, or there are enough for a block.
    pub fn is_due(self, times: Times, now: u64, known: u32) -> bool
        ensures { IsTrue result ↔ IsKeepDue self times now known }
    {
        match self.since {
            Some(since) => {
                now.saturating_sub(since) >= times.keeping
                    || known.saturating_sub(self.kept) >= times.block
            }
            None => false,
        }
    }

    /// The first instance that is put on record next, and how many: all that are known, at most a block.
    pub fn next(self, times: Times, now: u64, known: u32) -> Option<(Instance, u32)>
        ensures { IsNextBlock self times now known result }
    {
        if !self.is_due(times, now, known) {
            return None;
        }
        let Some(first) = Instance::new(self.kept.saturating_add(1)) else {
            return None;
        };
        let count = known.saturating_sub(self.kept).min(times.block);
        Some((first, count))
    }

    /// `count` more instances were kept.
    pub fn passed(self, count: u32) -> Keeping
        ensures { result ≡ kept_on self count }
    {
        Keeping {
            kept: self.kept.saturating_add(count),
            since: None,
        }
    }
}
