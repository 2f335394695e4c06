//! How long a server that begins leaves requests unanswered.

ghost use Rattle.std.specs.Prelude.{◌≡◌, ◌↔◌, IsTrue};
ghost use Rattle.server_pace.specs.Returning.{returning_of, Returns};

use server_times::Times;

/// A server over a record with values knows none of them as it begins: its answers would be older than those
/// that it gave before it ended. So it leaves requests until it knows as many, for a bounded time.
#[derive(Clone, Copy, Debug, PartialEq, Eq, Drop)]
pub struct Returning {
    /// The furthest instance with a vote or a learned value on its record as it began; 0 if there is none.
    pub recorded: u32,
    /// For how long it leaves requests at most, in milliseconds.
    pub most: u64,
}

impl Returning {
    /// For a server that begins over a record whose furthest vote or value is at `recorded`.
    pub fn new(times: Times, recorded: u32) -> Returning
        ensures { result ≡ returning_of times recorded }
    {
        Returning {
            recorded,
            most: times.returning,
        }
    }

    /// Whether it leaves requests, `now` milliseconds after it began, while it knows `known` values.
    pub fn is_due(self, now: u64, known: u32) -> bool
        ensures { IsTrue result ↔ Returns self now known }
    {
        known < self.recorded && now < self.most
    }
}
