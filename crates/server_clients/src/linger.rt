//! How long a connection lingers.

ghost use Rattle.std.specs.Prelude.{◌≡◌};
ghost use Rattle.server_clients.specs.Lingering.{is_over};

use server_times::Times;

/// How many bytes of a client are dropped at most. No client sends as many before it reads its response: a
/// line of a gigabit a second needs half a second for them. A client that sends without end is not read
/// further.
const DROPPED: u64 = 64 * 1024 * 1024;

/// How a connection lingers that has its last response.
#[derive(Clone, Copy, Debug, PartialEq, Eq, Drop)]
pub struct Linger {
    /// Milliseconds since its writing half was shut down.
    pub since: u64,
    /// Bytes that its client sent since, which were dropped.
    pub dropped: u64,
}

impl Linger {
    /// Whether it is closed, though its client did not close it: its time has passed, or its client sent too
    /// much.
    pub fn is_over(self, times: Times) -> bool
        ensures { result ≡ is_over times self }
    {
        self.since >= times.lingering || self.dropped >= DROPPED
    }
}
