//! How long a connection may stay.

ghost use Rattle.std.specs.Prelude.{◌↔◌, IsTrue};
ghost use Rattle.server_clients.specs.Staying.{IsTooLong};

use server_times::Times;

/// What a connection does, and for how many milliseconds.
#[derive(Clone, Copy, Debug, PartialEq, Eq, Drop)]
pub struct Stay {
    /// Since bytes last came or went.
    pub still: u64,
    /// Since the request began that is being read or answered, if one is.
    pub busy: Option<u64>,
}

impl Stay {
    /// Whether a connection is closed: nothing moves within a request or a response, or these take longer
    /// than they may, or no further request begins for long.
    pub fn is_too_long(self, times: Times) -> bool
        ensures { IsTrue result ↔ IsTooLong self times }
    {
        match (self.busy, times.serve_ms) {
            (None, _) => self.still >= times.between_requests,
            (Some(_), None) => self.still >= times.without_progress,
            (Some(busy), Some(most)) => self.still >= times.without_progress || busy >= most,
        }
    }
}
