//! How long a response is held back.

ghost use Rattle.std.specs.Prelude.{◌≡◌};
ghost use Rattle.server_clients.specs.Holding.{is_held};

use server_times::Times;

/// What follows the responses that wait on a connection, and how long ago bytes came.
#[derive(Clone, Copy, Debug, PartialEq, Eq, Drop)]
pub struct Hold {
    /// Whether the next request is there whole, and asks for a receipt.
    pub asked: bool,
    /// Milliseconds since bytes last came.
    pub since: u64,
}

impl Hold {
    /// Whether the responses that wait are held back, so that they go out together with the receipt.
    pub fn is_on(self, times: Times) -> bool
        ensures { result ≡ is_held times self }
    {
        self.asked && self.since < times.holds
    }
}
