//! When a server rests.
//!
//! Rests grow after 200 and after 2,000 empty steps. With rests of 1.5 ms throughout, quiet nodes cost 4.3 to
//! 6.9% of a core; with growing rests they cost 1.6 to 2.0%.

ghost use Rattle.std.specs.Prelude.{◌≡◌, ◌↔◌, IsTrue, false};
ghost use Rattle.server_pace.specs.Pacing.{empty_after};

/// What came in a step, and how many empty ones went before it.
#[derive(Clone, Copy, Debug, PartialEq, Eq, Drop)]
pub struct Resting {
    /// Datagrams came, or bytes of clients.
    pub came: bool,
    /// A response was written.
    pub served: bool,
    /// Messages came that are no questions.
    pub stirred: bool,
    /// How many steps went by in which nothing came except questions.
    pub empty: u32,
}

impl Resting {
    /// Whether it rests: never while something came.
    pub fn is_due(self) -> bool
        ensures { IsTrue result ↔ (self.came ≡ false) × (self.served ≡ false) × (self.stirred ≡ false) }
    {
        !self.came && !self.served && !self.stirred
    }

    /// How many empty steps went before the next one. Questions, and parts of requests, do not count, and do
    /// not wake a server.
    pub fn empty_after(self) -> u32
        ensures { result ≡ empty_after self }
    {
        if self.served || self.stirred {
            0
        } else if self.came {
            self.empty
        } else {
            self.empty.saturating_add(1)
        }
    }
}
