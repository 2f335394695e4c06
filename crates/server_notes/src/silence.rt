//! How long somebody was not heard.

ghost use Rattle.std.specs.Prelude.{◌≡◌, if◌then◌else◌};
ghost use Rattle.server_notes.specs.Noting.{no_silence, heard_at, told_at, ended_told, silence_of, is_long};

/// Milliseconds of silence after which it is first reported.
pub const LONG: u64 = 5000;

/// When a node was last heard, and what was reported of it. Moments and lengths are milliseconds, moments
/// since the server began.
#[derive(Clone, Copy, Drop)]
pub struct Silence {
    /// When it was last heard; the server's start if it never was.
    pub heard: u64,
    /// The length of the silence that was last reported; 0 if none was since it was heard.
    pub told: u64,
    /// The length of a silence that was reported and has ended; 0 if there is none, or its end was reported.
    pub ended: u64,
}

impl Silence {
    /// The server begins.
    pub fn new() -> Silence
        ensures { result ≡ no_silence }
    {
        Silence {
            heard: 0,
            told: 0,
            ended: 0,
        }
    }

    /// How long it was not heard.
    pub fn length(self, now: u64) -> u64
        ensures { result ≡ silence_of self now }
    {
        now.saturating_sub(self.heard)
    }

    /// It is heard: a silence that was reported has ended.
    pub fn heard(self, now: u64) -> Silence
        ensures { result ≡ heard_at self now }
    {
        Silence {
            heard: now,
            told: 0,
            ended: if self.told == 0 {
                self.ended
            } else {
                self.length(now)
            },
        }
    }

    /// Notes whether it is heard.
    pub(crate) fn passed(self, heard: bool, now: u64) -> Silence
        ensures { result ≡ (if heard then heard_at self now else self) }
    {
        if heard { self.heard(now) } else { self }
    }

    /// Whether its silence is due to be reported: after 5 seconds, and then each time that it is twice as
    /// long as last reported.
    pub fn is_long(self, now: u64) -> bool
        ensures { result ≡ is_long self now }
    {
        let length = self.length(now);
        length >= LONG && length / 2 >= self.told
    }

    /// Its silence was reported.
    pub fn told(self, now: u64) -> Silence
        ensures { result ≡ told_at self now }
    {
        Silence {
            told: self.length(now),
            ..self
        }
    }

    /// The end of its silence was reported.
    pub fn ended_told(self) -> Silence
        ensures { result ≡ ended_told self }
    {
        Silence { ended: 0, ..self }
    }
}
