//! Whether a server has caught up with the others.

ghost use Rattle.std.specs.Prelude.{◌≡◌};
ghost use Rattle.server_notes.specs.Noting.{joined_at, learned_at, has_settled};

/// Milliseconds in which few values become known once a server has caught up.
const SETTLING: u64 = 2000;

/// What is heard of in this first part of `SETTLING` has to be known at its end: the rest is enough for a
/// question and its answer. A value that is heard of later may just be tried.
const HEARING: u64 = 1500;

/// At least this many values in that time are not few: one whole telling of another node.
const MANY: u32 = 64;

/// How far a server has caught up after its start or an absence.
#[derive(Clone, Copy, Drop)]
pub enum Catching {
    /// It was reported that it caught up.
    Done,
    /// It hears no majority.
    Alone,
    /// It hears a majority, and few values became known since the moment `at`, in milliseconds since it
    /// began. `known` values were known then, and values up to `reach` were heard of.
    Since { at: u64, known: u32, reach: u32 },
}

impl Catching {
    /// A majority is heard. `known` values are known, and values up to `reached` were heard of.
    pub fn joined(self, now: u64, known: u32, reached: u32) -> Catching
        ensures { result ≡ joined_at self now known reached }
    {
        match self {
            Catching::Alone => Catching::Since {
                at: now,
                known,
                reach: reached,
            },
            _ => self,
        }
    }

    /// `known` values are known now, and values up to `reached` were heard of.
    pub fn learned(self, now: u64, known: u32, reached: u32) -> Catching
        ensures { result ≡ learned_at self now known reached }
    {
        match self {
            Catching::Since {
                at,
                known: before,
                reach,
            } => {
                let passed = now.saturating_sub(at);
                let many = known.saturating_sub(before) >= MANY;
                if many || (passed >= SETTLING && known < reach) {
                    return Catching::Since {
                        at: now,
                        known,
                        reach: reached,
                    };
                }
                Catching::Since {
                    at,
                    known: before,
                    reach: if passed < HEARING { reached } else { reach },
                }
            }
            _ => self,
        }
    }

    /// Whether it has caught up, which was not reported yet, with `known` values known.
    pub fn has_settled(self, now: u64, known: u32) -> bool
        ensures { result ≡ has_settled self now known }
    {
        match self {
            Catching::Since { at, reach, .. } => {
                now.saturating_sub(at) >= SETTLING && known >= reach
            }
            _ => false,
        }
    }
}
