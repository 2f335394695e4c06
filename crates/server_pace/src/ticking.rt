//! When a server ticks.

ghost use Rattle.std.specs.Prelude.{◌≡◌, ◌↔◌, IsTrue, None, true, false};
ghost use Rattle.server_pace.specs.Pacing.{awaits, begun, first_ticking, is_one_more, leaves, longer_after};
ghost use Rattle.server_pace.specs.Pacing.{noted, ticked, waited, GoesOn, Ticks};

use crate::seen::Seen;
use server_times::Times;

/// Since when a tick is wanted and nothing became known, and how many ticks there were since.
#[derive(Clone, Copy, Debug, PartialEq, Eq, Drop)]
pub struct Ticking {
    /// Since when a tick is waited for, in milliseconds since the server began; `None` if none is wanted.
    pub since: Option<u64>,
    /// Since when a tick is wanted, after the last news. `since` moves on from it at ticks, and while the
    /// server leaves the decision to others.
    pub first: Option<u64>,
    /// How many values were known at the last `noted`.
    pub known: u32,
    /// How many ticks were due since the last news.
    pub ticks: u32,
    /// How many patiences longer it waits, for ticks in a row that were in vain: a majority answered, and no
    /// news came before the next one.
    pub longer: u32,
    /// How many values were known at its last tick, if there was one: a tick that was due, or for a fresh
    /// value, or at once.
    pub at: Option<u32>,
    /// One instance became known after its last tick, by its own ballot, and its record had a vote further
    /// on.
    pub resumes: bool,
}

impl Ticking {
    /// No tick was wanted.
    pub fn new() -> Ticking
        ensures { result ≡ first_ticking }
    {
        Ticking {
            since: None,
            first: None,
            known: 0,
            ticks: 0,
            longer: 0,
            at: None,
            resumes: false,
        }
    }

    /// Whether a value was just submitted that nobody tries: a tick begins to be wanted, and the last batch
    /// delivered at most questions.
    pub fn is_fresh(self, wanted: bool, stirred: bool) -> bool
        ensures { IsTrue result ↔ (wanted ≡ true) × (self.since ≡ None) × (stirred ≡ false) }
    {
        wanted && self.since.is_none() && !stirred
    }

    /// Whether one value more is known than at its last tick.
    fn is_one_more(self, known: u32) -> bool
        ensures { result ≡ is_one_more self.at known }
    {
        match self.at {
            Some(at) => known == at.saturating_add(1),
            None => false,
        }
    }

    /// Whether the server leaves the decision to the others: it has no stake, a message that is no question
    /// came (`stirred`), and it has not done so for too long.
    fn leaves(self, times: Times, now: u64, seen: Seen, stirred: bool) -> bool
        ensures { result ≡ leaves self times now seen stirred }
    {
        let first = self.first.unwrap_or(now);
        !seen.stake && (stirred && now.saturating_sub(first) < times.leaving)
    }

    /// The ticking now that this is seen. `stirred` says that messages which are no questions came since the
    /// last time. The patience begins anew with news, and while the decision is left to others. Ticks in vain
    /// are forgotten if news came without a tick that was due.
    pub fn noted(self, times: Times, now: u64, seen: Seen, stirred: bool) -> Ticking
        ensures { result ≡ noted self times now seen stirred }
    {
        let wanted = seen.wanted.then_some(now);
        if seen.known == self.known {
            let leaves = self.leaves(times, now, seen, stirred);
            return Ticking {
                since: if leaves {
                    wanted
                } else {
                    wanted.and(self.since.or(wanted))
                },
                first: wanted.and(self.first.or(wanted)),
                ..self
            };
        }
        Ticking {
            since: wanted,
            first: wanted,
            known: seen.known,
            ticks: 0,
            longer: if self.ticks == 0 { 0 } else { self.longer },
            at: self.at,
            resumes: seen.resumes && self.is_one_more(seen.known),
        }
    }

    /// How many patiences it waits: one more after each tick, up to `times.growth`; or more, without a bound,
    /// after ticks in vain, and at least `times.longer` more by a server without a stake.
    fn waited(self, times: Times, stake: bool) -> u64
        ensures { result ≡ waited self times stake }
    {
        let tries = u64::from(self.ticks.saturating_add(1).min(times.growth));
        let least = if stake { 0 } else { times.longer };
        tries.max(u64::from(self.longer.max(least)) + 1)
    }

    /// Whether a tick has been wanted for so long that it is due. `stake` says that the server has something
    /// to decide.
    pub fn is_due(self, now: u64, patience: u64, times: Times, stake: bool) -> bool
        ensures { IsTrue result ↔ Ticks self now patience times stake }
    {
        let waited = self.waited(times, stake);
        match (self.since, patience.checked_mul(waited)) {
            (Some(since), Some(millis)) => now.saturating_sub(since) >= millis,
            _ => false,
        }
    }

    /// Whether the next tick is due at once, not a patience later.
    pub fn goes_on(self) -> bool
        ensures { IsTrue result ↔ GoesOn self }
    {
        self.resumes && self.since.is_some()
    }

    /// Whether it would go on, but heard of no further instance: the next one on its record has to be told
    /// first.
    pub fn awaits(self) -> bool
        ensures { result ≡ awaits self }
    {
        self.resumes && self.since.is_none()
    }

    /// It ticks, whether that is due or not.
    pub fn begun(self) -> Ticking
        ensures { result ≡ begun self }
    {
        Ticking {
            at: Some(self.known),
            resumes: false,
            ..self
        }
    }

    /// How many patiences longer it waits after a tick. `answered` says that a majority answered since the
    /// tick before.
    fn longer_after(self, times: Times, answered: bool) -> u32
        ensures { result ≡ longer_after self times answered }
    {
        if !answered {
            0
        } else if self.ticks == 0 {
            self.longer
        } else {
            self.longer.saturating_add(times.longer)
        }
    }

    /// It ticks because that is due. `answered` says that a majority answered since the last tick.
    pub fn ticked(self, times: Times, now: u64, answered: bool) -> Ticking
        ensures { result ≡ ticked self times now answered }
    {
        Ticking {
            since: Some(now),
            ticks: self.ticks.saturating_add(1),
            longer: self.longer_after(times, answered),
            ..self.begun()
        }
    }
}
