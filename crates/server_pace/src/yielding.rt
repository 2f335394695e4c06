//! When a server yields to another one that tries.

ghost use Rattle.std.specs.Prelude.{◌≡◌, ◌↔◌, ◌<◌, ◌-◌, IsTrue, unwrap_or};
ghost use Rattle.server_pace.specs.Pacing.{ended, first_yielding, noted_tries, stood_by, yielding_after};
ghost use Rattle.server_pace.specs.Pacing.{IsBehind, IsSoon, MayGoOn, Waits, Yields};

use crate::places::places_behind;
use server_times::Times;
use site_ids::{NodeId, NodeSet};

/// In a stretch it yields for less than this many times the time that the last attempts stood, and a
/// millisecond more: turns of six others.
const TURNS: u64 = 6;

/// Whose attempts this server saw at its first unknown instance, and since when it yields. An attempt stands
/// there while the instance is promised to its node.
#[derive(Clone, Copy, Debug, PartialEq, Eq, Drop)]
pub struct Yielding {
    /// The nodes that tried since it last waited in vain.
    pub tried: NodeSet,
    /// Whose attempt stands there now.
    pub tries: Option<NodeId>,
    /// Whose attempt stood there last.
    pub last: Option<NodeId>,
    /// Since when that node's attempts stand there, in milliseconds since the server began; `None` if none
    /// does.
    pub stands: Option<u64>,
    /// Since when no attempt stands there.
    pub free: Option<u64>,
    /// For how many milliseconds the attempts of the node before stood there.
    pub took: u64,
    /// Since when it yields.
    pub since: Option<u64>,
}

impl Yielding {
    /// It saw no attempt.
    pub fn new() -> Yielding
        ensures { result ≡ first_yielding }
    {
        Yielding {
            tried: NodeSet::new(),
            tries: None,
            last: None,
            stands: None,
            free: None,
            took: 0,
            since: None,
        }
    }

    /// Whether that node's attempt stood there last.
    fn is_of(&self, node: NodeId) -> bool
        ensures { result ≡ stood_by self.now.tries node }
    {
        match self.tries {
            Some(tries) => tries.number() == node.number(),
            None => false,
        }
    }

    /// The attempts that stood there have ended.
    fn end(&mut self, now: u64)
        ensures { self.new ≡ ended self.old now }
    {
        if let Some(stands) = self.stands {
            self.took = now.saturating_sub(stands);
        }
        self.stands = None;
    }

    /// The first unknown instance is now promised to a node, or to none.
    pub fn note(&mut self, now: u64, tries: Option<NodeId>)
        ensures { self.new ≡ noted_tries self.old now tries }
    {
        let Some(node) = tries else {
            self.end(now);
            self.tries = None;
            self.free = Some(self.free.unwrap_or(now));
            return;
        };
        if !self.is_of(node) {
            self.end(now);
        }
        self.tries = Some(node);
        self.tried.insert(node);
        self.last = Some(node);
        self.stands = Some(self.stands.unwrap_or(now));
        self.free = None;
    }

    /// Whether another server that tried comes before this one, after the one that tried last.
    fn is_behind(&self, me: NodeId) -> bool
        ensures { IsTrue result ↔ IsBehind self.now me }
    {
        let Some(last) = self.last else {
            return false;
        };
        let tried = self.tried.places();
        for number in 1..=9 {
            if tried[usize::from(number) - 1]
                && places_behind(last, number) < places_behind(last, me.number())
            {
                return true;
            }
        }
        false
    }

    /// Whether another server's attempt stands at the first unknown instance, or it is another one's turn.
    pub fn waits(&self, me: NodeId) -> bool
        ensures { IsTrue result ↔ Waits self.now me }
    {
        match self.tries {
            Some(node) if node != me => true,
            _ => self.is_behind(me),
        }
    }

    /// Whether no attempt has stood there for longer than those of the last node did, and a millisecond more:
    /// a clock that counts milliseconds may show 0 for 1.
    fn is_soon(&self, now: u64) -> bool
        ensures { IsTrue result ↔ IsSoon self.now now }
    {
        match self.free {
            Some(free) => now.saturating_sub(free).saturating_sub(1) <= self.took,
            None => false,
        }
    }

    /// Whether it may yield on after `millis` milliseconds in a stretch.
    fn may_go_on(&self, times: Times, millis: u64) -> bool
        ensures { IsTrue result ↔ MayGoOn self.now times millis }
    {
        millis < times.yielding && millis / TURNS <= self.took
    }

    /// Whether it begins no attempt of its own: it waits, for a time that has not passed.
    pub fn is_due(&self, times: Times, now: u64, me: NodeId) -> bool
        ensures due { IsTrue result ↔ Yields self.now times now me }
        ensures bound { IsTrue result → now - unwrap_or self.now.since now < times.yielding }
    {
        let stretch = now.saturating_sub(self.since.unwrap_or(now));
        let soon = self.tries.is_some() || self.is_soon(now);
        self.may_go_on(times, stretch) && soon && self.waits(me)
    }

    /// Notes whether it yields now. If it waited in vain, nobody's turn is before its own until another one
    /// tries again.
    pub fn pass(&mut self, now: u64, waits: bool, yields: bool)
        ensures { self.new ≡ yielding_after self.old now waits yields }
    {
        if yields {
            self.since = Some(self.since.unwrap_or(now));
            return;
        }
        self.since = None;
        if waits {
            self.tried = NodeSet::new();
        }
    }
}
