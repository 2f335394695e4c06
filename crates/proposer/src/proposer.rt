//! Making room may fail, but opening an attempt may not. Between the two a node puts its round on record, so
//! it calls `make_room_for_span` and `open_span`. Tests call `start`, which does both for one instance.

ghost use Rattle.std.specs.Prelude.{◌≡◌, ◌↔◌, ◌+◌, ◌<◌, ℕ, max, None, Some, Option, OnOk, OnErr, IfOk};
ghost use Rattle.std.specs.Prelude.{IsTrue, MatchResult, length};
ghost use Rattle.std.specs.Option.{option_map};
ghost use Rattle.site_ids.specs.declared.TheConstants.{MAX_ROUND};
ghost use Rattle.site_ids.specs.Ids.{IsNode};
ghost use Rattle.site_ids.specs.Spans.{IsSpan, IsInSpan};
ghost use Rattle.site_ids.specs.Lists.{put_at};
ghost use Rattle.proposer.specs.declared.fault.ProposerFault.TheVariants.{RoundsUsedUp};
ghost use Rattle.proposer.specs.Attempts.{Attempt, AreOpen, opened, opened_span, latest};
ghost use Rattle.proposer.specs.Standing.{Attempting, HasRoom, Changes, Promised};
ghost use Rattle.proposer.specs.Best.{vote_told};

use crate::ProposerFault;
use crate::open_attempt::{OpenAttempt, proposed_value};
use site_ids::{Ballot, Cluster, Instance, MAX_ROUND, NodeId, TICKET_BYTES, Value, Vote};
use std::alloc::{AllocError, Global};
use std::collections::BTreeMap;
use wire::Message;

// Whether the two are the same. Pending values differ in their tickets, most of them in the last byte of the
// number, so that byte is compared first.
fn is_same(own: &[u8], value: &[u8]) -> bool
    ensures { IsTrue result ↔ (own.now ≡ value.now) }
{
    own.get(TICKET_BYTES - 1) == value.get(TICKET_BYTES - 1) && own == value
}

// Whether there is an attempt that has the value as its own.
fn has_own(attempt: &Option<OpenAttempt>, value: &[u8]) -> bool
    ensures { IsTrue result ↔ ((a : OpenAttempt) × (attempt.now ≡ Some a) × (a.own ≡ value.now)) }
{
    match attempt {
        Some(attempt) => is_same(attempt.own.as_bytes(), value),
        None => false,
    }
}

/// A value to propose, at an attempt's instance and ballot.
#[derive(Drop)]
pub struct Proposal {
    pub instance: Instance,
    pub ballot: Ballot,
    pub value: Value,
}

/// The open attempts of a node.
#[derive(Drop)]
pub struct Proposer {
    alloc: Global,
    cluster: Cluster,
    me: NodeId,
    /// The greatest round that a refusal reported, or 0.
    heard: u32,
    /// By instance. `None` if only room was made.
    attempts: BTreeMap<u32, Option<OpenAttempt>>,
}

impl Proposer {
    pub fn new(alloc: Global, cluster: Cluster, me: NodeId) -> Proposer
        ensures cluster { result.cluster ≡ cluster }
        ensures me { result.me ≡ me }
        ensures heard { result.heard ≡ 0 }
        ensures none { Attempting result (λ i. None) }
    {
        Proposer {
            alloc,
            cluster,
            me,
            heard: 0,
            attempts: BTreeMap::new(alloc),
        }
    }

    /// A ballot above the last round on record and above each round that a refusal reported.
    pub fn next_ballot(&self, recorded: u32) -> Result<Ballot, ProposerFault>
        ensures { MatchResult result (λ b. (b
            ≡ record { round = max recorded self.now.heard + 1; node = self.now.me })
            × (max recorded self.now.heard < MAX_ROUND))
            (λ fault. (fault ≡ RoundsUsedUp) × (max recorded self.now.heard ≡ MAX_ROUND)) }
    {
        let last = recorded.max(self.heard);
        if last == MAX_ROUND {
            return Err(ProposerFault::RoundsUsedUp);
        }
        match Ballot::new(last + 1, self.me) {
            Some(ballot) => Ok(ballot),
            None => Err(ProposerFault::RoundsUsedUp),
        }
    }

    /// Makes room for an attempt at an instance. The attempts do not change.
    pub fn make_room(&mut self, instance: Instance) -> Result<(), AllocError>
        ensures stays { Changes self.old self.new (λ attempts. attempts) }
        ensures room { OnOk result (HasRoom self.new instance) }
        ensures kept { (other : ℕ) → HasRoom self.old other → HasRoom self.new other }
    {
        if self.attempts.get(&instance.number()).is_none() {
            self.attempts.insert(instance.number(), None)?;
        }
        Ok(())
    }

    /// Opens an attempt where room was made, in the place of one at that instance. It does not allocate. A
    /// node gives it a ballot of its own, of a round above those of all its earlier attempts, and keeps at
    /// most `MAX_ATTEMPTS` open. Nothing here depends on either.
    pub fn open(&mut self, instance: Instance, ballot: Ballot, own: Value)
        requires { HasRoom self.old instance }
        ensures opened { Changes self.old self.new
            (λ attempts. put_at attempts instance (Some (opened ballot own))) }
        ensures kept { (other : ℕ) → HasRoom self.old other → HasRoom self.new other }
    {
        let attempt = OpenAttempt {
            ballot,
            own,
            promised: Vec::new(self.alloc),
            best: None,
            proposed: false,
        };
        let _ = self.attempts.insert(instance.number(), Some(attempt));
    }

    /// Opens an attempt at each instance from this one on, for each of the values, all at one ballot. Room
    /// was made there, so it does not allocate.
    pub fn open_span(&mut self, first: Instance, ballot: Ballot, values: Vec<Value>)
        requires span { IsSpan first (length values.items) }
        requires room { (at : ℕ) → IsInSpan first (length values.items) at → HasRoom self.old at }
        ensures opened { Changes self.old self.new
            (λ attempts. opened_span attempts first ballot values.items) }
    {
        let mut past = 0;
        for own in values {
            let Some(at) = first.plus(past) else {
                return;
            };
            self.open(at, ballot, own);
            past += 1;
        }
    }

    /// Makes room for an attempt with a copy of the value, and opens it.
    pub fn start(
        &mut self,
        instance: Instance,
        ballot: Ballot,
        own: &Value,
    ) -> Result<(), AllocError>
        ensures ok { OnOk result (Changes self.old self.new
            (λ attempts. put_at attempts instance (Some (opened ballot own.now)))) }
        ensures err { OnErr result (Changes self.old self.new (λ attempts. attempts)) }
    {
        let own = own.try_clone()?;
        self.make_room(instance)?;
        self.open(instance, ballot, own);
        Ok(())
    }

    /// Makes room for an attempt at each of `count` instances, from this one on. The attempts do not change.
    pub fn make_room_for_span(&mut self, first: Instance, count: u8) -> Result<(), AllocError>
        requires { IsSpan first count }
        ensures stays { Changes self.old self.new (λ attempts. attempts) }
        ensures room { OnOk result ((at : ℕ) → IsInSpan first count at → HasRoom self.new at) }
    {
        for past in 0..count {
            if let Some(at) = first.plus(past as u32) {
                self.make_room(at)?;
            }
        }
        Ok(())
    }

    /// Handles a promise of one of the cluster's nodes, with the vote that it reported. It returns the
    /// proposal if the promises are now those of a majority, at an open attempt's ballot.
    pub fn on_promise(
        &mut self,
        from: NodeId,
        instance: Instance,
        ballot: Ballot,
        prior: Option<&Vote>,
    ) -> Result<Option<Proposal>, ProposerFault>
        requires { IsNode self.old.cluster from }
        ensures same { self.new ≡ record self.old { attempts = self.new.attempts } }
        ensures step { (attempts : ℕ → Option Attempt) → Attempting self.old attempts
            → Promised self.old.cluster attempts from instance ballot
            (vote_told prior.entry) result self.new }
    {
        let cluster = self.cluster;
        let Some(place) = self.attempts.get_mut(&instance.number()) else {
            return Ok(None);
        };
        let Some(attempt) = place else {
            return Ok(None);
        };
        match attempt.on_promise(cluster, from, ballot, prior)? {
            Some(value) => Ok(Some(Proposal {
                instance,
                ballot,
                value,
            })),
            None => Ok(None),
        }
    }

    /// Remembers the round that a refusal reported.
    pub fn on_nack(&mut self, promised: Ballot)
        ensures { self.new ≡ record self.old { heard = max self.old.heard promised.round } }
    {
        self.heard = self.heard.max(promised.round());
    }

    /// The latest message of the attempt at an instance, if one is open.
    pub fn resend(&self, instance: Instance) -> Result<Option<Message>, AllocError>
        ensures { (attempts : ℕ → Option Attempt) → Attempting self.now attempts
            → IfOk result (λ message. message
            ≡ option_map (λ a. latest self.now.me instance a.ballot a.proposal) (attempts instance)) }
    {
        let Some(Some(attempt)) = self.attempts.get(&instance.number()) else {
            return Ok(None);
        };
        if !attempt.proposed {
            return Ok(Some(Message::Prepare {
                from: self.me,
                instance,
                ballot: attempt.ballot,
                count: 1,
            }));
        }
        let value = proposed_value(&attempt.own, &attempt.best).try_clone()?;
        Ok(Some(Message::Propose {
            from: self.me,
            instance,
            ballot: attempt.ballot,
            value,
        }))
    }

    /// How many attempts are open.
    pub fn attempts(&self) -> usize
        ensures { (attempts : ℕ → Option Attempt) → Attempting self.now attempts → AreOpen attempts result }
    {
        let mut open = 0;
        for attempt in self.attempts.values() {
            if attempt.is_some() {
                open += 1;
            }
        }
        open
    }

    /// The own value of the attempt at an instance, if one is open.
    pub fn own_value(&self, instance: Instance) -> Option<&Value>
        ensures { (attempts : ℕ → Option Attempt) → Attempting self.now attempts
            → option_map (λ v. v.now) result ≡ option_map (λ a. a.own) (attempts instance) }
    {
        match self.attempts.get(&instance.number()) {
            Some(Some(attempt)) => Some(&attempt.own),
            _ => None,
        }
    }

    /// Whether an open attempt has the value as its own.
    pub fn tries(&self, value: &[u8]) -> bool
        ensures { (attempts : ℕ → Option Attempt) → Attempting self.now attempts
            → IsTrue result ↔ ((i : ℕ) × (a : Attempt) × (attempts i ≡ Some a) × (a.own ≡ value.now)) }
    {
        for attempt in self.attempts.values() {
            if has_own(attempt, value) {
                return true;
            }
        }
        false
    }

    /// Closes the attempt at an instance, if one is open.
    pub fn abandon(&mut self, instance: Instance)
        ensures closed { Changes self.old self.new (λ attempts. put_at attempts instance None) }
    {
        self.attempts.remove(&instance.number());
    }
}
