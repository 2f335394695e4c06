//! One attempt, and the promises of its ballot.
//!
//! An attempt counts no answer after its proposal. So "it counts" and "it has not proposed" are one
//! condition.

ghost use Rattle.std.specs.Prelude.{◌≡◌, ◌↔◌, ◌<◌, ◌++◌, [], ◌∷◌, IfOk, IsTrue, None, Some, vec_len};
ghost use Rattle.std.specs.Prelude.{vec_capacity};
ghost use Rattle.site_ids.specs.Ids.{IsNode};
ghost use Rattle.site_ids.specs.Lists.{In};
ghost use Rattle.proposer.specs.Attempts.{Attempt};
ghost use Rattle.proposer.specs.Best.{Exceeds, value_by, replacing, vote_told};
ghost use Rattle.proposer.specs.Standing.{StandsFor, Answered};

use site_ids::{Ballot, Cluster, NodeId, Value, Vote};
use std::alloc::AllocError;

/// An open attempt. It keeps the vote of the highest ballot of those reported.
#[derive(Drop)]
pub(crate) struct OpenAttempt {
    pub(crate) ballot: Ballot,
    /// The value to propose if no vote is reported.
    pub(crate) own: Value,
    /// The nodes whose promises count.
    pub(crate) promised: Vec<NodeId>,
    pub(crate) best: Option<Vote>,
    /// Whether it has proposed the best vote's value, or its own.
    pub(crate) proposed: bool,
}

impl OpenAttempt {
    /// Counts a promise, and returns the value to propose if there is now a majority.
    pub(crate) fn on_promise(
        &mut self,
        cluster: Cluster,
        from: NodeId,
        ballot: Ballot,
        prior: Option<&Vote>,
    ) -> Result<Option<Value>, AllocError>
        requires { IsNode cluster from }
        ensures { (a : Attempt) → StandsFor cluster self.old a
            → Answered cluster a from ballot (vote_told prior.entry) result self.new }
    {
        if ballot != self.ballot || self.proposed || self.has_promise_of(from) {
            return Ok(None);
        }
        self.promised.reserve(1)?;
        let better = self.better(prior)?;
        if self.promised.len() + 1 < cluster.quorum() as usize {
            self.count(from, better);
            return Ok(None);
        }
        let value = self.choice(&better)?;
        self.count(from, better);
        self.proposed = true;
        Ok(Some(value))
    }

    /// A copy of the reported vote, if its ballot is higher than those of all reported before.
    fn better(&self, prior: Option<&Vote>) -> Result<Option<Vote>, AllocError>
        ensures higher { IfOk result (λ better. Exceeds (vote_told prior.entry) self.now.best
            → better ≡ vote_told prior.entry) }
        ensures lower { IfOk result (λ better. ¬ Exceeds (vote_told prior.entry) self.now.best
            → better ≡ None) }
    {
        match prior {
            Some(vote) if exceeds(vote, &self.best) => Ok(Some(vote.try_clone()?)),
            _ => Ok(None),
        }
    }

    /// The value to propose if this vote takes the place of the best one, or if the best one stays (`None`).
    fn choice(&self, better: &Option<Vote>) -> Result<Value, AllocError>
        ensures { IfOk result (λ v. v ≡ value_by self.now.own (replacing better.now self.now.best)) }
    {
        match better {
            Some(vote) => vote.value.try_clone(),
            None => proposed_value(&self.own, &self.best).try_clone(),
        }
    }

    fn has_promise_of(&self, from: NodeId) -> bool
        ensures { IsTrue result ↔ In self.now.promised.items from }
    {
        self.promised.contains(&from)
    }

    /// Keeps a promise, for which there is room, and puts a vote in the place of the best one.
    fn count(&mut self, from: NodeId, better: Option<Vote>)
        requires { vec_len self.old.promised < vec_capacity self.old.promised }
        ensures ballot { self.new.ballot ≡ self.old.ballot }
        ensures own { self.new.own ≡ self.old.own }
        ensures proposed { self.new.proposed ≡ self.old.proposed }
        ensures promised { self.new.promised.items ≡ self.old.promised.items ++ from ∷ [] }
        ensures best { self.new.best ≡ replacing better self.old.best }
    {
        self.promised.push_reserved(from);
        if better.is_some() {
            self.best = better;
        }
    }
}

/// The value that an attempt proposes: that of the best vote reported, or its own if there is none.
pub(crate) fn proposed_value<'a>(own: &'a Value, best: &'a Option<Vote>) -> &'a Value
    ensures { result.now ≡ value_by own.now best.now }
{
    match best {
        Some(vote) => &vote.value,
        None => own,
    }
}

fn exceeds(vote: &Vote, best: &Option<Vote>) -> bool
    ensures { IsTrue result ↔ Exceeds (Some vote.now) best.now }
{
    match best {
        None => true,
        Some(best) => best.ballot < vote.ballot,
    }
}
