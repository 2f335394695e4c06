//! `on_accepted` computes `completes` again, so it needs no condition.

ghost use Rattle.std.specs.Prelude.{◌≡◌, ◌≢◌, ◌↔◌, ℕ, OnOk, OnErr, IfOk, IsTrue, MatchOption};
ghost use Rattle.learner.specs.ToldVotes.{ToldVote, told_vote, HasMajority};
ghost use Rattle.learner.specs.Tallies.{AddsTold};
ghost use Rattle.learner.specs.Votes.{tallies_in, tallies_at, IsTold, IsToldWith};

use crate::tally::{Tally, add_to, nodes_of};
use site_ids::{Ballot, Cluster, Instance, NodeId, Value};
use std::alloc::{AllocError, Global};
use std::collections::BTreeMap;

/// A set of votes.
#[derive(Drop)]
pub struct Learner {
    alloc: Global,
    cluster: Cluster,
    /// By instance, a tally for each ballot and value.
    tallies: BTreeMap<u32, Vec<Tally>>,
}

impl Learner {
    pub fn new(alloc: Global, cluster: Cluster) -> Learner
        ensures cluster { result.cluster ≡ cluster }
        ensures none { (t : ToldVote) → ¬ IsTold result t }
    {
        Learner {
            alloc,
            cluster,
            tallies: BTreeMap::new(alloc),
        }
    }

    /// Adds a vote, and returns its value if the votes for it at that ballot are now those of a majority.
    pub fn on_accepted(
        &mut self,
        from: NodeId,
        instance: Instance,
        ballot: Ballot,
        value: &Value,
    ) -> Result<Option<Value>, AllocError>
        ensures cluster { self.new.cluster ≡ self.old.cluster }
        ensures added { OnOk result ((t : ToldVote)
            → IsTold self.new t ↔ IsToldWith self.old (told_vote from instance ballot value.now) t) }
        ensures chosen { IfOk result (λ chosen. MatchOption chosen
            (¬ HasMajority self.old.cluster (IsTold self.new) instance ballot value.now)
            (λ v. (v ≡ value.now)
            × HasMajority self.old.cluster (IsTold self.new) instance ballot value.now)) }
        ensures refused { OnErr result ((t : ToldVote) → IsTold self.new t ↔ IsTold self.old t) }
    {
        let chosen = if self.completes(from, instance, ballot, value) {
            Some(value.try_clone()?)
        } else {
            None
        };
        self.add(from, instance, ballot, value)?;
        Ok(chosen)
    }

    /// Whether `on_accepted`, with the same arguments, would return the value.
    pub fn completes(&self, from: NodeId, instance: Instance, ballot: Ballot, value: &Value) -> bool
        ensures { IsTrue result ↔ HasMajority self.now.cluster
            (IsToldWith self.now (told_vote from instance ballot value.now)) instance ballot value.now }
    {
        let nodes = nodes_of(self.at(instance), ballot, value).with(from);
        u32::from(self.cluster.quorum()) <= nodes.count_in(self.cluster)
    }

    /// Drops the votes at an instance.
    pub fn forget(&mut self, instance: Instance)
        ensures cluster { self.new.cluster ≡ self.old.cluster }
        ensures dropped { (t : ToldVote) → IsTold self.new t ↔ (IsTold self.old t × (t.instance ≢ instance)) }
    {
        self.tallies.remove(&instance.number());
    }

    fn at(&self, instance: Instance) -> &[Tally]
        ensures { result.now ≡ tallies_at self.now instance }
    {
        match self.tallies.get(&instance.number()) {
            Some(tallies) => tallies.as_slice(),
            None => &[],
        }
    }

    fn add(
        &mut self,
        from: NodeId,
        instance: Instance,
        ballot: Ballot,
        value: &Value,
    ) -> Result<(), AllocError>
        ensures cluster { self.new.cluster ≡ self.old.cluster }
        ensures added { OnOk result ((t : ToldVote)
            → IsTold self.new t ↔ IsToldWith self.old (told_vote from instance ballot value.now) t) }
        ensures refused { OnErr result ((t : ToldVote) → IsTold self.new t ↔ IsTold self.old t) }
    {
        let at = instance.number();
        add_at(self.alloc, &mut self.tallies, at, from, ballot, value)
    }
}

fn add_at(
    alloc: Global,
    tallies: &mut BTreeMap<u32, Vec<Tally>>,
    at: u32,
    from: NodeId,
    ballot: Ballot,
    value: &Value,
) -> Result<(), AllocError>
    ensures added { OnOk result (AddsTold (tallies_in tallies.old at)
        (tallies_in tallies.new at) from ballot value.now) }
    ensures others { (other : ℕ) → other ≢ at → tallies_in tallies.new other ≡ tallies_in tallies.old other }
    ensures refused { OnErr result (tallies_in tallies.new at ≡ tallies_in tallies.old at) }
{
    match tallies.get_mut(&at) {
        Some(here) => add_to(here, from, ballot, value),
        None => {
            let mut here = Vec::new(alloc);
            add_to(&mut here, from, ballot, value)?;
            tallies.insert(at, here)?;
            Ok(())
        }
    }
}
