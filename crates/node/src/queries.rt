//! What a node reports of its record and its attempts.
//!
//! `next_ballot` returns the next round as a ballot, because promises are compared with ballots.

ghost use Rattle.std.specs.Prelude.{◌≡◌, ◌↔◌, ◌<◌, ℕ, max, List, length, IsSome, IsTrue, MatchOption};
ghost use Rattle.site_ids.specs.declared.TheConstants.{MAX_ROUND};
ghost use Rattle.site_ids.specs.Ids.{IsInstance};
ghost use Rattle.chosen_log.specs.Log.{value_at, IsGap};
ghost use Rattle.proposer.specs.Attempts.{Attempt, AreOpen};

use crate::Node;
use acceptor::Slot;
use proposer::MAX_ATTEMPTS;
use site_disk::Disk;
use site_ids::{Ballot, Instance};

impl<D: Disk> Node<D> {
    ghost use Rattle.durable.specs.Entries.{IsSlot, floor_of, reach_of, greatest_round as greatest_of};
    ghost use Rattle.node.specs.Nodes.{Node as AbstractNode, IsFirstUnknown, IsMute, OnlyLearns};
    ghost use Rattle.node.specs.Calls.{fresh_ballot, HasRound, AreOpenElsewhere};
    ghost use Rattle.node.specs.Standing.{IsNodeOf};
    ghost use Rattle.node.specs.Beginning.{next_of};

    /// The slot of an instance; an empty one if the record has nothing there.
    pub fn slot(&self, instance: Instance) -> &Slot
        ensures { (s : AbstractNode) → IsNodeOf self.now s → IsSlot s.entries instance result.now }
    {
        self.store.slot(instance)
    }

    /// The disk under its record.
    pub fn disk(&self) -> &D
        ensures { result.now ≡ self.now.store.disk }
    {
        self.store.disk()
    }

    /// The greatest round that was recorded or promised; 0 if there is none.
    pub fn greatest_round(&self) -> u32
        ensures { (s : AbstractNode) → IsNodeOf self.now s → result ≡ greatest_of s.entries }
    {
        self.store.greatest_round()
    }

    /// The floor of its record, up to which it is mute; 0 if the record did not take the place of a lost one.
    pub fn floor(&self) -> u32
        ensures { (s : AbstractNode) → IsNodeOf self.now s → result ≡ floor_of s.entries }
    {
        self.store.floor()
    }

    /// How far its record reaches: the greatest instance of a vote, or the floor if that is greater; 0 if it
    /// has neither.
    pub fn reach(&self) -> u32
        ensures { (s : AbstractNode) → IsNodeOf self.now s → result ≡ reach_of s.entries }
    {
        self.store.reach()
    }

    /// Whether it is mute at the instance, that is, whether its floor is at or above the instance.
    pub fn is_mute(&self, instance: Instance) -> bool
        ensures { (s : AbstractNode) → IsNodeOf self.now s → IsTrue result ↔ IsMute s instance }
    {
        instance.number() <= self.store.floor()
    }

    /// Whether it is mute at its first unknown instance, so that it only learns.
    pub fn only_learns(&self) -> bool
        ensures { (s : AbstractNode) → IsNodeOf self.now s → IsTrue result ↔ OnlyLearns s }
    {
        match self.next_gap() {
            Some(gap) => self.is_mute(gap),
            None => false,
        }
    }

    /// The ballot of the next attempt, `None` if the rounds are used up.
    pub fn next_ballot(&self) -> Option<Ballot>
        ensures { (s : AbstractNode) → IsNodeOf self.now s
            → MatchOption result (¬ HasRound s) (λ b. (b ≡ fresh_ballot self.now.me s) × HasRound s) }
    {
        self.own_ballot()
    }

    /// The same, in terms of what the code keeps.
    pub(crate) fn own_ballot(&self) -> Option<Ballot>
        ensures { MatchOption result (max self.now.store.recorded.round self.now.proposer.heard ≡ MAX_ROUND)
            (λ b. (b ≡ next_of self.now)
            × (max self.now.store.recorded.round self.now.proposer.heard < MAX_ROUND)) }
    {
        match self.proposer.next_ballot(self.store.round()) {
            Ok(ballot) => Some(ballot),
            Err(_) => None,
        }
    }

    /// The first unknown instance, if there is one.
    pub(crate) fn next_gap(&self) -> Option<Instance>
        ensures { MatchOption result ((i : ℕ) → IsInstance i
            → IsSome (value_at self.now.known.log i)) (λ gap. IsGap self.now.known.log gap) }
    {
        self.known.log.next_gap()
    }

    /// How many attempts are open.
    pub fn attempts(&self) -> usize
        ensures { (s : AbstractNode) → IsNodeOf self.now s → AreOpen s.attempts result }
    {
        self.proposer.attempts()
    }

    /// Whether an attempt is open at the instance.
    fn tries_at(&self, instance: Instance) -> bool
        ensures { (s : AbstractNode) → IsNodeOf self.now s → IsTrue result ↔ IsSome (s.attempts instance) }
    {
        self.proposer.own_value(instance).is_some()
    }

    /// How many attempts are open, except the one at the first unknown instance: a tick sends this many
    /// messages again, 63 at most.
    pub fn tried_elsewhere(&self, first: Instance) -> u8
        ensures { (s : AbstractNode) (elsewhere : List (ℕ × Attempt)) → IsNodeOf self.now s
            → IsFirstUnknown s.known first → AreOpenElsewhere s first elsewhere → result ≡ length elsewhere }
    {
        let here = usize::from(self.tries_at(first));
        self.proposer
            .attempts()
            .saturating_sub(here)
            .min(MAX_ATTEMPTS) as u8
    }
}
