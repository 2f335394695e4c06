//! A quiet state, and the plan by which a node learns its first unknown instance in it.

ghost use Rattle.std.specs.Prelude.{◌≡◌, ◌↔◌, ◌≤◌, ℕ, [], List, Result, IfOk, OnOk, IsTrue, MatchOption};
ghost use Rattle.world.specs.declared.event.Event.{Event as AbstractEvent};
ghost use Rattle.world.specs.declared.fault.WorldFault.{WorldFault as AbstractFault};
ghost use Rattle.world.specs.declared.world.World.{World as AbstractCode};
ghost use Rattle.world.specs.Worlds.{World as AbstractWorld};

use crate::bid::Bid;
use crate::plan::{push_attempt, push_overbid};
use crate::{Event, World};
use site_ids::{Ballot, Instance, NodeId};
use std::alloc::AllocError;

impl World {
    ghost use Rattle.site_ids.specs.Ids.{IsNode};
    ghost use Rattle.node.specs.Nodes.{IsFirstUnknown, IsMute};
    ghost use Rattle.node.specs.Calls.{fresh_ballot};
    ghost use Rattle.world.specs.Quiet.{AllRun, HasNoneAbove, IsQuiet, IsQuietAt, IsShort, MayDecide};
    ghost use Rattle.world.specs.Quiet.{Overbids, quorum};
    ghost use Rattle.world.specs.Quieting.{AreUp, LearnsBy, PushesPlan};
    ghost use Rattle.world.specs.Standing.{IsWorldOf};
    ghost use Rattle.world.specs.Steps.{Reached, RunEnds};

    /// Whether the state is quiet for the node. All nodes run, with no disk armed. The node has an unknown
    /// instance. No round that was recorded or promised, or that the node heard of, is above 4,294,967,293.
    /// At that instance neither the node nor one of the first nodes that make a majority is mute.
    pub fn is_quiet(&self, node: NodeId) -> bool
        requires { node ≤ self.now.cluster }
        ensures { (w : AbstractWorld) → IsWorldOf self.now w → IsTrue result
            ↔ IsQuiet self.now.cluster w node }
    {
        let Some(instance) = self.first_unknown(node) else {
            return false;
        };
        if !self.are_quiet() {
            return false;
        }
        self.may_decide(node, instance)
    }

    /// Events by which the node learns its first unknown instance, from a quiet state: two ticks and 8 n
    /// deliveries at most. From any other state there are no events.
    ///
    /// This holds whatever was promised, voted for or attempted, and whatever is on its way. The plan is a
    /// tick, and its messages to the first nodes that make a majority and back. If one of these nodes has
    /// promised a higher ballot, its refusal comes first.
    pub fn quiet_plan(&self, node: NodeId) -> Result<Vec<Event>, AllocError>
        requires { node ≤ self.now.cluster }
        ensures short { IfOk result (λ plan. IsShort self.now.cluster plan.items) }
        ensures none { IfOk result (λ plan. (w : AbstractWorld) → IsWorldOf self.now w
            → ¬ IsQuiet self.now.cluster w node → plan.items ≡ []) }
        ensures decides { IfOk result (λ plan. (past : List AbstractEvent) (reached : Reached self.now past)
            (new : AbstractCode) (ended : Result (Unit {0}) AbstractFault)
            → IsQuiet self.now.cluster reached.world node → new.cluster ≡ self.now.cluster
            → RunEnds self.now new plan.items ended → AreUp self.now.cluster new
            → LearnsBy self.now.cluster reached.world node new ended) }
    {
        let mut plan = Vec::new(self.alloc);
        if self.is_quiet(node) {
            self.push_plan(node, &mut plan)?;
        }
        Ok(plan)
    }

    // The first instance that a node does not know.
    fn first_unknown(&self, node: NodeId) -> Option<Instance>
        requires { node ≤ self.now.cluster }
        ensures { (w : AbstractWorld) → IsWorldOf self.now w
            → MatchOption result ((i : ℕ)
            → ¬ IsFirstUnknown (w.node node).known i) (λ i. IsFirstUnknown (w.node node).known i) }
    {
        Instance::new(self.known(node).saturating_add(1))
    }

    // Whether each node runs with no disk armed, and has rounds left.
    fn are_quiet(&self) -> bool
        ensures { (w : AbstractWorld) → IsWorldOf self.now w → IsTrue result
            ↔ ((q : ℕ) → IsNode self.now.cluster q → IsQuietAt (w.node q)) }
    {
        let mut seen = 0;
        while let Some(machine) = self.machines.get(seen) {
            if !machine.is_quiet() {
                return false;
            }
            seen += 1;
        }
        true
    }

    // If all nodes run: whether no node that is needed is mute at the instance, and the node has two more
    // rounds left.
    fn may_decide(&self, node: NodeId, instance: Instance) -> bool
        requires { node ≤ self.now.cluster }
        ensures { (w : AbstractWorld) → IsWorldOf self.now w → AllRun self.now.cluster w → IsTrue result
            ↔ MayDecide self.now.cluster w node instance }
    {
        let machine = self.machine(node);
        if !machine.speaks_at(instance) {
            return false;
        }
        if !machine.has_two_rounds() {
            return false;
        }
        self.none_mute(instance)
    }

    // If all nodes run: whether none of the first nodes that make a majority is mute at the instance.
    fn none_mute(&self, instance: Instance) -> bool
        ensures { (w : AbstractWorld) → IsWorldOf self.now w → AllRun self.now.cluster w → IsTrue result
            ↔ ((q : ℕ) → IsNode (quorum self.now.cluster) q → ¬ IsMute (w.node q) instance) }
    {
        let cluster = self.cluster();
        let mut seen = 0;
        while seen < cluster.quorum() {
            let Some(node) = cluster.node(seen + 1) else {
                return false;
            };
            if !self.machine(node).speaks_at(instance) {
                return false;
            }
            seen += 1;
        }
        true
    }

    // The plan of a quiet state.
    fn push_plan(&self, node: NodeId, plan: &mut Vec<Event>) -> Result<(), AllocError>
        requires { node ≤ self.now.cluster }
        ensures { OnOk result (PushesPlan self.now node plan.old.items plan.new.items) }
    {
        let Some(instance) = self.first_unknown(node) else {
            return Ok(());
        };
        let again = self.machine(node).tried_elsewhere(instance);
        match self.refuser(node, instance) {
            None => push_attempt(plan, self.cluster, node, &self.sent, again),
            Some(highest) => push_overbid(plan, self.cluster, node, highest, &self.sent, again),
        }
    }

    // The node that refuses this node's next attempt, if one of the first nodes that make a majority does:
    // the one with the highest promise.
    fn refuser(&self, node: NodeId, instance: Instance) -> Option<NodeId>
        requires { node ≤ self.now.cluster }
        ensures { (w : AbstractWorld) → IsWorldOf self.now w → IsQuiet self.now.cluster w node
            → MatchOption result (HasNoneAbove self.now.cluster w instance (fresh_ballot node (w.node node)))
            (λ q. Overbids self.now.cluster w instance (fresh_ballot node (w.node node)) q) }
    {
        let ballot = self.machine(node).next_ballot()?;
        self.overbidder(instance, ballot)
    }

    // Of the first nodes that make a majority, the one whose promise at the instance is the highest above the
    // ballot.
    fn overbidder(&self, instance: Instance, ballot: Ballot) -> Option<NodeId>
        ensures { (w : AbstractWorld) → IsWorldOf self.now w → AllRun self.now.cluster w
            → MatchOption result (HasNoneAbove self.now.cluster w instance ballot)
            (λ q. Overbids self.now.cluster w instance ballot q) }
    {
        let cluster = self.cluster();
        let mut highest = Bid { ballot, node: None };
        let mut seen = 0;
        while seen < cluster.quorum() {
            let Some(node) = cluster.node(seen + 1) else {
                return highest.node;
            };
            highest = highest.or_promised(node, self.machine(node).promised(instance));
            seen += 1;
        }
        highest.node
    }
}
