//! Votes for one value at one ballot: the value as it was first reported, and a mask of the nodes that
//! reported it.
//!
//! Only memory bounds the tallies, as no step forgets some.

ghost use Rattle.std.specs.Prelude.{◌≡◌, ◌↔◌, ℕ, OnOk, OnErr, IfOk, IsTrue, MatchOption};
ghost use Rattle.learner.specs.Masks.{HasNode};
ghost use Rattle.learner.specs.Tallies.{IsOf, HasTold, AddsTold, IsFirstOf, HasNoneOf};

use crate::node_mask::NodeMask;
use site_ids::{Ballot, NodeId, Value};
use std::alloc::AllocError;

/// The nodes that reported a vote for a value at a ballot.
#[derive(Drop)]
pub(crate) struct Tally {
    ballot: Ballot,
    value: Value,
    nodes: NodeMask,
}

impl Tally {
    /// The tally of one vote.
    fn started(from: NodeId, ballot: Ballot, value: &Value) -> Result<Tally, AllocError>
        ensures { IfOk result (λ tally. IsOf tally ballot value.now
            × ((p : ℕ) → HasNode tally.nodes p ↔ (p ≡ from))) }
    {
        Ok(Tally {
            ballot,
            value: value.try_clone()?,
            nodes: NodeMask::none().with(from),
        })
    }

    fn is_of(&self, ballot: Ballot, value: &Value) -> bool
        ensures { IsTrue result ↔ IsOf self.now ballot value.now }
    {
        self.ballot == ballot && self.value.as_bytes() == value.as_bytes()
    }
}

/// The nodes that reported a vote for this value at this ballot.
pub(crate) fn nodes_of(tallies: &[Tally], ballot: Ballot, value: &Value) -> NodeMask
    ensures { (p : ℕ) → HasNode result p ↔ HasTold tallies.now p ballot value.now }
{
    match place_of(tallies, ballot, value) {
        Some(at) => tallies[at].nodes,
        None => NodeMask::none(),
    }
}

/// Adds a node to those that reported a vote for this value at this ballot. Of a value that was reported
/// before, no second copy is kept.
pub(crate) fn add_to(
    tallies: &mut Vec<Tally>,
    from: NodeId,
    ballot: Ballot,
    value: &Value,
) -> Result<(), AllocError>
    ensures added { OnOk result (AddsTold tallies.old.items tallies.new.items from ballot value.now) }
    ensures refused { OnErr result (tallies.new.items ≡ tallies.old.items) }
{
    match place_of(tallies, ballot, value) {
        Some(at) => {
            let tally = &mut tallies[at];
            tally.nodes = tally.nodes.with(from);
        }
        None => tallies.push(Tally::started(from, ballot, value)?)?,
    }
    Ok(())
}

// The place of the tally of this value at this ballot.
fn place_of(tallies: &[Tally], ballot: Ballot, value: &Value) -> Option<usize>
    ensures { MatchOption result (HasNoneOf tallies.now ballot value.now)
        (λ at. IsFirstOf tallies.now at ballot value.now) }
{
    for (at, tally) in tallies.iter().enumerate() {
        if tally.is_of(ballot, value) {
            return Some(at);
        }
    }
    None
}
