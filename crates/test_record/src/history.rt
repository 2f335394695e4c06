//! Which lists of entries are histories.

ghost use Rattle.std.specs.Prelude.{◌↔◌, ℕ, IsTrue, option_copied};
ghost use Rattle.acceptor.specs.Judging.{IsFreeBelow, IsVotedAt};
ghost use Rattle.durable.specs.Histories.{IsAbove, IsInRange, Advances, MayFollow, IsHistory};
ghost use Rattle.durable.specs.Raising.{IsSpanned};
ghost use Rattle.site_ids.specs.Ids.{IsInstance, IsBallot};
ghost use Rattle.site_ids.specs.Spans.{IsSpan, IsInSpan};
ghost use Rattle.test_record.specs.Meaning.{meaning, meanings};

use crate::entry::Entry;
use crate::recorded::{is_free_at, last_round, last_vote, learned, promise};
use site_ids::{Ballot, Cluster, Instance, MAX_INSTANCE, MAX_VALUE, Vote};

fn are_in_range(cluster: Cluster, instance: Instance, ballot: Ballot) -> bool
    ensures { IsTrue result ↔ (IsInstance instance × IsBallot cluster ballot) }
{
    instance.number() <= MAX_INSTANCE && cluster.node(ballot.node().number()).is_some()
}

fn is_span_in_range(cluster: Cluster, first: Instance, count: u8, ballot: Ballot) -> bool
    ensures { IsTrue result ↔ (IsSpan first count × IsBallot cluster ballot) }
{
    first.begins_span(count) && cluster.node(ballot.node().number()).is_some()
}

/// Whether its numbers are in their ranges.
fn is_in_range(cluster: Cluster, entry: &Entry) -> bool
    ensures { IsTrue result ↔ IsInRange cluster (meaning entry.now) }
{
    match entry {
        Entry::Round(round) => 0 < *round,
        Entry::Promised(instance, ballot) => are_in_range(cluster, *instance, *ballot),
        Entry::PromisedSpan(first, count, ballot) => {
            2 <= *count && is_span_in_range(cluster, *first, *count, *ballot)
        }
        Entry::Voted(instance, vote) => {
            are_in_range(cluster, *instance, vote.ballot)
                && vote.value.as_bytes().len() <= MAX_VALUE
        }
        Entry::Learned(instance, value) => {
            instance.number() <= MAX_INSTANCE && value.as_bytes().len() <= MAX_VALUE
        }
        Entry::Floor(floor) => floor.number() <= MAX_INSTANCE,
    }
}

/// Whether no ballot from this one on is promised.
pub fn is_free_below(promised: &Option<Ballot>, ballot: Ballot) -> bool
    ensures { IsTrue result ↔ IsFreeBelow promised.now ballot }
{
    match promised {
        Some(promised) => *promised < ballot,
        None => true,
    }
}

fn is_voted_at(last: Option<&Vote>, ballot: Ballot) -> bool
    ensures { IsTrue result ↔ IsVotedAt (option_copied last.entry) ballot }
{
    match last {
        Some(vote) => vote.ballot == ballot,
        None => false,
    }
}

/// Whether each ballot promised at an instance is below this one.
fn is_above(earlier: &[Entry], at: Instance, ballot: Ballot) -> bool
    ensures { IsTrue result ↔ IsAbove (meanings earlier.now) at ballot }
{
    is_free_below(&promise(earlier, at), ballot)
}

/// Whether that is so at one of `count` instances from `first` on.
fn rises(earlier: &[Entry], first: Instance, count: u8, ballot: Ballot) -> bool
    requires { IsSpan first count }
    ensures { IsTrue result ↔ ((at : ℕ) × IsInSpan first count at
        × IsAbove (meanings earlier.now) at ballot) }
{
    for past in 0..count {
        if let Some(at) = first.plus(past as u32) {
            if is_above(earlier, at, ballot) {
                return true;
            }
        }
    }
    false
}

/// Whether it advances the entries before it.
fn advances(earlier: &[Entry], entry: &Entry) -> bool
    requires { IsSpanned (meaning entry.now) }
    ensures { IsTrue result ↔ Advances (meanings earlier.now) (meaning entry.now) }
{
    match entry {
        Entry::Round(round) => last_round(earlier) < *round,
        Entry::Promised(instance, ballot) => is_above(earlier, *instance, *ballot),
        Entry::PromisedSpan(first, count, ballot) => rises(earlier, *first, *count, *ballot),
        Entry::Voted(instance, vote) => {
            is_free_at(&promise(earlier, *instance), vote.ballot)
                && !is_voted_at(last_vote(earlier, *instance), vote.ballot)
        }
        Entry::Learned(instance, _) => learned(earlier, *instance).is_none(),
        Entry::Floor(_) => earlier.is_empty(),
    }
}

fn may_follow(cluster: Cluster, earlier: &[Entry], entry: &Entry) -> bool
    ensures { IsTrue result ↔ MayFollow cluster (meanings earlier.now) (meaning entry.now) }
{
    is_in_range(cluster, entry) && advances(earlier, entry)
}

/// Whether each entry may follow those before it.
pub fn is_history(cluster: Cluster, entries: &[Entry]) -> bool
    ensures { IsTrue result ↔ IsHistory cluster (meanings entries.now) }
{
    for (at, entry) in entries.iter().enumerate() {
        if !may_follow(cluster, &entries[..at], entry) {
            return false;
        }
    }
    true
}
