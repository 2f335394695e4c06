//! What a list of entries records, the oldest first.

ghost use Rattle.std.specs.Prelude.{◌≡◌, ◌↔◌, ◌∷◌, ◌++◌, [], List, IsTrue, option_copied};
ghost use Rattle.acceptor.specs.Judging.{IsFreeAt};
ghost use Rattle.durable.specs.Entries as entries;
ghost use Rattle.durable.specs.Entries.{IsPromise, IsSlot, last_round as last_round_of};
ghost use Rattle.durable.specs.Entries.{greatest_round as greatest_round_of, last_vote as last_vote_of};
ghost use Rattle.durable.specs.Entries.{learned_at, floor_of, reach_of};
ghost use Rattle.test_record.specs.Meaning.{meaning, meanings};

use crate::entry::Entry;
use acceptor::Slot;
use site_ids::{Ballot, Instance, Value, Vote};

/// The last round, 0 if there is none.
pub fn last_round(entries: &[Entry]) -> u32
    ensures { result ≡ last_round_of (meanings entries.now) }
{
    let mut last = 0;
    for entry in entries {
        if let Entry::Round(round) = entry {
            last = *round;
        }
    }
    last
}

/// The greatest round that was recorded or promised, 0 if there is none.
pub fn greatest_round(entries: &[Entry]) -> u32
    ensures { result ≡ greatest_round_of (meanings entries.now) }
{
    let mut greatest = 0;
    for entry in entries {
        let round = match entry {
            Entry::Round(round) => *round,
            Entry::Promised(_, ballot) | Entry::PromisedSpan(_, _, ballot) => ballot.round(),
            Entry::Voted(_, vote) => vote.ballot.round(),
            Entry::Learned(..) | Entry::Floor(_) => 0,
        };
        greatest = greatest.max(round);
    }
    greatest
}

/// Whether no ballot above this one is promised.
pub fn is_free_at(promised: &Option<Ballot>, ballot: Ballot) -> bool
    ensures { IsTrue result ↔ IsFreeAt promised.now ballot }
{
    match promised {
        Some(promised) => *promised <= ballot,
        None => true,
    }
}

/// The greatest ballot, after one more entry.
fn promise_with(promised: Option<Ballot>, entry: &Entry, instance: Instance) -> Option<Ballot>
    ensures { (earlier : List entries.Entry) → IsPromise earlier instance promised
        → IsPromise (earlier ++ meaning entry.now ∷ []) instance result }
{
    let Some(ballot) = entry.raised(instance) else {
        return promised;
    };
    if is_free_at(&promised, ballot) {
        Some(ballot)
    } else {
        promised
    }
}

/// The greatest ballot among the promises and votes at an instance.
pub fn promise(entries: &[Entry], instance: Instance) -> Option<Ballot>
    ensures { IsPromise (meanings entries.now) instance result }
{
    let mut promised = None;
    for entry in entries {
        promised = promise_with(promised, entry, instance);
    }
    promised
}

/// The last vote at an instance.
pub fn last_vote(entries: &[Entry], instance: Instance) -> Option<&Vote>
    ensures { option_copied result ≡ last_vote_of instance (meanings entries.now) }
{
    let mut last = None;
    for entry in entries {
        if let Entry::Voted(at, vote) = entry {
            if *at == instance {
                last = Some(vote);
            }
        }
    }
    last
}

/// The value learned at an instance, if one is.
pub fn learned(entries: &[Entry], instance: Instance) -> Option<&Value>
    ensures { option_copied result ≡ learned_at instance (meanings entries.now) }
{
    for entry in entries {
        if let Entry::Learned(at, value) = entry {
            if *at == instance {
                return Some(value);
            }
        }
    }
    None
}

/// The floor, 0 if there is none.
pub fn floor(entries: &[Entry]) -> u32
    ensures { result ≡ floor_of (meanings entries.now) }
{
    match entries {
        [Entry::Floor(floor), ..] => floor.number(),
        _ => 0,
    }
}

/// How far the entries reach: the greatest instance of a vote, or the floor if that is greater; 0 if there is
/// neither.
pub fn reach(entries: &[Entry]) -> u32
    ensures { result ≡ reach_of (meanings entries.now) }
{
    let mut greatest = 0;
    for entry in entries {
        let reached = match entry {
            Entry::Voted(instance, _) | Entry::Floor(instance) => instance.number(),
            _ => 0,
        };
        greatest = greatest.max(reached);
    }
    greatest
}

fn is_same_vote(one: Option<&Vote>, other: &Option<Vote>) -> bool
    ensures { IsTrue result ↔ (other.now ≡ option_copied one.entry) }
{
    match (one, other) {
        (Some(one), Some(other)) => {
            one.ballot == other.ballot && one.value.as_bytes() == other.value.as_bytes()
        }
        (None, None) => true,
        _ => false,
    }
}

/// Whether this is the slot of an instance by the entries.
pub fn is_slot(entries: &[Entry], instance: Instance, slot: &Slot) -> bool
    ensures { IsTrue result ↔ IsSlot (meanings entries.now) instance slot.now }
{
    slot.promised == promise(entries, instance)
        && is_same_vote(last_vote(entries, instance), &slot.vote)
}
