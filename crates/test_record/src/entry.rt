//! Entries of a record as values.

ghost use Rattle.std.specs.Prelude.{◌≡◌, ◌↔◌, Some, IfOk, IsTrue};
ghost use Rattle.site_ids.specs.Ids.{BallotOf};
ghost use Rattle.site_ids.specs.Spans.{IsInSpan};
ghost use Rattle.durable.specs.Entries.{Raises};

use site_ids::{Ballot, Instance, Value, Vote};
use std::alloc::AllocError;

/// An entry of a record.
#[derive(Drop)]
pub enum Entry {
    Round(u32),
    Promised(Instance, Ballot),
    PromisedSpan(Instance, u8, Ballot),
    Voted(Instance, Vote),
    Learned(Instance, Value),
    Floor(Instance),
}

/// Whether an instance is one of `count` instances from `first` on.
fn is_in_span(first: Instance, count: u8, instance: Instance) -> bool
    ensures { IsTrue result ↔ IsInSpan first count instance }
{
    first <= instance && instance.number() < first.number() + count as u32
}

impl Entry {
    ghost use Rattle.test_record.specs.Meaning.{meaning};

    /// The ballot that it promises at an instance, if it does.
    pub fn raised(&self, instance: Instance) -> Option<Ballot>
        ensures { (b : BallotOf) → Raises (meaning self.now) instance b ↔ (result ≡ Some b) }
    {
        match self {
            Entry::Promised(at, ballot) if *at == instance => Some(*ballot),
            Entry::PromisedSpan(first, count, ballot) if is_in_span(*first, *count, instance) => {
                Some(*ballot)
            }
            Entry::Voted(at, vote) if *at == instance => Some(vote.ballot),
            _ => None,
        }
    }

    pub fn try_clone(&self) -> Result<Entry, AllocError>
        ensures { IfOk result (λ entry. entry ≡ self.now) }
    {
        Ok(match self {
            Entry::Round(round) => Entry::Round(*round),
            Entry::Promised(instance, ballot) => Entry::Promised(*instance, *ballot),
            Entry::PromisedSpan(first, count, ballot) => {
                Entry::PromisedSpan(*first, *count, *ballot)
            }
            Entry::Voted(instance, vote) => Entry::Voted(*instance, vote.try_clone()?),
            Entry::Learned(instance, value) => Entry::Learned(*instance, value.try_clone()?),
            Entry::Floor(floor) => Entry::Floor(*floor),
        })
    }
}
