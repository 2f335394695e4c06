//! A prepare that is delivered: each instance of its span is judged by itself.

ghost use Rattle.std.specs.Prelude.{◌≡◌, ◌-◌, ℕ, IfOk, OnOk, OnErr, false};
ghost use Rattle.site_ids.specs.Ids.{IsNode};
ghost use Rattle.site_ids.specs.Spans.{IsSpan, IsInSpan};
ghost use Rattle.acceptor.specs.Judging.{IsFreeBelow};
ghost use Rattle.durable.specs.Entries.{promise_of};
ghost use Rattle.durable.specs.Puts.{Puts};
ghost use Rattle.durable.specs.Slots.{slot_at};

use crate::messages::{nack, promise};
use crate::{Node, NodeFault, Outbox};
use acceptor::{PrepareVerdict, judge_prepare};
use durable::{Record, RecordFault};
use site_disk::Disk;
use site_ids::{Ballot, Instance, Vote};
use std::alloc::AllocError;
use wire::Message;

fn copy_of(vote: &Option<Vote>) -> Result<Option<Vote>, AllocError>
    ensures { IfOk result (λ copy. copy ≡ vote.now) }
{
    match vote {
        Some(vote) => Ok(Some(vote.try_clone()?)),
        None => Ok(None),
    }
}

/// Puts the promise of a span on record. The promise raises at least one of its instances. A span of one
/// instance has an entry of its own kind.
fn put_promises<D: Disk>(
    store: &mut Record<D>,
    first: Instance,
    count: u8,
    ballot: Ballot,
) -> Result<(), RecordFault>
    requires of_cluster { IsNode store.old.cluster ballot.node }
    requires span { IsSpan first count }
    requires above { (at : ℕ) × IsInSpan first count at
        × IsFreeBelow (slot_at store.old.recorded.slots at).promised ballot }
    ensures { Puts D.stands_for D.failed store.old store.new (promise_of first count ballot) result }
{
    if count == 1 {
        return store.put_promise(first, ballot);
    }
    store.put_promise_span(first, count, ballot)
}

/// The judgement of a prepare of a span.
#[derive(Drop)]
pub(crate) struct Judgement {
    /// Whether a promise rises.
    rises: bool,
    /// The answers, by instance.
    answers: Outbox,
}

impl<D: Disk> Node<D> {
    ghost use Rattle.node.specs.Standing.{IsHandled};
    ghost use Rattle.node.specs.Judgements.{IsJudgement, JudgesMore, IsOwed};

    /// A promise is on record before it is handed out. The promise of a span is one entry for the whole span,
    /// even if few of its instances rise. The answers are made first, so nothing can be refused after the
    /// put. A node that is mute at the first instance answers at no instance of the span.
    pub(crate) fn on_prepare(
        &mut self,
        first: Instance,
        count: u8,
        ballot: Ballot,
        outbox: &mut Outbox,
    ) -> Result<(), NodeFault>
        requires running { self.old.store.stopped ≡ false }
        requires of_cluster { IsNode self.old.cluster ballot.node }
        requires span { IsSpan first count }
        ensures { (from : ℕ) → IsHandled D.stands_for D.failed self.old self.new
            (Message.Prepare from first ballot count) result outbox.old.items outbox.new.items }
    {
        if self.is_mute(first) {
            return Ok(());
        }
        let mut judgement = self.judge_span(first, count, ballot)?;
        outbox.reserve(judgement.answers.len())?;
        if !judgement.rises {
            let _ = outbox.append(&mut judgement.answers);
            return Ok(());
        }
        put_promises(&mut self.store, first, count, ballot)?;
        let _ = outbox.append(&mut judgement.answers);
        Ok(())
    }

    /// Judges each instance of a span, and changes nothing. An allocation can fail only if some instance is
    /// owed an answer.
    fn judge_span(
        &self,
        first: Instance,
        count: u8,
        ballot: Ballot,
    ) -> Result<Judgement, AllocError>
        requires { IsSpan first count }
        ensures ok { IfOk result (λ told. IsJudgement
            (slot_at self.now.store.recorded.slots) self.now.me first ballot count told) }
        ensures err { OnErr result ((at : ℕ) × IsInSpan first count at
            × IsOwed (slot_at self.now.store.recorded.slots at) ballot) }
    {
        let mut judgement = Judgement {
            rises: false,
            answers: Vec::new(self.alloc),
        };
        for past in 0..count {
            if let Some(at) = first.plus(past as u32) {
                self.judge(at, ballot, &mut judgement)?;
            }
        }
        Ok(judgement)
    }

    /// Judges one more instance. It allocates only for one that is owed an answer.
    fn judge(
        &self,
        at: Instance,
        ballot: Ballot,
        judgement: &mut Judgement,
    ) -> Result<(), AllocError>
        ensures ok { OnOk result (JudgesMore
            (slot_at self.now.store.recorded.slots at) self.now.me at ballot judgement.old judgement.new) }
        ensures err { OnErr result (IsOwed (slot_at self.now.store.recorded.slots at) ballot) }
    {
        let slot = self.store.slot(at);
        match judge_prepare(slot, ballot) {
            PrepareVerdict::Promise => {
                let prior = copy_of(&slot.vote)?;
                judgement.answers.push(promise(self.me, at, ballot, prior))?;
                judgement.rises = true;
                Ok(())
            }
            PrepareVerdict::Again => {
                let prior = copy_of(&slot.vote)?;
                judgement.answers.push(promise(self.me, at, ballot, prior))?;
                Ok(())
            }
            PrepareVerdict::Nack(promised) => {
                judgement.answers.push(nack(self.me, at, ballot, promised))?;
                Ok(())
            }
            PrepareVerdict::Silent => Ok(()),
        }
    }
}
