//! What the group had before a plan, and the texts that it had at a ticket.
ghost use Rattle.std.specs.Prelude.{◌≡◌, ℕ, List, map, filter, not, IfOk, string_bytes};
ghost use Rattle.editor_ledger.specs.Firsts.{HasFirsts};
ghost use Rattle.editor_ledger.specs.Past.{is_among, olds_since, texts_at, reaches};
ghost use Rattle.editor_ledger.specs.View.{past_view};

use crate::firsts::{Firsts, firsts_of, has_about, note};
use crate::head::head_of;
use crate::ledger::Ledger;
use std::alloc::{AllocError, Global};
use std::collections::BTreeMap;

/// What the group had before a text of a plan.
#[derive(Drop)]
pub struct Past {
    /// The number of the plan's first ticket.
    pub since: u64,
    pub text: String,
}

/// Whether one of the texts is about the same.
fn is_among<'a>(firsts: &Firsts<'a>, text: &'a str) -> bool
    ensures { (texts : List (List ℕ)) → HasFirsts firsts.now texts → result ≡ is_among texts text.now }
{
    match head_of(text) {
        Some(head) => has_about(firsts, &head),
        None => false,
    }
}

/// Of each kind and name the first text that was overtaken since a ticket.
fn olds_since(alloc: Global, ticket: u64, past: &[Past]) -> Result<Vec<String>, AllocError>
    ensures { IfOk result (λ v. map string_bytes v.items ≡ olds_since ticket (map past_view past.now)) }
{
    let mut firsts = BTreeMap::new(alloc);
    let mut olds = Vec::new(alloc);
    for had in past {
        let text = had.text.as_str();
        if ticket < had.since && !is_among(&firsts, text) {
            note(&mut firsts, text)?;
            olds.push(had.text.clone()?)?;
        }
    }
    Ok(olds)
}

/// The texts that the group has, except those about the same as one of `olds`.
fn others<'a>(
    alloc: Global,
    kept: &'a [String],
    olds: &'a [String],
) -> Result<Vec<String>, AllocError>
    ensures { IfOk result (λ v. map string_bytes v.items
        ≡ filter (λ t. not (is_among (map string_bytes olds.now) t)) (map string_bytes kept.now)) }
{
    let firsts = firsts_of(alloc, olds)?;
    let mut texts = Vec::new(alloc);
    for text in kept {
        if !is_among(&firsts, text.as_str()) {
            texts.push(text.clone()?)?;
        }
    }
    Ok(texts)
}

impl Ledger {
    /// The texts that the group had when the ticket was the last one: of each kind and name the first that
    /// was overtaken since, or else what the group has. They are those of a release with that ticket if the
    /// ledger reaches it.
    pub fn texts_at(&self, alloc: Global, ticket: u64) -> Result<Vec<String>, AllocError>
        ensures { IfOk result (λ v. map string_bytes v.items ≡ texts_at ticket self.now) }
    {
        let mut olds = olds_since(alloc, ticket, &self.past)?;
        let mut texts = others(alloc, self.kept.as_slice(), &olds)?;
        texts.append(&mut olds)?;
        Ok(texts)
    }

    /// Whether all that was overtaken since a ticket is kept. An older file keeps nothing of it.
    pub fn reaches(&self, ticket: u64) -> bool
        ensures { result ≡ reaches ticket self.now }
    {
        let next = match self.past.first() {
            Some(past) => past.since,
            None => self.next,
        };
        next.saturating_sub(1) <= ticket
    }
}
