//! What the newest release of a group may show of a folder, and what a publication may change there.
ghost use Rattle.std.specs.Prelude.{◌≡◌, map, filter, nat_lt, IfOk, string_bytes};
ghost use Rattle.editor_ledger.specs.Past.{texts_at};
ghost use Rattle.editor_plan.specs.States.{stops, with_sent, states_of, touched};

use editor_ledger::Ledger;
use std::alloc::{AllocError, Global};

/// The tickets since a folder's last release after which nothing was on its way, as far as they are known.
fn stops(alloc: Global, ledger: &Ledger) -> Result<Vec<u64>, AllocError>
    ensures { IfOk result (λ v. v.items ≡ stops ledger.now) }
{
    let mut last = ledger.last_release();
    let mut stops = Vec::new(alloc);
    stops.push(last)?;
    for had in ledger.past() {
        let ticket = had.since.saturating_sub(1);
        if last < ticket {
            stops.push(ticket)?;
            last = ticket;
        }
    }
    Ok(stops)
}

/// The texts that have their receipts.
fn kept_texts(alloc: Global, ledger: &Ledger) -> Result<Vec<String>, AllocError>
    ensures { IfOk result (λ v. map string_bytes v.items ≡ ledger.now.kept) }
{
    let mut texts = Vec::new(alloc);
    for text in ledger.kept() {
        texts.push(text.clone()?)?;
    }
    Ok(texts)
}

/// The texts that have their receipts, and then those that are on their way.
fn texts_with_sent(alloc: Global, ledger: &Ledger) -> Result<Vec<String>, AllocError>
    ensures { IfOk result (λ v. map string_bytes v.items ≡ with_sent ledger.now) }
{
    let mut texts = kept_texts(alloc, ledger)?;
    for sent in ledger.sent() {
        texts.push(sent.text.clone()?)?;
    }
    Ok(texts)
}

/// A folder's texts at each of these tickets.
fn texts_at_each(
    alloc: Global,
    ledger: &Ledger,
    tickets: &[u64],
) -> Result<Vec<Vec<String>>, AllocError>
    ensures { IfOk result (λ v. map (λ t. map string_bytes t.items) v.items
        ≡ map (λ t. texts_at t ledger.now) tickets.now) }
{
    let mut states = Vec::new(alloc);
    for ticket in tickets {
        states.push(ledger.texts_at(alloc, *ticket)?)?;
    }
    Ok(states)
}

/// A folder's texts as the newest release of the group may have them: first those of the folder's last
/// release, then those of the plans since.
pub fn states_of(alloc: Global, ledger: &Ledger) -> Result<Vec<Vec<String>>, AllocError>
    ensures { IfOk result (λ v. map (λ t. map string_bytes t.items) v.items ≡ states_of ledger.now) }
{
    let stops = if ledger.has_unshown() {
        stops(alloc, ledger)?
    } else {
        Vec::new(alloc)
    };
    let mut states = texts_at_each(alloc, ledger, &stops)?;
    states.push(kept_texts(alloc, ledger)?)?;
    if ledger.has_unshown() {
        states.push(texts_with_sent(alloc, ledger)?)?;
    }
    Ok(states)
}

/// What the plans since a folder's last release overtook.
fn overtaken_since(alloc: Global, ledger: &Ledger) -> Result<Vec<String>, AllocError>
    ensures { IfOk result (λ v. map string_bytes v.items
        ≡ map (λ g. g.text) (filter (λ g. nat_lt ledger.now.last_release g.number) ledger.now.past)) }
{
    let last = ledger.last_release();
    let mut texts = Vec::new(alloc);
    for had in ledger.past() {
        if last < had.since {
            texts.push(had.text.clone()?)?;
        }
    }
    Ok(texts)
}

/// Texts about all that a publication of a folder puts or removes and that no release of the folder has.
pub fn touched(alloc: Global, ledger: &Ledger, wanted: &[&str]) -> Result<Vec<String>, AllocError>
    ensures { IfOk result (λ v. map string_bytes v.items ≡ touched (map (λ t. t.now) wanted.now) ledger.now) }
{
    let mut texts = overtaken_since(alloc, ledger)?;
    let mut next = ledger.next_texts(alloc, wanted)?;
    texts.append(&mut next)?;
    Ok(texts)
}
