//! What turns the texts that the group has into the wanted ones.
//!
//! Texts are looked up in sets and maps, so a plan of n texts takes n log n comparisons.

ghost use Rattle.std.specs.Prelude.{◌≡◌, ℕ, List, map, option_map, IfOk, string_bytes};
ghost use Rattle.std.specs.List.{filter_map};
ghost use Rattle.editor_ledger.specs.Firsts.{HasFirsts};
ghost use Rattle.editor_ledger.specs.Plans.{missing, removal_of, plan_of, before_text, overtaken};
ghost use Rattle.editor_ledger.specs.View.{past_view};

use crate::firsts::{Firsts, first_about, firsts_in, firsts_of, has_about, is_in, texts_in};
use crate::head::head_of;
use crate::past::Past;
use std::alloc::{AllocError, Global};

/// The wanted texts that are put again, or that the group lacks, in their order.
fn missing<'a>(
    alloc: Global,
    kept: &'a [String],
    wanted: &'a [&'a str],
    again: &'a [String],
) -> Result<Vec<String>, AllocError>
    ensures { IfOk result (λ v. map string_bytes v.items
        ≡ missing (map string_bytes again.now) (map string_bytes kept.now) (map (λ t. t.now) wanted.now)) }
{
    let had = texts_in(alloc, kept)?;
    let anew = texts_in(alloc, again)?;
    let mut plan = Vec::new(alloc);
    for text in wanted {
        if is_in(&anew, text) || !is_in(&had, text) {
            plan.push(String::from_str(alloc, text)?)?;
        }
    }
    Ok(plan)
}

/// The removal of what a text put, if no wanted text is about the same.
fn removal_of<'a>(
    alloc: Global,
    wanted: &Firsts<'a>,
    kept: &'a str,
) -> Result<Option<String>, AllocError>
    ensures { IfOk result (λ found. (texts : List (List ℕ)) → HasFirsts wanted.now texts
        → option_map string_bytes found ≡ removal_of texts kept.now) }
{
    let Some(head) = head_of(kept) else {
        return Ok(None);
    };
    if head.puts() && !has_about(wanted, &head) {
        Ok(Some(head.removal(alloc)?))
    } else {
        Ok(None)
    }
}

/// The removals of what was put and is no longer wanted.
fn removals<'a>(
    alloc: Global,
    kept: &'a [String],
    wanted: &'a [&'a str],
) -> Result<Vec<String>, AllocError>
    ensures { IfOk result (λ v. map string_bytes v.items
        ≡ filter_map (removal_of (map (λ t. t.now) wanted.now)) (map string_bytes kept.now)) }
{
    let named = firsts_in(alloc, wanted)?;
    let mut plan = Vec::new(alloc);
    for text in kept {
        if let Some(removal) = removal_of(alloc, &named, text.as_str())? {
            plan.push(removal)?;
        }
    }
    Ok(plan)
}

/// The texts of a plan that puts some of the wanted texts again: what is missing, in the order in which it is
/// wanted, then the removals.
pub(crate) fn plan_of<'a>(
    alloc: Global,
    kept: &'a [String],
    wanted: &'a [&'a str],
    again: &'a [String],
) -> Result<Vec<String>, AllocError>
    ensures { IfOk result (λ v. map string_bytes v.items
        ≡ plan_of (map string_bytes again.now) (map string_bytes kept.now) (map (λ t. t.now) wanted.now)) }
{
    let mut plan = missing(alloc, kept, wanted, again)?;
    let mut gone = removals(alloc, kept, wanted)?;
    plan.append(&mut gone)?;
    Ok(plan)
}

/// What the group has before a text: its text about the same, or the removal of that if it has none.
fn before_text<'a>(
    alloc: Global,
    kept: &Firsts<'a>,
    text: &'a str,
) -> Result<Option<String>, AllocError>
    ensures { IfOk result (λ found. (texts : List (List ℕ)) → HasFirsts kept.now texts
        → option_map string_bytes found ≡ before_text texts text.now) }
{
    let Some(head) = head_of(text) else {
        return Ok(None);
    };
    match first_about(kept, &head) {
        Some(had) => Ok(Some(String::from_str(alloc, had)?)),
        None => Ok(Some(head.removal(alloc)?)),
    }
}

/// What the group has before the texts of a plan. `since` is the number of the plan's first ticket.
pub(crate) fn overtaken<'a>(
    alloc: Global,
    since: u64,
    kept: &'a [String],
    plan: &'a [String],
) -> Result<Vec<Past>, AllocError>
    ensures { IfOk result (λ v. map past_view v.items
        ≡ overtaken since (map string_bytes kept.now) (map string_bytes plan.now)) }
{
    let firsts = firsts_of(alloc, kept)?;
    let mut past = Vec::new(alloc);
    for text in plan {
        if let Some(text) = before_text(alloc, &firsts, text.as_str())? {
            past.push(Past { since, text })?;
        }
    }
    Ok(past)
}
