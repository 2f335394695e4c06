//! Sets of texts, and maps of texts by what they are about.
ghost use Rattle.std.specs.Prelude.{◌≡◌, ℕ, List, [], ◌∷◌, ◌++◌, map, find, option_map, IfOk, OnOk};
ghost use Rattle.std.specs.Prelude.{string_bytes};
ghost use Rattle.std.specs.List.{list_any};
ghost use Rattle.std.specs.Str.{bytes_eq};
ghost use Rattle.editor_ledger.specs.Firsts.{HasTexts, HasFirsts};
ghost use Rattle.editor_ledger.specs.Heads.{head_of, is_about};
ghost use Rattle.editor_ledger.specs.View.{head_view};

use crate::head::{Head, head_of};
use std::alloc::{AllocError, Global};
use std::collections::{BTreeMap, BTreeSet};

/// A set of texts.
pub(crate) type Texts<'a> = BTreeSet<&'a str>;

/// For each kind and name the first text about it.
pub(crate) type Firsts<'a> = BTreeMap<(&'a str, &'a str), &'a str>;

/// The set of these texts.
pub(crate) fn texts_in(alloc: Global, texts: &[String]) -> Result<Texts<'_>, AllocError>
    ensures { IfOk result (λ set. HasTexts set (map string_bytes texts.now)) }
{
    let mut set = BTreeSet::new(alloc);
    for text in texts {
        let _ = set.insert(text.as_str())?;
    }
    Ok(set)
}

/// Whether a text is one of these.
pub(crate) fn is_in<'a>(set: &Texts<'a>, text: &'a str) -> bool
    ensures { (texts : List (List ℕ)) → HasTexts set.now texts → result ≡ list_any (bytes_eq text.now) texts }
{
    set.contains(text)
}

/// Notes a text, unless one before is about the same.
pub(crate) fn note<'a>(firsts: &mut Firsts<'a>, text: &'a str) -> Result<(), AllocError>
    ensures { OnOk result ((texts : List (List ℕ)) → HasFirsts firsts.old texts
        → HasFirsts firsts.new (texts ++ text.now ∷ [])) }
{
    if let Some(head) = head_of(text) {
        let subject = (head.kind, head.name);
        if !firsts.contains_key(&subject) {
            drop(firsts.insert(subject, text)?);
        }
    }
    Ok(())
}

/// For each kind and name the first of these borrowed texts about it.
pub(crate) fn firsts_in<'a>(alloc: Global, texts: &[&'a str]) -> Result<Firsts<'a>, AllocError>
    ensures { IfOk result (λ firsts. HasFirsts firsts (map (λ t. t.now) texts.now)) }
{
    let mut firsts = BTreeMap::new(alloc);
    for text in texts {
        note(&mut firsts, text)?;
    }
    Ok(firsts)
}

/// For each kind and name the first of these texts about it.
pub(crate) fn firsts_of(alloc: Global, texts: &[String]) -> Result<Firsts<'_>, AllocError>
    ensures { IfOk result (λ firsts. HasFirsts firsts (map string_bytes texts.now)) }
{
    let mut firsts = BTreeMap::new(alloc);
    for text in texts {
        note(&mut firsts, text.as_str())?;
    }
    Ok(firsts)
}

/// The first text about what a head names.
pub(crate) fn first_about<'a>(firsts: &Firsts<'a>, head: &Head<'a>) -> Option<&'a str>
    ensures { (texts : List (List ℕ)) → HasFirsts firsts.now texts
        → option_map (λ t. t.now) result ≡ find (λ t. is_about (head_view head.now) (head_of t)) texts }
{
    let subject = (head.kind, head.name);
    firsts.get(&subject).copied()
}

/// Whether some text is about what a head names.
pub(crate) fn has_about<'a>(firsts: &Firsts<'a>, head: &Head<'a>) -> bool
    ensures { (texts : List (List ℕ)) → HasFirsts firsts.now texts
        → result ≡ list_any (λ t. is_about (head_view head.now) (head_of t)) texts }
{
    first_about(firsts, head).is_some()
}
