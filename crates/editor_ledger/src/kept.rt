//! What the group has of a folder.
//!
//! If no text was about the same as a new one, the new text is added without a look at the others. If at most
//! one is, the new text replaces it, and the search for it begins where the last one was found.
ghost use Rattle.std.specs.Prelude.{◌≡◌, ◌≤◌, ℕ, List, ◌∷◌, [], ◌++◌, length, map, filter, not, Some};
ghost use Rattle.std.specs.Prelude.{false, IfOk, OnOk, OnErr, string_bytes};
ghost use Rattle.std.specs.BTreeMap.{get_by_text};
ghost use Rattle.std.specs.Vec.{vec_capacity};
ghost use Rattle.editor_ledger.specs.Heads.{head_of, is_about, are_about_one};
ghost use Rattle.editor_ledger.specs.Steps.{with_text};
ghost use Rattle.editor_ledger.specs.Subjects.{subject_text, count_about, Bounds};
ghost use Rattle.editor_ledger.specs.View.{head_view};

use crate::head::{Head, head_of};
use std::alloc::{AllocError, Global};
use std::collections::BTreeMap;
use std::marker::Model;

/// For each kind and name that some text is or was about, with a space between: whether several may be.
type Several = BTreeMap<String, bool>;

/// Texts in their order.
#[derive(Drop)]
pub(crate) struct Kept {
    alloc: Global,
    texts: Vec<String>,
    several: Several,
    /// The place of the last text that another one replaced.
    finger: usize,
}

impl Model for Kept {
    ghost use Rattle.std.specs.Prelude.{ℕ, List, map, string_bytes};
    ghost use Rattle.editor_ledger.specs.Subjects.{Bounds};

    ghost Value = { List (List ℕ) };

    ghost view = { λ k. map string_bytes k.texts.items };

    ghost invariant = { λ k. Bounds k.several (map string_bytes k.texts.items) };
}

/// A head's kind and name, with a space between.
fn subject_text(alloc: Global, head: &Head<'_>) -> Result<String, AllocError>
    ensures { IfOk result (λ s. string_bytes s ≡ subject_text (head_view head.now)) }
{
    let kind = head.kind;
    let name = head.name;
    format!(in alloc; "{kind} {name}")
}

/// Where a text about what a head names may be, searched from a place on, and then before it. The caller
/// checks the place itself.
fn likely(texts: &[String], head: &Head<'_>, from: usize) -> usize {
    let from = from.min(texts.len());
    let (front, back) = texts.split_at(from);
    match back.iter().position(|had| head.is_about(had.as_str())) {
        Some(i) => from.saturating_add(i),
        None => front
            .iter()
            .position(|had| head.is_about(had.as_str()))
            .unwrap_or(0),
    }
}

/// Takes out all texts about what a head names.
fn take_all(kept: &mut Vec<String>, head: &Head<'_>)
    ensures others { map string_bytes kept.new.items
        ≡ filter (λ t. not (is_about (head_view head.now) (head_of t))) (map string_bytes kept.old.items) }
    ensures fewer { length kept.new.items ≤ length kept.old.items }
    ensures room { vec_capacity kept.new ≡ vec_capacity kept.old }
{
    kept.retain(|had| !head.is_about(had.as_str()));
}

/// Takes out the text about what a head names, if there is at most one. It is at the place `at`, or
/// elsewhere.
fn take_one(kept: &mut Vec<String>, head: &Head<'_>, at: usize)
    ensures others { count_about (head_view head.now) (map string_bytes kept.old.items) ≤ 1
        → map string_bytes kept.new.items
        ≡ filter (λ t. not (is_about (head_view head.now) (head_of t))) (map string_bytes kept.old.items) }
    ensures fewer { length kept.new.items ≤ length kept.old.items }
    ensures room { vec_capacity kept.new ≡ vec_capacity kept.old }
{
    if at < kept.len() && head.is_about(kept[at].as_str()) {
        drop(kept.remove(at));
    } else {
        take_all(kept, head);
    }
}

/// Takes out the texts about what a head names. The result is the place from which the next search begins.
fn take_out(kept: &mut Vec<String>, head: &Head<'_>, several: bool, finger: usize) -> usize
    ensures others { (several ≡ false → count_about (head_view head.now) (map string_bytes kept.old.items)
        ≤ 1)
        → map string_bytes kept.new.items
        ≡ filter (λ t. not (is_about (head_view head.now) (head_of t))) (map string_bytes kept.old.items) }
    ensures fewer { length kept.new.items ≤ length kept.old.items }
    ensures room { vec_capacity kept.new ≡ vec_capacity kept.old }
{
    if several {
        take_all(kept, head);
        return finger;
    }
    let at = likely(kept.as_slice(), head, finger);
    take_one(kept, head, at);
    at
}

/// What was known of a head's kind and name. They are known from then on.
fn know(alloc: Global, known: &mut Several, head: &Head<'_>) -> Result<Option<bool>, AllocError>
    ensures was { IfOk result (λ o. o ≡ get_by_text known.old (subject_text (head_view head.now))) }
    ensures ok { OnOk result ((t : List ℕ) → head_of t ≡ Some (head_view head.now) → (texts : List (List ℕ))
        → Bounds known.old texts → Bounds known.new (with_text t texts)) }
    ensures err { OnErr result ((texts : List (List ℕ)) → Bounds known.old texts → Bounds known.new texts) }
{
    let subject = subject_text(alloc, head)?;
    if let Some(several) = known.get(subject.as_str()).copied() {
        return Ok(Some(several));
    }
    drop(known.insert(subject, false)?);
    Ok(None)
}

/// Takes out the texts about the same as a text that is to be added after the others.
fn make_way(
    alloc: Global,
    kept: &mut Vec<String>,
    known: &mut Several,
    finger: &mut usize,
    text: &str,
) -> Result<(), AllocError>
    ensures others { OnOk result (Bounds known.old (map string_bytes kept.old.items)
        → map string_bytes kept.new.items
        ≡ filter (λ t. not (are_about_one text.now t)) (map string_bytes kept.old.items)) }
    ensures bounds { OnOk result ((texts : List (List ℕ)) → Bounds known.old texts
        → Bounds known.new (with_text text.now texts)) }
    ensures err { OnErr result (kept.new.items ≡ kept.old.items) }
    ensures err_bounds { OnErr result ((texts : List (List ℕ)) → Bounds known.old texts
        → Bounds known.new texts) }
    ensures fewer { length kept.new.items ≤ length kept.old.items }
    ensures room { vec_capacity kept.new ≡ vec_capacity kept.old }
{
    let Some(head) = head_of(text) else {
        return Ok(());
    };
    if let Some(several) = know(alloc, known, &head)? {
        *finger = take_out(kept, &head, several, *finger);
    }
    Ok(())
}

/// Notes a text that is added after the others.
fn know_more(alloc: Global, known: &mut Several, text: &str) -> Result<(), AllocError>
    ensures ok { OnOk result ((texts : List (List ℕ)) → Bounds known.old texts
        → Bounds known.new (texts ++ text.now ∷ [])) }
    ensures err { OnErr result ((texts : List (List ℕ)) → Bounds known.old texts → Bounds known.new texts) }
{
    let Some(head) = head_of(text) else {
        return Ok(());
    };
    let subject = subject_text(alloc, &head)?;
    let several = known.contains_key(subject.as_str());
    drop(known.insert(subject, several)?);
    Ok(())
}

impl Kept {
    pub(crate) fn new(alloc: Global) -> Kept
        ensures { result ≡ [] }
    {
        Kept {
            alloc,
            texts: Vec::new(alloc),
            several: BTreeMap::new(alloc),
            finger: 0,
        }
    }

    pub(crate) fn as_slice(&self) -> &[String]
        ensures { map string_bytes result.now ≡ self.now }
    {
        self.texts.as_slice()
    }

    /// Adds a text after the others.
    pub(crate) fn push(&mut self, text: String) -> Result<(), AllocError>
        ensures ok { OnOk result (self.new ≡ self.old ++ string_bytes text ∷ []) }
        ensures err { OnErr result (self.new ≡ self.old) }
    {
        self.texts.reserve(1)?;
        know_more(self.alloc, &mut self.several, text.as_str())?;
        self.texts.push_reserved(text);
        Ok(())
    }

    /// Keeps one more text: of each kind and name the last.
    pub(crate) fn keep(&mut self, text: String) -> Result<(), AllocError>
        ensures ok { OnOk result (self.new ≡ with_text (string_bytes text) self.old) }
        ensures err { OnErr result (self.new ≡ self.old) }
    {
        self.texts.reserve(1)?;
        make_way(
            self.alloc,
            &mut self.texts,
            &mut self.several,
            &mut self.finger,
            text.as_str(),
        )?;
        self.texts.push_reserved(text);
        Ok(())
    }
}
