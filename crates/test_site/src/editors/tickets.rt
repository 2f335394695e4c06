//! The text of each ticket, by its number.
use crate::comparing::ensure;
use std::alloc::Global;
use std::collections::BTreeMap;
use std::process::Abort;

pub(crate) type Texts = BTreeMap<u64, String>;

/// Whether the ticket is known. No ticket ever has two texts.
pub(crate) fn has(rt: &impl Abort, texts: &Texts, number: u64, text: &str) -> bool {
    match texts.get(&number) {
        Some(known) => {
            ensure(rt, known.as_str() == text, number);
            true
        }
        None => false,
    }
}

pub(crate) fn insert(rt: &impl Abort, texts: &mut Texts, number: u64, text: String) {
    ensure(rt, texts.insert(number, text).is_ok(), number);
}

pub(crate) fn keep(rt: &impl Abort, alloc: Global, texts: &mut Texts, number: u64, text: &str) {
    let text = String::from_str(alloc, text).expect(rt, "memory");
    insert(rt, texts, number, text);
}
