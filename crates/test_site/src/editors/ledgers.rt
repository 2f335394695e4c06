//! Commands as single letters, and ledgers written in them.
use crate::comparing::{ensure, same};
use editor_ledger::{Ledger, Sent};
use sha2::{Digest, Sha256};
use std::alloc::{AllocError, Global};
use std::process::Abort;

/// The letters of commands: a capital letter puts, and the small letter removes what it put.
const LETTERS: &str = "TABRtar!";

/// The command of a letter.
fn command_of(letter: char) -> &'static str {
    match letter {
        'T' => "put template t\nx",
        'A' => "put data a\n1\n",
        'B' => "put data a\n2\n",
        'R' => "put route /a t a\n",
        't' => "remove template t\n",
        'a' => "remove data a\n",
        'r' => "remove route /a\n",
        '!' => "release\n",
        _ => "",
    }
}

/// The letter of a command.
fn letter_of(text: &str) -> char {
    for letter in LETTERS.chars() {
        if command_of(letter) == text {
            return letter;
        }
    }
    '?'
}

/// The commands of a word's letters.
pub fn commands(alloc: Global, letters: &str) -> Result<Vec<&'static str>, AllocError> {
    let mut texts = Vec::new(alloc);
    for letter in letters.chars() {
        texts.push(command_of(letter))?;
    }
    Ok(texts)
}

// Below are a ledger's steps. No allocation may fail in them.

pub fn plan_texts(rt: &impl Abort, alloc: Global, ledger: &mut Ledger, wanted: &[&str]) {
    let is_planned = ledger.is_idle() && ledger.plan(alloc, wanted, &[]).is_ok();
    ensure(rt, is_planned, ledger.next());
}

/// Plans the commands of a word's letters.
pub fn plan(rt: &impl Abort, alloc: Global, ledger: &mut Ledger, letters: &str) {
    let wanted = commands(alloc, letters).expect(rt, "memory");
    plan_texts(rt, alloc, ledger, wanted.as_slice());
}

pub fn plan_release(rt: &impl Abort, alloc: Global, ledger: &mut Ledger) {
    let is_planned = ledger.is_idle() && ledger.plan_release(alloc).is_ok();
    ensure(rt, is_planned, ledger.next());
}

pub fn receive(rt: &impl Abort, ledger: &mut Ledger, number: u64) {
    ensure(rt, ledger.receive(number).is_ok(), number);
}

pub fn spelled(rt: &impl Abort, alloc: Global, ledger: &Ledger) -> String {
    ledger.spelled(alloc).expect(rt, "memory")
}

/// Saves the ledger in the file.
pub fn save(rt: &impl Abort, alloc: Global, ledger: &Ledger, file: &mut String) {
    *file = spelled(rt, alloc, ledger);
}

/// The file of some lines: these lines, and the last one with their sum.
pub fn sealed(alloc: Global, lines: &str) -> Result<String, AllocError> {
    let sum = hex::encode(alloc, Sha256::digest(lines.as_bytes()))?;
    format!(in alloc; "{lines}end {sum}\n")
}

/// Checks that a ledger is saved as these lines and the last one.
pub fn is_spelled(rt: &impl Abort, alloc: Global, ledger: &Ledger, lines: &str) {
    let wanted = sealed(alloc, lines).expect(rt, "memory");
    same(rt, spelled(rt, alloc, ledger).as_str(), wanted.as_str());
}

pub fn read(rt: &impl Abort, alloc: Global, file: &str) -> Ledger {
    Ledger::read(alloc, file).expect(rt, "a ledger")
}

/// The ledger that these lines spell, with the last line added.
pub fn read_lines(rt: &impl Abort, alloc: Global, lines: &str) -> Ledger {
    let file = sealed(alloc, lines).expect(rt, "memory");
    read(rt, alloc, file.as_str())
}

/// The file of an editor that has published nothing.
pub fn new_file(rt: &impl Abort, alloc: Global) -> String {
    spelled(rt, alloc, &Ledger::new(alloc, 7))
}

/// The letters of commands.
pub fn letters_of(alloc: Global, texts: &[String]) -> Result<String, AllocError> {
    let mut letters = String::new(alloc);
    for text in texts {
        letters.push(letter_of(text.as_str()))?;
    }
    Ok(letters)
}

/// The letters of what the group has.
pub fn kept(alloc: Global, ledger: &Ledger) -> Result<String, AllocError> {
    letters_of(alloc, ledger.kept())
}

/// What is on its way: its number and its letter.
fn push_sent(alloc: Global, line: &mut String, sent: &Sent) -> Result<(), AllocError> {
    let number = sent.number;
    let letter = letter_of(sent.text.as_str());
    line.push_str(format!(in alloc; " {number}{letter}")?.as_str())
}

fn begun(alloc: Global, ledger: &Ledger) -> Result<String, AllocError> {
    let next = ledger.next();
    let last = ledger.last_release();
    let has = kept(alloc, ledger)?;
    format!(in alloc; "{next} {last} {has}")
}

/// A ledger in a line: the next ticket's number, that of the last release, what the group has, and what is on
/// its way.
pub fn told(alloc: Global, ledger: &Ledger) -> Result<String, AllocError> {
    let mut line = begun(alloc, ledger)?;
    for sent in ledger.sent() {
        push_sent(alloc, &mut line, sent)?;
    }
    Ok(line)
}
