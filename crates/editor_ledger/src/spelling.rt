//! A ledger as the text of a file.
ghost use Rattle.std.specs.Prelude.{◌≡◌, map, IfOk, string_bytes};
ghost use Rattle.std.specs.List.{flat_map};
ghost use Rattle.editor_ledger.specs.Spelling.{front_lines, released_line, kept_entry, numbered_entry};
ghost use Rattle.editor_ledger.specs.Spelling.{sent_entry, past_entry, message_entry, body, last_line};
ghost use Rattle.editor_ledger.specs.Spelling.{sum_of, spelled};
ghost use Rattle.editor_ledger.specs.View.{given_view, past_view, message_view};

use crate::ledger::Ledger;
use crate::message::Message;
use crate::past::Past;
use crate::released::Released;
use crate::sent::Sent;
use sha2::{Digest, Sha256};
use std::alloc::{AllocError, Global};

/// How the last line begins.
pub(crate) const LAST: &str = "end ";

fn front_lines(
    alloc: Global,
    editor: u32,
    next: u64,
    last_release: u64,
) -> Result<String, AllocError>
    ensures { IfOk result (λ text. string_bytes text ≡ front_lines editor next last_release) }
{
    format!(in alloc; "published 2\neditor {editor}\nnext {next}\nlast_release {last_release}\n")
}

fn released_line(alloc: Global, released: Released) -> Result<String, AllocError>
    ensures { IfOk result (λ text. string_bytes text ≡ released_line released) }
{
    let Released {
        release,
        time,
        commands,
        exact,
    } = released;
    let word = if exact { "released" } else { "released_by" };
    format!(in alloc; "{word} {release} {time} {commands}\n")
}

fn kept_entry(alloc: Global, text: &str) -> Result<String, AllocError>
    ensures { IfOk result (λ entry. string_bytes entry ≡ kept_entry text.now) }
{
    let length = text.len();
    format!(in alloc; "has {length}\n{text}\n")
}

/// A text after the line of a word, a number and its length.
fn numbered_entry(alloc: Global, word: &str, number: u64, text: &str) -> Result<String, AllocError>
    ensures { IfOk result (λ entry. string_bytes entry
        ≡ numbered_entry word.now (record { number = number; text = text.now })) }
{
    let length = text.len();
    format!(in alloc; "{word} {number} {length}\n{text}\n")
}

fn log_lines(alloc: Global, log: &[Released]) -> Result<String, AllocError>
    ensures { IfOk result (λ text. string_bytes text ≡ flat_map released_line log.now) }
{
    let mut text = String::new(alloc);
    for released in log {
        text.push_str(released_line(alloc, *released)?.as_str())?;
    }
    Ok(text)
}

fn kept_entries(alloc: Global, kept: &[String]) -> Result<String, AllocError>
    ensures { IfOk result (λ text. string_bytes text ≡ flat_map kept_entry (map string_bytes kept.now)) }
{
    let mut text = String::new(alloc);
    for had in kept {
        text.push_str(kept_entry(alloc, had.as_str())?.as_str())?;
    }
    Ok(text)
}

fn sent_entries(alloc: Global, sent: &[Sent]) -> Result<String, AllocError>
    ensures { IfOk result (λ text. string_bytes text ≡ flat_map sent_entry (map given_view sent.now)) }
{
    let mut text = String::new(alloc);
    for given in sent {
        let entry = numbered_entry(alloc, "sent", given.number, given.text.as_str())?;
        text.push_str(entry.as_str())?;
    }
    Ok(text)
}

fn past_entries(alloc: Global, past: &[Past]) -> Result<String, AllocError>
    ensures { IfOk result (λ text. string_bytes text ≡ flat_map past_entry (map past_view past.now)) }
{
    let mut text = String::new(alloc);
    for had in past {
        let entry = numbered_entry(alloc, "was", had.since, had.text.as_str())?;
        text.push_str(entry.as_str())?;
    }
    Ok(text)
}

fn message_entries(alloc: Global, messages: &[Message]) -> Result<String, AllocError>
    ensures { IfOk result (λ text. string_bytes text
        ≡ flat_map message_entry (map message_view messages.now)) }
{
    let mut text = String::new(alloc);
    for message in messages {
        let entry = numbered_entry(alloc, "told", message.release, message.text.as_str())?;
        text.push_str(entry.as_str())?;
    }
    Ok(text)
}

/// The sum of a text, as `sha256sum` prints it.
fn sum_of(alloc: Global, text: &str) -> Result<String, AllocError>
    ensures { IfOk result (λ sum. string_bytes sum ≡ sum_of text.now) }
{
    hex::encode(alloc, Sha256::digest(text.as_bytes()))
}

/// The last line of a file, after that text.
fn last_line(alloc: Global, text: &str) -> Result<String, AllocError>
    ensures { IfOk result (λ line. string_bytes line ≡ last_line text.now) }
{
    let sum = sum_of(alloc, text)?;
    format!(in alloc; "{LAST}{sum}\n")
}

impl Ledger {
    /// What the file says, before its last line.
    fn body(&self, alloc: Global) -> Result<String, AllocError>
        ensures { IfOk result (λ text. string_bytes text ≡ body self.now) }
    {
        let mut text = front_lines(alloc, self.editor(), self.next(), self.last_release())?;
        text.push_str(log_lines(alloc, self.log())?.as_str())?;
        text.push_str(message_entries(alloc, self.messages())?.as_str())?;
        text.push_str(kept_entries(alloc, self.kept())?.as_str())?;
        text.push_str(past_entries(alloc, self.past())?.as_str())?;
        text.push_str(sent_entries(alloc, self.sent())?.as_str())?;
        Ok(text)
    }

    /// The text of a file that keeps the ledger.
    pub fn spelled(&self, alloc: Global) -> Result<String, AllocError>
        ensures { IfOk result (λ text. string_bytes text ≡ spelled self.now) }
    {
        let mut text = self.body(alloc)?;
        let end = last_line(alloc, text.as_str())?;
        text.push_str(end.as_str())?;
        Ok(text)
    }
}
