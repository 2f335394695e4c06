//! The releases of a folder.
use editor_common::{EditorFault, Outcome, say, say_made};
use editor_files::read_ledger;
use editor_ledger::{Ledger, Released};
use jiff::Timestamp;
use serde_json::{Value, json};
use std::alloc::{AllocError, Global};
use std::collections::BTreeMap;
use std::io::Write;
use std::rt::Files;

/// The messages of releases, by their numbers: of each release the last message.
fn messages_of(alloc: Global, ledger: &Ledger) -> Result<BTreeMap<u64, &str>, AllocError> {
    let mut messages = BTreeMap::new(alloc);
    for message in ledger.messages() {
        let _ = messages.insert(message.release, message.text.as_str())?;
    }
    Ok(messages)
}

/// When a release was first seen, as it is written. In seconds if that is not a valid time.
fn time_of(alloc: Global, released: &Released) -> Result<String, AllocError> {
    let seconds = i64::try_from(released.time).unwrap_or(i64::MAX);
    match Timestamp::from_second(seconds) {
        Ok(time) => format!(in alloc; "{time}"),
        Err(_) => format!(in alloc; "{seconds}"),
    }
}

/// Writes a release: its number, when it was first seen, how many commands it shows that none showed before,
/// and the lines of its message, each after four blanks.
fn tell<W: Write>(
    alloc: Global,
    out: &mut W,
    released: &Released,
    time: &str,
    message: Option<&str>,
) -> Result<(), EditorFault> {
    let (release, commands) = (released.release, released.commands);
    let near = if released.exact {
        ""
    } else {
        " or an earlier one"
    };
    let line = format!(in alloc; "release {release}{near}  {time}  commands: {commands}")?;
    say(out, line.as_str())?;
    for line in message.unwrap_or("").lines() {
        let line = format!(in alloc; "    {line}")?;
        say(out, line.as_str())?;
    }
    Ok(())
}

/// A release as one JSON object.
fn release_value(
    alloc: Global,
    released: &Released,
    time: &str,
    message: Option<&str>,
) -> Result<Value, AllocError> {
    let said = match message {
        Some(message) => Value::try_from_str(alloc, message)?,
        None => Value::Null,
    };
    json!(in alloc; {
        "release": released.release,
        "time": time,
        "seconds": released.time,
        "commands": released.commands,
        "exact": released.exact,
        "message": said
    })
}

fn tell_all<W: Write>(
    alloc: Global,
    out: &mut W,
    outcome: &mut Outcome,
    ledger: &Ledger,
) -> Result<(), EditorFault> {
    let messages = messages_of(alloc, ledger)?;
    let mut releases = Vec::new(alloc);
    for released in ledger.log() {
        let time = time_of(alloc, released)?;
        let message = messages.get(&released.release).copied();
        tell(alloc, out, released, time.as_str(), message)?;
        releases.push(release_value(alloc, released, time.as_str(), message)?)?;
    }
    Ok(outcome.put(alloc, "releases", Value::Array(releases))?)
}

fn tell_none<E: Write>(alloc: Global, err: &mut E, folder: &str) -> Result<(), EditorFault> {
    let why = EditorFault::Unpublished(String::from_str(alloc, folder)?);
    Ok(say_made(err, format!(in alloc; "{why}"))?)
}

/// Writes the releases that were made of a folder, the oldest first, and returns the exit status. The outcome
/// keeps the releases, none if nothing was published.
pub fn tell_log<R: Files + AllocGlobal, W: Write, E: Write>(
    rt: &R,
    out: &mut W,
    err: &mut E,
    outcome: &mut Outcome,
    folder: &str,
) -> Result<u8, EditorFault> {
    let alloc = rt.alloc();
    match read_ledger(rt, folder)? {
        Some(ledger) => {
            tell_all(alloc, out, outcome, &ledger)?;
            Ok(0)
        }
        None => {
            outcome.put(alloc, "releases", Value::Array(Vec::new(alloc)))?;
            tell_none(alloc, err, folder)?;
            Ok(1)
        }
    }
}
