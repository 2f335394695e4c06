//! The values of an input.
ghost use Rattle.std.specs.Prelude.{◌≡◌, ◌≢◌, ◌<◌, [], length, IfOk, MatchOption, Ok, Err, string_bytes};
ghost use Rattle.command.specs.Action.{Order};
ghost use Rattle.command.specs.Reading.{value_reading};
ghost use Rattle.command.specs.Written.{line_of, HasLine};
ghost use Rattle.command.specs.declared.fault.CommandFault.{CommandFault as Fault};
ghost use Rattle.engine_page.specs.Standing.{IsFaultLine, IsFed, IsInput};
ghost use Rattle.engine_page.specs.Reading.{HasReading, fault_at};
ghost use Rattle.engine_page.specs.Verdict.{HasValues};
ghost use Rattle.engine_page.specs.View.{framed_view};

use crate::framed::{Framed, next};
use command::{CommandFault, fault_line, read, write};
use content::Applied;
use release::Releases;
use std::alloc::{AllocError, Global};

/// The most commands of an input.
const MAX_COMMANDS: usize = 1_000_000;

/// The releases of the values, or the line of the first fault.
#[derive(Drop)]
pub(crate) enum Input {
    Fed(Releases),
    Fault(String),
}

/// Feeds the value of the command at that place. Returns the line of its fault, if it has one.
fn feed_one(
    alloc: Global,
    releases: &mut Releases,
    place: usize,
    framed: Framed<'_>,
) -> Result<Option<String>, AllocError>
    requires { length releases.old < MAX_COMMANDS }
    ensures { IfOk result (λ found. MatchOption found
        (IsFed (framed_view framed.entry) releases.old releases.new)
        (λ line. IsFaultLine (framed_view framed.entry) place (string_bytes line))) }
{
    let value = write(alloc, framed.ticket, framed.text)?;
    if matches!(releases.feed(&value)?, Applied::NotACommand) {
        return Ok(Some(fault_at(alloc, place, &value)?));
    }
    Ok(None)
}

/// Feeds the values of framed commands to releases that have none. Returns the line of the first fault, which
/// names the command's place, counted from 1.
fn feed_all(
    alloc: Global,
    releases: &mut Releases,
    input: &[u8],
) -> Result<Option<String>, AllocError>
    requires { releases.old ≡ [] }
    ensures { IfOk result (λ found. MatchOption found (HasValues input.now releases.new)
        (λ line. HasReading input.now (Err (string_bytes line)))) }
{
    let mut rest = input;
    while !rest.is_empty() {
        let place = releases.len() + 1;
        let framed = match next(rest) {
            Some(framed) if place <= MAX_COMMANDS => framed,
            _ => return Ok(Some(line_at(alloc, place, "framing")?)),
        };
        match feed_one(alloc, releases, place, framed)? {
            Some(line) => return Ok(Some(line)),
            None => rest = framed.rest,
        }
    }
    Ok(None)
}

/// The releases of the values of framed commands, or the line of the first fault.
pub(crate) fn fed(alloc: Global, input: &[u8]) -> Result<Input, AllocError>
    ensures { IfOk result (λ found. IsInput input.now found) }
{
    let mut releases = Releases::new(alloc);
    match feed_all(alloc, &mut releases, input)? {
        None => Ok(Input::Fed(releases)),
        Some(line) => Ok(Input::Fault(line)),
    }
}

/// The line of a value that is not a command. The value is read once more for its fault.
fn fault_at(alloc: Global, place: usize, value: &[u8]) -> Result<String, AllocError>
    requires { (order : Order) → value_reading value.now ≢ Ok order }
    ensures { IfOk result (λ line. (fault : Fault) × (value_reading value.now ≡ Err fault)
        × (string_bytes line ≡ fault_at place (line_of fault))) }
{
    match read(alloc, value) {
        Ok(_) => unreachable!(),
        Err(fault) => fault_input(alloc, place, &fault),
    }
}

fn fault_input(alloc: Global, k: usize, fault: &CommandFault) -> Result<String, AllocError>
    requires { fault.now ≢ CommandFault.OutOfMemory → HasLine fault.now }
    ensures { IfOk result (λ line. (fault.now ≢ CommandFault.OutOfMemory)
        × (string_bytes line ≡ fault_at k (line_of fault.now))) }
{
    match fault {
        CommandFault::OutOfMemory => Err(AllocError),
        _ => {
            let line = fault_line(alloc, fault)?;
            line_at(alloc, k, line.as_str())
        }
    }
}

fn line_at(alloc: Global, k: usize, fault: &str) -> Result<String, AllocError>
    ensures { IfOk result (λ line. string_bytes line ≡ fault_at k fault.now) }
{
    format!(in alloc; "input {k}: {fault}\n")
}
