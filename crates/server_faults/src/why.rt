//! Why a server halted: a line after that of the fault, if that was asked for.
//!
//! It is a line of its own, so that the line of a fault stays as the formats have it.

ghost use Rattle.std.specs.Prelude.{◌≡◌, IfOk, codes, string_bytes};
ghost use Rattle.http_read.specs.Bytes.{end_of};
ghost use Rattle.server_faults.specs.Why.{why_line, damaged_line, GivesLine, GivesWhy, SaysWhy, SaysWhyIf};

use crate::{Cause, ServeOptions, ServerFault};
use durable::RecordFault;
use engine_common::give;
use http_read::Counted;
use server_floor::FloorFault;
use site_ids::MAX_NODES;
use std::alloc::{AllocError, Global};
use std::io;
use std::io::Write;
use std::net::SocketAddr;

/// The line: what it is about, which one, and the cause.
fn line(alloc: Global, what: &str, which: &str, cause: &str) -> Result<String, AllocError>
    ensures { IfOk result (λ text. string_bytes text ≡ why_line what.now which.now cause.now) }
{
    format!(in alloc; "{what}{which}: {cause}\n")
}

/// Writes the line. If an allocation fails, it is left out.
fn tell<E: Write>(alloc: Global, err: &mut Counted<E>, what: &str, which: &str, cause: &str)
    ensures { GivesWhy (end_of E.contents err.old err.new) what.now which.now }
{
    if let Ok(line) = line(alloc, what, which, cause) {
        give(err, line.as_str());
    }
}

/// The system's own words.
fn words(alloc: Global, error: io::Error) -> Result<String, AllocError> {
    format!(in alloc; "{error}")
}

/// Writes the system's own words if it reported something, or else these words.
fn tell_cause<E: Write>(
    alloc: Global,
    err: &mut Counted<E>,
    what: &str,
    which: &str,
    error: Option<io::Error>,
    other: &str,
)
    ensures { GivesWhy (end_of E.contents err.old err.new) what.now which.now }
{
    match error {
        Some(error) => {
            if let Ok(text) = words(alloc, error) {
                tell(alloc, err, what, which, text.as_str());
            }
        }
        None => tell(alloc, err, what, which, other),
    }
}

/// What is wrong with a record about which the system reported nothing. `above` says that the record was to
/// be made above a floor.
fn wrong_with(fault: RecordFault, cause: &Cause, above: bool) -> &'static str {
    match fault {
        RecordFault::NotARecord if above => {
            "there is a file already: --above makes a record only in an empty or absent one"
        }
        RecordFault::NotARecord => "empty, or another file",
        RecordFault::WrongNode => "of another node, or of another number of nodes",
        RecordFault::Damaged => "it has bytes that no node wrote",
        _ if cause.locked => "another process has it",
        _ => "a call failed",
    }
}

/// The address that could not be bound.
fn address_of<'a>(options: &ServeOptions<'a>, cause: &Cause) -> &'a str {
    let own = usize::from(options.id).saturating_sub(1);
    match options.peers.get(own) {
        Some(own) if cause.datagrams => own,
        _ => options.http,
    }
}

/// The first word that is not an address.
fn first_bad<'a>(options: &ServeOptions<'a>) -> &'a str {
    for peer in options.peers.as_slice() {
        if peer.parse::<SocketAddr>().is_err() {
            return peer;
        }
    }
    options.http
}

/// Which word of the command line is invalid, and why.
fn bad_word<'a>(options: &ServeOptions<'a>) -> (&'a str, &'static str) {
    let size = options.peers.len();
    if size == 0 || size > MAX_NODES as usize {
        return ("ADDRESS..", "give those of one to nine nodes");
    }
    if options.id == 0 || usize::from(options.id) > size {
        return ("--id", "no such node: the addresses number them from 1");
    }
    (
        first_bad(options),
        "give an IP address and a port: names are not resolved",
    )
}

/// Why reaches give no floor.
fn wrong_with_reaches(fault: FloorFault) -> &'static str {
    match fault {
        FloorFault::NotTold => "give a node, a colon and its reach, as 2:57",
        FloorFault::NotAnother => "give reaches of other nodes of the group",
        FloorFault::Twice => "a node stands there twice",
        FloorFault::TooFew => "give the reaches of more than half of the group's nodes",
        FloorFault::TooFar => "no instance is left above such a reach",
        FloorFault::OutOfMemory => "an allocation failed",
    }
}

/// Says why a record is refused. `above` says that the record was to be made above a floor.
pub fn say_why_of_record<E: Write>(
    alloc: Global,
    err: &mut Counted<E>,
    path: &str,
    fault: RecordFault,
    cause: &Cause,
    above: bool,
)
    ensures { GivesWhy (end_of E.contents err.old err.new) (codes "record ") path.now }
{
    let other = wrong_with(fault, cause, above);
    tell_cause(alloc, err, "record ", path, cause.error, other);
}

/// The line of a record that is damaged from a byte on.
fn damaged_line(alloc: Global, path: &str, at: u64) -> Result<String, AllocError>
    ensures { IfOk result (λ text. string_bytes text ≡ damaged_line path.now at) }
{
    format!(in alloc; "record {path}: it has bytes that no node wrote, from byte {at} on\n")
}

/// Says from which byte on a record is damaged.
pub fn say_where_of_record<E: Write>(alloc: Global, err: &mut Counted<E>, path: &str, at: u64)
    ensures { GivesLine (end_of E.contents err.old err.new) (damaged_line path.now at) }
{
    if let Ok(line) = damaged_line(alloc, path, at) {
        give(err, line.as_str());
    }
}

/// Says why the server halted, if that is more than the line of the fault says.
fn say_cause<E: Write>(
    alloc: Global,
    err: &mut Counted<E>,
    options: &ServeOptions<'_>,
    fault: ServerFault,
    cause: &Cause,
)
    ensures { SaysWhy (end_of E.contents err.old err.new) options.now fault }
{
    match fault {
        ServerFault::BadAddress => {
            let (word, why) = bad_word(options);
            tell(alloc, err, "bad address ", word, why);
        }
        ServerFault::BadFloor(fault) => {
            tell(
                alloc,
                err,
                "bad floor ",
                "--above",
                wrong_with_reaches(fault),
            );
        }
        ServerFault::Record(fault) => {
            let above = !options.above.is_empty();
            say_why_of_record(alloc, err, options.record, fault, cause, above);
        }
        ServerFault::Stopped => tell_cause(
            alloc,
            err,
            "record ",
            options.record,
            cause.error,
            "a write or a sync failed",
        ),
        ServerFault::Socket => {
            let address = address_of(options, cause);
            tell_cause(
                alloc,
                err,
                "address ",
                address,
                cause.error,
                "a call failed",
            );
        }
        _ => {}
    }
}

/// Says after the line of the fault why the server halted, if that was asked for (`--verbose`).
pub fn say_why<E: Write>(
    alloc: Global,
    err: &mut Counted<E>,
    options: &ServeOptions<'_>,
    fault: ServerFault,
    cause: &Cause,
)
    ensures { SaysWhyIf options.now.verbose (end_of E.contents err.old err.new) options.now fault }
{
    if options.verbose {
        say_cause(alloc, err, options, fault, cause);
    }
}
