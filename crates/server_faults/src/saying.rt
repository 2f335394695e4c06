//! The line of a fault.

ghost use Rattle.std.specs.Prelude.{◌≡◌, List, ℕ, ◌++◌, IfOk, codes, string_bytes};
ghost use Rattle.durable.specs.Faults.{label};
ghost use Rattle.http_read.specs.Bytes.{end_of, IsGiven};
ghost use Rattle.server_faults.specs.ServerFaults.{IsSaid};

use crate::ServerFault;
use durable::RecordFault;
use engine_common::say as say_line;
use http_read::Counted;
use std::alloc::{AllocError, Global};
use std::io::Write;

/// The line of a record's fault.
fn record_line(alloc: Global, fault: RecordFault) -> Result<String, AllocError>
    ensures { IfOk result (λ text. string_bytes text ≡ codes "record: " ++ (label fault ++ codes "\n")) }
{
    let label = fault.label();
    format!(in alloc; "record: {label}\n")
}

/// Writes the line of a fault, or that an allocation failed for it, and returns status 1.
pub fn say<E: Write>(alloc: Global, err: &mut Counted<E>, fault: ServerFault) -> u8
    ensures status { result ≡ 1 }
    ensures said { (said : List ℕ) × IsSaid fault said × IsGiven (end_of E.contents err.old err.new) said }
{
    match fault {
        ServerFault::BadAddress => say_line(err, "bad address\n"),
        ServerFault::BadFloor(_) => say_line(err, "bad floor\n"),
        ServerFault::Record(fault) => match record_line(alloc, fault) {
            Ok(line) => say_line(err, line.as_str()),
            Err(_) => say_line(err, "out of memory\n"),
        },
        ServerFault::Socket => say_line(err, "socket failed\n"),
        ServerFault::OutOfMemory => say_line(err, "out of memory\n"),
        ServerFault::Stopped => say_line(err, "stopped\n"),
        ServerFault::RoundsUsedUp => say_line(err, "node: 7 RoundsUsedUp\n"),
        ServerFault::Conflict => say_line(err, "node: 8 Conflict\n"),
        ServerFault::Write => say_line(err, "write failed\n"),
    }
}
