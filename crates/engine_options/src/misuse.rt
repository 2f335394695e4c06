//! Command lines that give a program nothing to do.
//!
//! Words that are not text are reported by clap's line for them. This port of clap never meets such words.

ghost use Rattle.std.specs.Prelude.{ℕ, List, ◌≡◌};
ghost use Rattle.http_read.specs.Bytes.{end_of, IsGiven};
ghost use Rattle.engine_options.specs.Misuses.{IsTold};

use clap::Error;
use clap::error::ErrorKind;
use http_read::{Counted, write_all};
use std::alloc::{AllocError, Global};
use std::env;
use std::io::{self, Write};
use std::rt::HostRuntime;

/// Why a command line gives a program nothing to do.
#[derive(Drop)]
pub enum Misuse {
    NotUtf8,
    OutOfMemory,
    /// What clap reports. Help is reported in the same way.
    Refused(Error),
}

impl From<AllocError> for Misuse {
    fn from(_refused: AllocError) -> Misuse {
        Misuse::OutOfMemory
    }
}

impl From<io::Error> for Misuse {
    fn from(fault: io::Error) -> Misuse {
        match fault.kind() {
            io::ErrorKind::OutOfMemory => Misuse::OutOfMemory,
            _ => Misuse::NotUtf8,
        }
    }
}

impl From<Error> for Misuse {
    fn from(refused: Error) -> Misuse {
        match refused.kind() {
            ErrorKind::OutOfMemory => Misuse::OutOfMemory,
            _ => Misuse::Refused(refused),
        }
    }
}

/// The words of the command line, the program's name first.
pub fn command_line(rt: &HostRuntime) -> Result<Vec<String>, Misuse> {
    Ok(env::args(rt)?.collect(rt.alloc())?)
}

/// Writes a text, and returns the status.
fn tell<E: Write>(err: &mut Counted<E>, text: &str, status: u8) -> u8
    ensures status { result ≡ status }
    ensures said { IsGiven (end_of E.contents err.old err.new) text.now }
{
    let _ = write_all(err, text.as_bytes());
    status
}

/// Writes the reason on the other writer, and returns the exit status: 2, or 1 if an allocation fails.
pub fn refuse<E: Write>(alloc: Global, err: &mut Counted<E>, why: &Misuse) -> u8
    ensures { (said : List ℕ) × IsTold why.now said result
        × IsGiven (end_of E.contents err.old err.new) said }
{
    match why {
        Misuse::NotUtf8 => tell(
            err,
            "error: invalid UTF-8 was detected in one or more arguments\n",
            2,
        ),
        Misuse::OutOfMemory => tell(err, "out of memory\n", 1),
        Misuse::Refused(refused) => match format!(in alloc; "{refused}") {
            Ok(text) => tell(err, text.as_str(), 2),
            Err(_) => tell(err, "out of memory\n", 1),
        },
    }
}
