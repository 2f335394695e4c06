//! What `--version` prints.
ghost use Rattle.std.specs.Prelude.{◌≡◌, ◌↔◌, ◌⊎◌, IfOk, OnErr, IsTrue};
ghost use Rattle.http_read.specs.Bytes.{end_of, IsWritten, IsBroken, IsSilent};
ghost use Rattle.engine_options.specs.Options.{words_of};
ghost use Rattle.engine_options.specs.Versions.{AskVersion, version_line};

use http_read::{Counted, write_all};
use std::alloc::{AllocError, Global};
use std::io::Write;

/// Whether the words are a program's name and `--version`, and nothing else.
pub fn asks_version(words: &[String]) -> bool
    ensures { IsTrue result ↔ AskVersion (words_of words.entry.now) }
{
    match words {
        [_, word] => word.as_str() == "--version",
        _ => false,
    }
}

/// Writes a program's name and its version, the newest heading of `docs/CHANGES.md`, and returns the exit
/// status: 1 if the writer fails.
pub fn tell_version<W: Write>(
    alloc: Global,
    out: &mut Counted<W>,
    name: &str,
) -> Result<u8, AllocError>
    ensures told { IfOk result (λ status. ((status ≡ 0)
        × IsWritten (end_of W.contents out.old out.new) (version_line name.now))
        ⊎ ((status ≡ 1) × IsBroken (end_of W.contents out.old out.new) (version_line name.now))) }
    ensures err { OnErr result (IsSilent (end_of W.contents out.old out.new)) }
{
    let line = format!(in alloc; "{name} 1.0\n")?;
    match write_all(out, line.as_bytes()) {
        Ok(()) => Ok(0),
        Err(_) => Ok(1),
    }
}
