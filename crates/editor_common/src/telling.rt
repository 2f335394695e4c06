ghost use Rattle.std.specs.Prelude.{◌≡◌, ◌++◌, ◌∷◌, [], OnOk, IfErr};
ghost use Rattle.editor_common.specs.Lines.{WritesLine};
ghost use Rattle.std.specs.Io.KnownBytes.{Appends};

use crate::talk_fault::TalkFault;
use std::alloc::AllocError;
use std::io::Write;

/// Writes a line.
pub fn say<W: Write>(out: &mut W, line: &str) -> Result<(), TalkFault>
    ensures written { OnOk result (Appends (W.contents out.old) (W.contents out.new) (line.now ++ 10 ∷ [])) }
    ensures fault { IfErr result (λ fault. fault ≡ TalkFault.Write) }
{
    match writeln!(out, "{line}") {
        Ok(()) => Ok(()),
        Err(_) => Err(TalkFault::Write),
    }
}

/// Writes a line, if it could be allocated.
pub fn say_made<W: Write>(out: &mut W, line: Result<String, AllocError>) -> Result<(), TalkFault>
    ensures written { OnOk result (WritesLine (W.contents out.old) (W.contents out.new)) }
{
    say(out, line?.as_str())
}
