//! Whether a text is a command.
ghost use Rattle.std.specs.Prelude.{◌≡◌, ◌≢◌, IfOk, MatchOption, string_bytes};
ghost use Rattle.command.specs.Written.{line_of, HasLine};
ghost use Rattle.editor_command.specs.Texts.{IsCommandText, IsRefused};

use command::{CommandFault, fault_line, read, write};
use site_ids::Ticket;
use std::alloc::{AllocError, Global};

/// A command text is judged under this ticket.
const NOBODYS: Ticket = Ticket {
    editor: 0,
    number: 0,
};

/// Why a text is not a command: its fault, and the fault's line.
#[derive(Drop)]
pub struct Refusal {
    pub fault: CommandFault,
    pub line: String,
}

/// A fault with its line. A failed allocation has no line.
fn refusal_of(alloc: Global, fault: CommandFault) -> Result<Refusal, AllocError>
    requires { fault ≢ CommandFault.OutOfMemory → HasLine fault }
    ensures { IfOk result (λ r. (fault ≢ CommandFault.OutOfMemory) × (r.fault ≡ fault)
        × (string_bytes r.line ≡ line_of fault)) }
{
    match fault {
        CommandFault::OutOfMemory => Err(AllocError),
        _ => {
            let line = fault_line(alloc, &fault)?;
            Ok(Refusal { fault, line })
        }
    }
}

/// Why the text is not a command; `None` if it is one.
pub fn refused(alloc: Global, text: &[u8]) -> Result<Option<Refusal>, AllocError>
    ensures { IfOk result (λ o. MatchOption o (IsCommandText text.now) (λ r. IsRefused text.now r)) }
{
    let value = write(alloc, NOBODYS, text)?;
    match read(alloc, &value) {
        Ok(command) => {
            drop(command);
            Ok(None)
        }
        Err(fault) => Ok(Some(refusal_of(alloc, fault)?)),
    }
}
