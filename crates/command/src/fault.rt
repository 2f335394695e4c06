ghost use Rattle.std.specs.Prelude.{◌≡◌, IfOk, string_bytes};
ghost use Rattle.command.specs.Written.{line_of, HasLine};

use context::DataFault;
use mustache_parse::TemplateFault;
use std::alloc::{AllocError, Global};
use thiserror::Error;

/// Why bytes are not a command, in the order in which faults are reported.
#[derive(Clone, Copy, Debug, Drop, PartialEq, Eq, Error)]
pub enum CommandFault {
    #[error("the value is too long")]
    TooLong,
    #[error("the value has the form of no command")]
    Form,
    #[error("a name is invalid")]
    Name,
    #[error("the path is invalid")]
    Path,
    #[error("the template has a fault: {0}")]
    Template(TemplateFault),
    #[error("the data have a fault: {0}")]
    Data(DataFault),
    #[error("out of memory")]
    OutOfMemory,
}

impl From<AllocError> for CommandFault {
    ghost use Rattle.std.specs.Prelude.{◌≡◌};
    ghost use Rattle.command.specs.declared.fault.CommandFault.TheVariants.{OutOfMemory};

    ghost from_gives = { λ _ e. e ≡ OutOfMemory };

    fn from(_refused: AllocError) -> CommandFault {
        CommandFault::OutOfMemory
    }
}

/// The line of a fault, without a newline.
pub fn fault_line(alloc: Global, fault: &CommandFault) -> Result<String, AllocError>
    requires { HasLine fault.now }
    ensures { IfOk result (λ line. string_bytes line ≡ line_of fault.now) }
{
    match fault {
        CommandFault::TooLong => String::from_str(alloc, "1 TooLong"),
        CommandFault::Form => String::from_str(alloc, "2 Form"),
        CommandFault::Name => String::from_str(alloc, "3 Name"),
        CommandFault::Path => String::from_str(alloc, "4 Path"),
        CommandFault::Template(fault) => {
            let label = fault.kind.label();
            let place = fault.place;
            format!(in alloc; "5 Template {label} at {place}")
        }
        CommandFault::Data(fault) => {
            let label = fault.label();
            format!(in alloc; "6 Data {label}")
        }
        CommandFault::OutOfMemory => unreachable!(),
    }
}
