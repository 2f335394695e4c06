//! Why a script's servers stop.

use durable::RecordFault;
use engine_common::InputFault;
use node::NodeFault;
use std::alloc::AllocError;
use std::io;
use std::io::ErrorKind;
use thiserror::Error;

/// Why a script's servers stop.
#[derive(Clone, Copy, Debug, Drop, PartialEq, Eq, Error)]
pub(crate) enum LoopbackFault {
    /// A call of a socket failed, or its peer gave no whole response.
    #[error("socket failed")]
    Socket,
    /// An allocation failed, possibly in a disk in memory.
    #[error("out of memory")]
    OutOfMemory,
}

impl From<AllocError> for LoopbackFault {
    ghost use Rattle.std.specs.Prelude.{◌≡◌};
    ghost use Rattle.engine_script.specs.declared.loopback_fault.LoopbackFault.TheVariants.{OutOfMemory};

    ghost from_gives = { λ _ e. e ≡ OutOfMemory };

    fn from(_refused: AllocError) -> LoopbackFault {
        LoopbackFault::OutOfMemory
    }
}

impl From<io::Error> for LoopbackFault {
    fn from(e: io::Error) -> LoopbackFault {
        match e.kind() {
            ErrorKind::OutOfMemory => LoopbackFault::OutOfMemory,
            _ => LoopbackFault::Socket,
        }
    }
}

impl From<InputFault> for LoopbackFault {
    fn from(fault: InputFault) -> LoopbackFault {
        match fault {
            InputFault::Read => LoopbackFault::Socket,
            InputFault::OutOfMemory => LoopbackFault::OutOfMemory,
        }
    }
}

impl From<RecordFault> for LoopbackFault {
    fn from(_fault: RecordFault) -> LoopbackFault {
        LoopbackFault::OutOfMemory
    }
}

impl From<NodeFault> for LoopbackFault {
    ghost use Rattle.std.specs.Prelude.{◌≡◌};
    ghost use Rattle.engine_script.specs.declared.loopback_fault.LoopbackFault.TheVariants.{OutOfMemory};

    ghost from_gives = { λ _ e. e ≡ OutOfMemory };

    fn from(_fault: NodeFault) -> LoopbackFault {
        LoopbackFault::OutOfMemory
    }
}
