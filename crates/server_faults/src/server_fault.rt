//! Why a server ends.

use durable::RecordFault;
use node::NodeFault;
use server_floor::FloorFault;
use std::alloc::AllocError;
use thiserror::Error;

/// Why a server ends before its laps are done.
#[derive(Clone, Copy, Debug, Drop, PartialEq, Eq, Error)]
pub enum ServerFault {
    #[error("bad address")]
    BadAddress,
    #[error("the reaches give no floor")]
    BadFloor(FloorFault),
    #[error("the record was refused: {0}")]
    Record(RecordFault),
    #[error("a socket failed")]
    Socket,
    #[error("out of memory")]
    OutOfMemory,
    /// The record's device failed.
    #[error("stopped")]
    Stopped,
    #[error("rounds used up")]
    RoundsUsedUp,
    #[error("another value is known")]
    Conflict,
    #[error("the writer failed")]
    Write,
}

impl From<AllocError> for ServerFault {
    ghost use Rattle.std.specs.Prelude.{◌≡◌};
    ghost use Rattle.server_faults.specs.declared.server_fault.ServerFault.TheVariants.{OutOfMemory};

    ghost from_gives = { λ _ h. h ≡ OutOfMemory };

    fn from(_refused: AllocError) -> ServerFault {
        ServerFault::OutOfMemory
    }
}

impl From<FloorFault> for ServerFault {
    ghost use Rattle.std.specs.Prelude.{◌≡◌};
    ghost use Rattle.server_faults.specs.ServerFaults.{of_floor};

    ghost from_gives = { λ fault h. h ≡ of_floor fault };

    fn from(fault: FloorFault) -> ServerFault {
        match fault {
            FloorFault::OutOfMemory => ServerFault::OutOfMemory,
            _ => ServerFault::BadFloor(fault),
        }
    }
}

impl From<RecordFault> for ServerFault {
    ghost use Rattle.std.specs.Prelude.{◌≡◌};
    ghost use Rattle.server_faults.specs.ServerFaults.{of_record};

    ghost from_gives = { λ fault h. h ≡ of_record fault };

    fn from(fault: RecordFault) -> ServerFault {
        match fault {
            RecordFault::OutOfMemory => ServerFault::OutOfMemory,
            _ => ServerFault::Record(fault),
        }
    }
}

/// These are the only faults of a node by which a drive ends.
impl From<NodeFault> for ServerFault {
    ghost use Rattle.std.specs.Prelude.{◌≡◌};
    ghost use Rattle.server_faults.specs.ServerFaults.{of_node};

    ghost from_gives = { λ fault h. h ≡ of_node fault };

    fn from(fault: NodeFault) -> ServerFault {
        match fault {
            NodeFault::Device | NodeFault::Stopped => ServerFault::Stopped,
            NodeFault::RoundsUsedUp => ServerFault::RoundsUsedUp,
            NodeFault::Conflict => ServerFault::Conflict,
            _ => ServerFault::OutOfMemory,
        }
    }
}
