ghost use Rattle.std.specs.Prelude.{◌≡◌};
ghost use Rattle.durable.specs.Faults.{label};

use site_disk::DiskFailed;
use std::alloc::AllocError;
use thiserror::Error;

/// Why a record was not made, read or written.
#[derive(Clone, Copy, Debug, Drop, PartialEq, Eq, Error)]
pub enum RecordFault {
    #[error("the device failed")]
    Device,
    #[error("out of memory")]
    OutOfMemory,
    #[error("the file is no record")]
    NotARecord,
    #[error("the record is of another node or cluster")]
    WrongNode,
    #[error("the record is full")]
    Full,
    #[error("the record is damaged")]
    Damaged,
    /// A device failed, and the record was not opened again since.
    #[error("the record has stopped")]
    Stopped,
}

impl RecordFault {
    /// The fault's number and name, as programs print them.
    pub fn label(&self) -> &'static str
        ensures { result.now ≡ label self.now }
    {
        match self {
            RecordFault::Device => "1 Device",
            RecordFault::OutOfMemory => "2 OutOfMemory",
            RecordFault::NotARecord => "3 NotARecord",
            RecordFault::WrongNode => "4 WrongNode",
            RecordFault::Full => "5 Full",
            RecordFault::Damaged => "6 Damaged",
            RecordFault::Stopped => "7 Stopped",
        }
    }
}

impl From<AllocError> for RecordFault {
    ghost use Rattle.std.specs.Prelude.{◌≡◌};
    ghost use Rattle.durable.specs.declared.fault.RecordFault.TheVariants.{OutOfMemory};

    ghost from_gives = { λ _ e. e ≡ OutOfMemory };

    fn from(_refused: AllocError) -> RecordFault {
        RecordFault::OutOfMemory
    }
}

impl From<DiskFailed> for RecordFault {
    ghost use Rattle.std.specs.Prelude.{◌≡◌};
    ghost use Rattle.durable.specs.declared.fault.RecordFault.TheVariants.{Device};

    ghost from_gives = { λ _ e. e ≡ Device };

    fn from(_failed: DiskFailed) -> RecordFault {
        RecordFault::Device
    }
}
