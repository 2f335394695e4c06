//! Why a connection was given up.
use http_read::ReadFault;
use std::alloc::AllocError;
use thiserror::Error;

/// Why a connection was given up. The responses to its earlier requests were written whole. What follows is
/// about the next request.
#[derive(Clone, Copy, Debug, Drop, PartialEq, Eq, Error)]
pub enum ServeFault {
    /// Number 1: a call of the reader failed. Nothing was written.
    #[error("the reader failed")]
    Read,
    /// Number 2: a call of the writer failed. A beginning of the response was written, and a submission stays
    /// taken.
    #[error("the writer failed")]
    Write,
    /// Number 3: nothing was written, and no submission was taken.
    #[error("out of memory")]
    OutOfMemory,
    /// Number 4: the input ended before the request did, or before it began. Nothing was written.
    #[error("the input ended within the request")]
    EndedEarly,
}

impl From<AllocError> for ServeFault {
    ghost use Rattle.std.specs.Prelude.{◌≡◌};
    ghost use Rattle.http_serve.specs.declared.fault.ServeFault.TheVariants.{OutOfMemory};

    ghost from_gives = { λ _ e. e ≡ OutOfMemory };

    fn from(_refused: AllocError) -> ServeFault {
        ServeFault::OutOfMemory
    }
}

impl From<ReadFault> for ServeFault {
    ghost use Rattle.std.specs.Prelude.{◌≡◌};
    ghost use Rattle.http_serve.specs.Faults.{of_reading};

    ghost from_gives = { λ fault e. e ≡ of_reading fault };

    fn from(fault: ReadFault) -> ServeFault {
        match fault {
            ReadFault::Read => ServeFault::Read,
            ReadFault::OutOfMemory => ServeFault::OutOfMemory,
            ReadFault::EndedEarly => ServeFault::EndedEarly,
        }
    }
}
