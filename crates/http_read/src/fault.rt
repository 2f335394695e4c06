//! Why no request could be read.
use std::alloc::AllocError;
use thiserror::Error;

/// Why no request could be read.
#[derive(Clone, Copy, Debug, Drop, PartialEq, Eq, Error)]
pub enum ReadFault {
    /// A call of the reader failed.
    #[error("the reader failed")]
    Read,
    #[error("out of memory")]
    OutOfMemory,
    /// The input ended before the request did.
    #[error("the input ended within the request")]
    EndedEarly,
}

impl From<AllocError> for ReadFault {
    ghost use Rattle.std.specs.Prelude.{◌≡◌};
    ghost use Rattle.http_read.specs.declared.fault.ReadFault.TheVariants.{OutOfMemory};

    ghost from_gives = { λ _ e. e ≡ OutOfMemory };

    fn from(_refused: AllocError) -> ReadFault {
        ReadFault::OutOfMemory
    }
}
