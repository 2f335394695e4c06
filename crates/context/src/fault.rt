ghost use Rattle.std.specs.Prelude.{◌≡◌};
ghost use Rattle.context.specs.Faults.{label};

use std::alloc::{AllocError, AllocFailed};
use thiserror::Error;

/// Why a text is not data.
#[derive(Clone, Copy, Debug, Drop, PartialEq, Eq, Error)]
pub enum DataFault {
    #[error("the text is no JSON")]
    NotJson,
    #[error("a number is not whole")]
    NotWhole,
    #[error("out of memory")]
    OutOfMemory,
}

impl DataFault {
    /// The fault's number and name, as fault lines print them.
    pub fn label(self) -> &'static str
        ensures { result.now ≡ label self }
    {
        match self {
            DataFault::NotJson => "1 NotJson",
            DataFault::NotWhole => "2 NotWhole",
            DataFault::OutOfMemory => "OutOfMemory",
        }
    }
}

impl From<AllocError> for DataFault {
    ghost use Rattle.std.specs.Prelude.{◌≡◌};
    ghost use Rattle.context.specs.declared.fault.DataFault.TheVariants.{OutOfMemory};

    ghost from_gives = { λ _ e. e ≡ OutOfMemory };

    fn from(_refused: AllocError) -> DataFault {
        DataFault::OutOfMemory
    }
}

impl<T: Drop> From<AllocFailed<T>> for DataFault {
    ghost use Rattle.std.specs.Prelude.{◌≡◌};
    ghost use Rattle.context.specs.declared.fault.DataFault.TheVariants.{OutOfMemory};

    ghost from_gives = { λ _ e. e ≡ OutOfMemory };

    fn from(_refused: AllocFailed<T>) -> DataFault {
        DataFault::OutOfMemory
    }
}
