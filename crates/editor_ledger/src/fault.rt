use std::alloc::{AllocError, AllocFailed};
use thiserror::Error;

/// Why nothing was planned.
#[derive(Clone, Copy, Debug, Drop, PartialEq, Eq, Error)]
pub enum LedgerFault {
    #[error("the numbers of the commands of this editor are used up: publish as another editor")]
    NoTickets,
    #[error("out of memory")]
    OutOfMemory,
}

impl From<AllocError> for LedgerFault {
    ghost use Rattle.std.specs.Prelude.{◌≡◌};
    ghost use Rattle.editor_ledger.specs.declared.fault.LedgerFault.TheVariants.{OutOfMemory};

    ghost from_gives = { λ _ e. e ≡ OutOfMemory };

    fn from(_refused: AllocError) -> LedgerFault {
        LedgerFault::OutOfMemory
    }
}

impl<T: Drop> From<AllocFailed<T>> for LedgerFault {
    ghost use Rattle.std.specs.Prelude.{◌≡◌};
    ghost use Rattle.editor_ledger.specs.declared.fault.LedgerFault.TheVariants.{OutOfMemory};

    ghost from_gives = { λ _ e. e ≡ OutOfMemory };

    fn from(_refused: AllocFailed<T>) -> LedgerFault {
        LedgerFault::OutOfMemory
    }
}

/// Why a text is not a ledger.
#[derive(Clone, Copy, Debug, Drop, PartialEq, Eq, Error)]
pub enum LedgerReadFault {
    /// The line of that number, from 1, is the first that no ledger has. A text that was cut short lacks it.
    #[error("line {0} is not what sitepub wrote, or is missing: restore the file from a copy. Or move it \
        away (log, restore and publish --release need it), and publish with --take-over")]
    Line(usize),
    /// Each line is one of a ledger, but the sum in the last line is another one's.
    #[error("this is not what sitepub wrote, as the sum in its last line shows: restore the file from a \
        copy. Or move it away (log, restore and publish --release need it), and publish with --take-over")]
    Sum,
    #[error("out of memory")]
    OutOfMemory,
}

impl From<AllocError> for LedgerReadFault {
    ghost use Rattle.std.specs.Prelude.{◌≡◌};
    ghost use Rattle.editor_ledger.specs.declared.fault.LedgerReadFault.TheVariants.{OutOfMemory};

    ghost from_gives = { λ _ e. e ≡ OutOfMemory };

    fn from(_refused: AllocError) -> LedgerReadFault {
        LedgerReadFault::OutOfMemory
    }
}

impl<T: Drop> From<AllocFailed<T>> for LedgerReadFault {
    ghost use Rattle.std.specs.Prelude.{◌≡◌};
    ghost use Rattle.editor_ledger.specs.declared.fault.LedgerReadFault.TheVariants.{OutOfMemory};

    ghost from_gives = { λ _ e. e ≡ OutOfMemory };

    fn from(_refused: AllocFailed<T>) -> LedgerReadFault {
        LedgerReadFault::OutOfMemory
    }
}
