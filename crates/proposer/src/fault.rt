use std::alloc::AllocError;
use thiserror::Error;

/// Why a proposer returned no ballot, or did not count a promise.
#[derive(Clone, Copy, Debug, Drop, PartialEq, Eq, Error)]
pub enum ProposerFault {
    #[error("out of memory")]
    OutOfMemory,
    #[error("rounds used up")]
    RoundsUsedUp,
}

impl From<AllocError> for ProposerFault {
    ghost use Rattle.std.specs.Prelude.{◌≡◌};
    ghost use Rattle.proposer.specs.declared.fault.ProposerFault.TheVariants.{OutOfMemory};

    ghost from_gives = { λ _ e. e ≡ OutOfMemory };

    fn from(_refused: AllocError) -> ProposerFault {
        ProposerFault::OutOfMemory
    }
}
