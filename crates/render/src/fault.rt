use std::alloc::AllocError;
use thiserror::Error;

/// Why a page was not rendered.
#[derive(Clone, Copy, Debug, Drop, PartialEq, Eq, Error)]
pub enum RenderFault {
    #[error("the page is over limit")]
    OverLimit,
    #[error("out of memory")]
    OutOfMemory,
}

impl From<AllocError> for RenderFault {
    ghost use Rattle.std.specs.Prelude.{◌≡◌};
    ghost use Rattle.render.specs.declared.fault.RenderFault.TheVariants.{OutOfMemory};

    ghost from_gives = { λ _ e. e ≡ OutOfMemory };

    fn from(_refused: AllocError) -> RenderFault {
        RenderFault::OutOfMemory
    }
}
