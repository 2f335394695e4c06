//! What comes of a submission.
use command::CommandFault;
use std::alloc::AllocError;
use thiserror::Error;

/// What a submission that is taken is answered.
#[derive(Clone, Copy, Debug, Drop, PartialEq, Eq)]
pub enum Submission {
    /// It waits to be proposed.
    Queued,
    /// One with its ticket waits or is known.
    Already,
}

/// Why a submission is refused.
#[derive(Clone, Copy, Debug, Drop, PartialEq, Eq, Error)]
pub enum SubmitFault {
    /// The text is not a command. The fault is not a failed allocation.
    #[error("no command: {0}")]
    Command(CommandFault),
    /// No more can wait.
    #[error("busy")]
    Busy,
    /// The service accepts no further submissions.
    #[error("stopped")]
    Stopped,
    #[error("out of memory")]
    OutOfMemory,
}

impl From<AllocError> for SubmitFault {
    ghost use Rattle.std.specs.Prelude.{◌≡◌};
    ghost use Rattle.http_serve.specs.declared.submission.SubmitFault.TheVariants.{OutOfMemory};

    ghost from_gives = { λ _ e. e ≡ OutOfMemory };

    fn from(_refused: AllocError) -> SubmitFault {
        SubmitFault::OutOfMemory
    }
}
