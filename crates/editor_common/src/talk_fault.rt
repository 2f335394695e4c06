//! Why a talk with a group failed.
ghost use Rattle.std.specs.Prelude.{◌≡◌};

use crate::editor_fault::EditorFault;
use std::alloc::{AllocError, AllocFailed};

/// Why a talk with a group failed, or the writing of what the group says.
#[derive(Clone, Copy, Debug, Drop, PartialEq, Eq)]
pub enum TalkFault {
    /// A line could not be written.
    Write,
    /// The clock can't be read.
    Clock,
    OutOfMemory,
}

impl From<AllocError> for TalkFault {
    ghost use Rattle.std.specs.Prelude.{◌≡◌};
    ghost use Rattle.editor_common.specs.declared.talk_fault.TalkFault.TheVariants.{OutOfMemory};

    ghost from_gives = { λ _ e. e ≡ OutOfMemory };

    fn from(_refused: AllocError) -> TalkFault {
        TalkFault::OutOfMemory
    }
}

impl<T: Drop> From<AllocFailed<T>> for TalkFault {
    ghost use Rattle.std.specs.Prelude.{◌≡◌};
    ghost use Rattle.editor_common.specs.declared.talk_fault.TalkFault.TheVariants.{OutOfMemory};

    ghost from_gives = { λ _ e. e ≡ OutOfMemory };

    fn from(_refused: AllocFailed<T>) -> TalkFault {
        TalkFault::OutOfMemory
    }
}

impl From<TalkFault> for EditorFault {
    ghost use Rattle.std.specs.Prelude.{◌≡◌};
    ghost use Rattle.editor_common.specs.Faults.{of_talk};

    ghost from_gives = { λ fault e. e ≡ of_talk fault };

    fn from(fault: TalkFault) -> EditorFault {
        match fault {
            TalkFault::Write => EditorFault::Write,
            TalkFault::Clock => EditorFault::Clock,
            TalkFault::OutOfMemory => EditorFault::OutOfMemory,
        }
    }
}
