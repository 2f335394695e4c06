use engine_common::InputFault;
use std::alloc::AllocError;
use thiserror::Error;

/// Why no answer was read.
#[derive(Clone, Copy, Debug, Drop, PartialEq, Eq, Error)]
pub enum NodeAnswerFault {
    #[error("the connection failed")]
    Read,
    /// The connection ended before a whole answer.
    #[error("the connection ended")]
    Ended,
    /// What came is not an answer of a node: not a response, one of more than 32 field lines, or one without
    /// a length or with one that is too large.
    #[error("what came is no answer of a node")]
    NoAnswer,
    #[error("out of memory")]
    OutOfMemory,
}

impl From<AllocError> for NodeAnswerFault {
    ghost use Rattle.std.specs.Prelude.{◌≡◌};
    ghost use Rattle.editor_http.specs.declared.fault.NodeAnswerFault.TheVariants.{OutOfMemory};

    ghost from_gives = { λ _ e. e ≡ OutOfMemory };

    fn from(_refused: AllocError) -> NodeAnswerFault {
        NodeAnswerFault::OutOfMemory
    }
}

impl From<InputFault> for NodeAnswerFault {
    ghost use Rattle.std.specs.Prelude.{◌≡◌};
    ghost use Rattle.editor_http.specs.Faults.{fault_of};

    ghost from_gives = { λ fault e. e ≡ fault_of fault };

    fn from(fault: InputFault) -> NodeAnswerFault {
        match fault {
            InputFault::Read => NodeAnswerFault::Read,
            InputFault::OutOfMemory => NodeAnswerFault::OutOfMemory,
        }
    }
}
