ghost use Rattle.std.specs.Prelude.{◌≡◌};
ghost use Rattle.mustache_scan.specs.Faults.{label};
ghost use Rattle.mustache_scan.specs.declared.fault.FaultKind.TheVariants.{OutOfMemory};

use std::alloc::{AllocError, AllocFailed};
use thiserror::Error;

/// What is wrong with a template.
#[derive(Clone, Copy, Debug, Drop, PartialEq, Eq, Error)]
pub enum FaultKind {
    #[error("a tag without its end")]
    UnclosedTag,
    #[error("a tag without a name")]
    EmptyName,
    #[error("padding or an empty part in a name")]
    BadName,
    #[error("a delimiter tag that names no two delimiters")]
    BadDelimiters,
    #[error("an end tag without its section")]
    NoSection,
    #[error("an end tag of another section")]
    WrongEnd,
    #[error("a section without its end")]
    UnclosedSection,
    #[error("sections nested too deep")]
    TooDeep,
    #[error("out of memory")]
    OutOfMemory,
}

impl FaultKind {
    /// The number and the name that fault lines print.
    pub fn label(self) -> &'static str
        ensures { result.now ≡ label self }
    {
        match self {
            FaultKind::UnclosedTag => "1 UnclosedTag",
            FaultKind::EmptyName => "2 EmptyName",
            FaultKind::BadName => "3 BadName",
            FaultKind::BadDelimiters => "4 BadDelimiters",
            FaultKind::NoSection => "5 NoSection",
            FaultKind::WrongEnd => "6 WrongEnd",
            FaultKind::UnclosedSection => "7 UnclosedSection",
            FaultKind::TooDeep => "8 TooDeep",
            FaultKind::OutOfMemory => "OutOfMemory",
        }
    }
}

/// A fault, and the byte at which its tag begins. A failed allocation is at place 0.
#[derive(Clone, Copy, Debug, Drop, PartialEq, Eq, Error)]
#[error("{kind} at byte {place}")]
pub struct TemplateFault {
    pub kind: FaultKind,
    pub place: usize,
}

impl From<AllocError> for TemplateFault {
    ghost from_gives = { λ _ f. f ≡ record { kind = OutOfMemory; place = 0 } };

    fn from(_failed: AllocError) -> TemplateFault {
        TemplateFault {
            kind: FaultKind::OutOfMemory,
            place: 0,
        }
    }
}

impl<T: Drop> From<AllocFailed<T>> for TemplateFault {
    ghost from_gives = { λ _ f. f ≡ record { kind = OutOfMemory; place = 0 } };

    fn from(_failed: AllocFailed<T>) -> TemplateFault {
        TemplateFault {
            kind: FaultKind::OutOfMemory,
            place: 0,
        }
    }
}
