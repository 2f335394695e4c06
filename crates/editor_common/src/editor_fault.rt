use editor_ledger::LedgerFault;
use std::alloc::{AllocError, AllocFailed, Global};
use std::io;
use thiserror::Error;

/// Why a word failed.
#[derive(Debug, Drop, Error)]
pub enum EditorFault {
    /// A file or a folder, and what the system says of it.
    #[error("{0}: {1}")]
    File(String, io::Error),
    #[error("more than 10,000 folders: a link may lead back")]
    ManyFolders,
    #[error("standard output could not be written")]
    Write,
    /// Why a group or a ledger stops a word, and what to do.
    #[error("{0}")]
    Stop(String),
    /// The folder that has no release.
    #[error("{0}: nothing was published from here")]
    Unpublished(String),
    #[error("the numbers of the commands of this editor are used up: move the file published away (log, \
        restore and publish --release need it), and publish with --take-over")]
    NoTickets,
    #[error("no node is named: give the address of one, as http://127.0.0.1:8001")]
    NoNodes,
    #[error("the clock can't be read")]
    Clock,
    #[error("the system gives no random bytes")]
    Random,
    #[error("out of memory")]
    OutOfMemory,
}

impl From<AllocError> for EditorFault {
    ghost use Rattle.std.specs.Prelude.{◌≡◌};
    ghost use Rattle.editor_common.specs.declared.editor_fault.EditorFault.TheVariants.{OutOfMemory};

    ghost from_gives = { λ _ e. e ≡ OutOfMemory };

    fn from(_refused: AllocError) -> EditorFault {
        EditorFault::OutOfMemory
    }
}

impl<T: Drop> From<AllocFailed<T>> for EditorFault {
    ghost use Rattle.std.specs.Prelude.{◌≡◌};
    ghost use Rattle.editor_common.specs.declared.editor_fault.EditorFault.TheVariants.{OutOfMemory};

    ghost from_gives = { λ _ e. e ≡ OutOfMemory };

    fn from(_refused: AllocFailed<T>) -> EditorFault {
        EditorFault::OutOfMemory
    }
}

impl From<LedgerFault> for EditorFault {
    fn from(fault: LedgerFault) -> EditorFault {
        match fault {
            LedgerFault::NoTickets => EditorFault::NoTickets,
            LedgerFault::OutOfMemory => EditorFault::OutOfMemory,
        }
    }
}

impl EditorFault {
    ghost use Rattle.editor_common.specs.Faults.{IsAtPath};

    /// The fault of a file or a folder: what the system says of it.
    pub fn at_path(alloc: Global, path: &str, fault: io::Error) -> EditorFault
        ensures { IsAtPath path.now result }
    {
        if fault.kind() == io::ErrorKind::OutOfMemory {
            return EditorFault::OutOfMemory;
        }
        match String::from_str(alloc, path) {
            Ok(path) => EditorFault::File(path, fault),
            Err(_) => EditorFault::OutOfMemory,
        }
    }
}
