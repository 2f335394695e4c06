//! What came of one reading or writing on a connection.
ghost use Rattle.std.specs.Prelude.{◌≡◌, ◌⊎◌, ◌↔◌, true};
ghost use Rattle.std.specs.IoError.{error_kind};

use std::io;
use std::io::ErrorKind;

/// What came of one reading.
#[derive(Clone, Copy, Debug, Drop, PartialEq, Eq)]
pub enum ReadOutcome {
    /// Bytes came.
    Came,
    /// None is there yet: it can be read again.
    Nothing,
    /// The client sends no more.
    Ended,
    /// The reader failed.
    Failed,
}

/// What came of one writing.
#[derive(Clone, Copy, Debug, Drop, PartialEq, Eq)]
pub enum WriteOutcome {
    /// A byte or more was written.
    Written,
    /// The writer accepts no byte yet. It can be written to again.
    Nothing,
    /// The writer failed, or took no byte.
    Failed,
}

/// Whether a call that failed only came too early, or was interrupted: it can be made again.
pub fn is_early(e: &io::Error) -> bool
    ensures { result ≡ true ↔ (error_kind e.now ≡ ErrorKind.WouldBlock
        ⊎ error_kind e.now ≡ ErrorKind.Interrupted) }
{
    matches!(e.kind(), ErrorKind::WouldBlock | ErrorKind::Interrupted)
}
