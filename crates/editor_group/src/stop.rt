//! A run that stops, and why.

ghost use Rattle.editor_common.specs.Faults.{IsStopOrMemory};

use editor_common::EditorFault;
use std::alloc::AllocError;

/// A fault with these words; the fault of the allocation if they could not be made.
pub(crate) fn stop(words: Result<String, AllocError>) -> EditorFault
    ensures { IsStopOrMemory result }
{
    match words {
        Ok(words) => EditorFault::Stop(words),
        Err(refused) => EditorFault::from(refused),
    }
}
