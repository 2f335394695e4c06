use site_ids::Value;
use thiserror::Error;

/// Why a value was not learned. It is handed back.
#[derive(Debug, Drop, Error)]
pub enum LearnFault {
    #[error("out of memory")]
    OutOfMemory(Value),
    /// Another value is known at the instance.
    #[error("another value is known")]
    Conflict(Value),
}
