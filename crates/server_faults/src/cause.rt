//! What a server knows of its fault, besides the fault itself.

use std::io;

/// Which address could not be bound, and what the system reported of a file or an address, if it reported
/// something. It is filled in as parts are opened, and read if the server says why it halted.
#[derive(Clone, Copy, Drop)]
pub struct Cause {
    /// Whether it is the address for datagrams; if not, it is the address of requests.
    pub datagrams: bool,
    /// Whether another process has the record.
    pub locked: bool,
    pub error: Option<io::Error>,
}

impl Cause {
    /// Nothing is known.
    pub fn none() -> Cause {
        Cause {
            datagrams: false,
            locked: false,
            error: None,
        }
    }
}
