//! Why reaches give no floor.

use std::alloc::AllocError;

/// Why reaches give no floor: the first of these that applies.
#[derive(Clone, Copy, Debug, Drop, PartialEq, Eq)]
pub enum FloorFault {
    OutOfMemory,
    /// A word is not a node and its reach.
    NotTold,
    /// A node is not one of the group, or is the one in whose place the record is made.
    NotAnother,
    /// A node was asked twice.
    Twice,
    /// Those asked are not a majority of the group.
    TooFew,
    /// No instance is 64 above the furthest reach.
    TooFar,
}

impl From<AllocError> for FloorFault {
    ghost use Rattle.std.specs.Prelude.{◌≡◌};
    ghost use Rattle.server_floor.specs.declared.fault.FloorFault.TheVariants.{OutOfMemory};

    ghost from_gives = { λ _ e. e ≡ OutOfMemory };

    fn from(_refused: AllocError) -> FloorFault {
        FloorFault::OutOfMemory
    }
}
