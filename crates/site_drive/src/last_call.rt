//! The call after the turns is an argument, so one definition is enough for the six calls. Batches use it
//! too.

use site_ids::{Instance, NodeId};

/// What is called after the last turn.
#[derive(Clone, Copy, Debug, PartialEq, Eq, Drop)]
pub enum LastCall {
    /// A tick and then widenings if a tick is wanted, and a question if not.
    TickOrAsk,
    /// Widenings: as many attempts begin as there are room and values for.
    Widen,
    /// A question, whether a tick is wanted or not.
    Ask,
    /// The node sends another one again what it knows and what it voted for, from an instance on.
    Tell { to: NodeId, first: Instance },
    /// What is known at `count` instances from the first one on is put on record as learned, if the record
    /// lacks it.
    Keep { first: Instance, count: u32 },
    /// No call.
    Nothing,
}
