//! How far the record of a node reaches, as its operator reports it.

ghost use Rattle.std.specs.Prelude.{◌≢◌, ◌≡◌, MatchOption};
ghost use Rattle.server_floor.specs.Told.{Fits, spelled};
ghost use Rattle.server_floor.specs.declared.told.Told.{Told as AnyTold};

use engine_common::{cut, read_node, read_number};
use site_ids::NodeId;

/// The node, and how far its record reaches: what `reach` of a record gives.
#[derive(Clone, Copy, Debug, Drop, PartialEq, Eq)]
pub struct Told {
    pub node: NodeId,
    pub reach: u64,
}

/// Reads a word such as `2:57`, which says that the record of node 2 reaches to instance 57.
pub fn told_in(word: &str) -> Option<Told>
    ensures { MatchOption result ((t : AnyTold) → Fits t → word.now ≢ spelled t) (λ t. Fits t
        × (word.now ≡ spelled t)) }
{
    let (node, reach) = cut(word.as_bytes(), b':')?;
    let node = read_node(node)?;
    let reach = read_number(reach)?;
    Some(Told { node, reach })
}
