//! What an empty or absent file of a record becomes.

ghost use Rattle.std.specs.Prelude.{◌≡◌, IfOk, IfErr, length};
ghost use Rattle.server.specs.Making.{Makes, MakesNone};

use server_faults::{ServeOptions, ServerFault};
use server_floor::read_floor;
use site_ids::{Cluster, Instance, NodeId};
use std::alloc::Global;

/// What an empty or absent file becomes before it is opened.
#[derive(Clone, Copy, Drop)]
pub(crate) enum Making {
    /// It stays as it is.
    Nothing,
    /// An empty record, of a node of a new group.
    Empty,
    /// A record with only this floor, of a node whose own record was lost.
    Above(Instance),
}

impl Making {
    /// Whether an absent file is made.
    pub(crate) fn makes(self) -> bool {
        match self {
            Making::Nothing => false,
            _ => true,
        }
    }
}

/// What the options ask for: a record with a floor, if they say how far records reach.
pub(crate) fn read_making(
    alloc: Global,
    cluster: Cluster,
    me: NodeId,
    options: &ServeOptions<'_>,
) -> Result<Making, ServerFault>
    requires cluster { cluster ≡ length options.now.peers.items }
    requires me { me ≡ options.now.id }
    ensures made { IfOk result (Makes options.now) }
    ensures none { IfErr result (MakesNone options.now) }
{
    if !options.above.is_empty() {
        let floor = read_floor(alloc, cluster, me, options.above.as_slice())?;
        return Ok(Making::Above(floor));
    }
    if options.format {
        Ok(Making::Empty)
    } else {
        Ok(Making::Nothing)
    }
}
