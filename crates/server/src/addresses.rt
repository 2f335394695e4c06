//! The addresses of a server and its peers.

ghost use Rattle.std.specs.Prelude.{◌≡◌, ◌⊎◌, length, IfOk, IfErr, IfSome, IfNone, OnOk};
ghost use Rattle.site_ids.specs.Ids.{IsNode};
ghost use Rattle.server.specs.Placing.{IsAddress, IsPlaced, AreAddresses};

use server_faults::{ServeOptions, ServerFault};
use site_ids::{Cluster, MAX_NODES, NodeId};
use std::alloc::Global;
use std::net::SocketAddr;

/// Which node of which cluster a server is, and the addresses of nodes.
#[derive(Drop)]
pub(crate) struct Addresses {
    pub cluster: Cluster,
    pub me: NodeId,
    /// The addresses of nodes 1 to n, in order.
    pub peers: Vec<SocketAddr>,
    pub http: SocketAddr,
}

/// Reads one address.
fn address(text: &str) -> Result<SocketAddr, ServerFault>
    ensures ok { OnOk result (IsAddress text.now) }
    ensures bad { IfErr result (λ why. (why ≡ ServerFault.BadAddress) × ¬ IsAddress text.now) }
{
    match text.parse::<SocketAddr>() {
        Ok(address) => Ok(address),
        Err(_) => Err(ServerFault::BadAddress),
    }
}

/// Reads each of these addresses.
fn all(alloc: Global, texts: &[&str]) -> Result<Vec<SocketAddr>, ServerFault>
    ensures ok { IfOk result (λ found. (length found.items ≡ length texts.now)
        × AreAddresses texts.now (λ t. t.now)) }
    ensures bad { IfErr result (λ why. ((why ≡ ServerFault.BadAddress)
        × ¬ AreAddresses texts.now (λ t. t.now)) ⊎ (why ≡ ServerFault.OutOfMemory)) }
{
    let mut found = Vec::with_capacity(alloc, texts.len())?;
    for text in texts {
        match found.push(address(text)?) {
            Ok(()) => {}
            Err(_) => return Err(ServerFault::OutOfMemory),
        }
    }
    Ok(found)
}

/// The cluster of this size, and the node of that number.
fn placed(size: usize, id: u8) -> Option<(Cluster, NodeId)>
    ensures some { IfSome result (λ p. (p.0 ≡ size) × (p.1 ≡ id) × IsNode 9 size × IsNode size id) }
    ensures none { IfNone result (¬ (IsNode 9 size × IsNode size id)) }
{
    if size > MAX_NODES as usize {
        return None;
    }
    let cluster = Cluster::new(size as u8)?;
    Some((cluster, cluster.node(id)?))
}

/// The addresses of the options: one to nine of nodes, with the server among them.
pub(crate) fn read_addresses(
    alloc: Global,
    options: &ServeOptions<'_>,
) -> Result<Addresses, ServerFault>
    ensures ok { IfOk result (λ a. IsPlaced options.now × IsNode a.cluster a.me
        × (length a.peers.items ≡ a.cluster)) }
    ensures named { IfOk result (λ a. (a.cluster ≡ length options.now.peers.items)
        × (a.me ≡ options.now.id)) }
    ensures bad { IfErr result (λ why. ((why ≡ ServerFault.BadAddress) × ¬ IsPlaced options.now)
        ⊎ (why ≡ ServerFault.OutOfMemory)) }
{
    let Some((cluster, me)) = placed(options.peers.len(), options.id) else {
        return Err(ServerFault::BadAddress);
    };
    Ok(Addresses {
        cluster,
        me,
        peers: all(alloc, options.peers.as_slice())?,
        http: address(options.http)?,
    })
}
