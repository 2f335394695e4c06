//! Sends what a node hands out.

ghost use Rattle.std.specs.Prelude.{◌≡◌, ◌++◌, ◌∷◌, [], ℕ, List, take, map, OnOk, OnErr};
ghost use Rattle.site_ids.specs.Lists.{In};
ghost use Rattle.wire.specs.declared.message.Message.{Message};
ghost use Rattle.wire.specs.Messages.{Fits};
ghost use Rattle.node.specs.declared.to.To.{To};
ghost use Rattle.site_drive.specs.Drives.{up_to, addressed, sent_of};
ghost use Rattle.site_drive.specs.Sending.{Counted};

use crate::{Link, LinkFailed};
use node::{Outbox, To};
use site_ids::{Cluster, NodeId};
use std::alloc::AllocError;
use wire::{Message, encode};

// Sends one datagram. A failure is counted, and otherwise ignored.
fn send_to<L: Link>(link: &mut L, to: NodeId, datagram: &[u8], failed: &mut u64)
    ensures received { (ds : List (List ℕ)) → L.received link.old ds → L.received link.new ds }
    ensures given { (gs : List (ℕ × List ℕ)) → L.given link.old gs
        → L.given link.new (gs ++ (to, datagram.now) ∷ []) }
    ensures tried { L.tried link.new ≡ L.tried link.old }
    ensures counted { Counted failed.old failed.new (L.failed link.old) (L.failed link.new) }
{
    match link.send(to, datagram) {
        Ok(()) => {}
        Err(LinkFailed) => *failed = failed.saturating_add(1),
    }
}

// Sends one datagram to each node in order.
fn send_to_all<L: Link>(link: &mut L, cluster: Cluster, datagram: &[u8], failed: &mut u64)
    ensures received { (ds : List (List ℕ)) → L.received link.old ds → L.received link.new ds }
    ensures given { (gs : List (ℕ × List ℕ)) → L.given link.old gs
        → L.given link.new (gs ++ map (λ p. (p, datagram.now)) (up_to cluster)) }
    ensures tried { L.tried link.new ≡ L.tried link.old }
    ensures counted { Counted failed.old failed.new (L.failed link.old) (L.failed link.new) }
{
    let mut number = 0;
    while number < cluster.size() {
        number += 1;
        let Some(to) = cluster.node(number) else {
            unreachable!()
        };
        send_to(link, to, datagram, failed);
    }
}

// Sends a message to the nodes that it is for. One that fits no datagram is ignored; no message of a node is
// such.
fn send_message<L: Link>(
    link: &mut L,
    cluster: Cluster,
    to: To,
    message: &Message,
    spelling: &mut Vec<u8>,
    failed: &mut u64,
) -> Result<(), AllocError>
    ensures received { (ds : List (List ℕ)) → L.received link.old ds → L.received link.new ds }
    ensures given { OnOk result (Fits message.now → (gs : List (ℕ × List ℕ)) → L.given link.old gs
        → L.given link.new (gs ++ addressed cluster (to, message.now))) }
    ensures refused { OnErr result ((gs : List (ℕ × List ℕ)) → L.given link.old gs → L.given link.new gs) }
    ensures tried { L.tried link.new ≡ L.tried link.old }
    ensures counted { Counted failed.old failed.new (L.failed link.old) (L.failed link.new) }
{
    if !message.fits() {
        return Ok(());
    }
    spelling.clear();
    encode(message, spelling)?;
    match to {
        To::One(to) => send_to(link, to, spelling.as_slice(), failed),
        To::All => send_to_all(link, cluster, spelling.as_slice(), failed),
    }
    Ok(())
}

/// Sends each message of an outbox to the nodes that it is for, in order.
pub(crate) fn send_all<L: Link>(
    link: &mut L,
    cluster: Cluster,
    outbox: &Outbox,
    spelling: &mut Vec<u8>,
    failed: &mut u64,
) -> Result<(), AllocError>
    ensures received { (ds : List (List ℕ)) → L.received link.old ds → L.received link.new ds }
    ensures given { OnOk result (((x : To × Message) → In outbox.now.items x → Fits x.1)
        → (gs : List (ℕ × List ℕ)) → L.given link.old gs
        → L.given link.new (gs ++ sent_of cluster outbox.now.items)) }
    ensures refused { OnErr result (((x : To × Message) → In outbox.now.items x → Fits x.1)
        → (gs : List (ℕ × List ℕ)) → L.given link.old gs → (k : ℕ)
        × L.given link.new (gs ++ take k (sent_of cluster outbox.now.items))) }
    ensures tried { L.tried link.new ≡ L.tried link.old }
    ensures counted { Counted failed.old failed.new (L.failed link.old) (L.failed link.new) }
{
    for (to, message) in outbox.as_slice() {
        send_message(link, cluster, *to, message, spelling, failed)?;
    }
    Ok(())
}
