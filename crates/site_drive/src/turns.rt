//! Turns: what is received is delivered, the node publishes, and what it hands out is sent.

ghost use Rattle.std.specs.Prelude.{◌≡◌, ◌≤◌, ◌++◌, ◌∷◌, [], ℕ, List, length, Some, IfOk, IfErr};
ghost use Rattle.std.specs.Prelude.{IfSome, OnOk};
ghost use Rattle.node.specs.Standing.{KeepsOthers, CountsDevice, failures};
ghost use Rattle.site_drive.specs.Delivering.{IsNoted};
ghost use Rattle.site_drive.specs.Links.{RoseBy};
ghost use Rattle.site_drive.specs.Sending.{Counted};
ghost use Rattle.site_drive.specs.Drives.{Heard, datagrams, BreaksOff, Exchanges, GivesUp};
ghost use Rattle.site_drive.specs.Leading.{LeadsTo, NodeLeads, TakesIn, StaysWhose, IsHeldAs};

use crate::delivered::Delivered;
use crate::desk::Desk;
use crate::sending::send_all;
use crate::{Link, LinkFailed};
use node::{Node, NodeFault, Outbox};
use site_disk::Disk;
use std::alloc::Global;
use wire::{WireFault, decode};

/// Delivers a datagram, and puts what that hands out after what waits already. Returns how many were
/// malformed: one or none.
pub(crate) fn deliver_datagram<D: Disk>(
    alloc: Global,
    node: &mut Node<D>,
    datagram: &[u8],
    delivered: &mut Delivered,
    outbox: &mut Outbox,
) -> Result<u32, NodeFault>
    ensures one { IfOk result (λ malformed. malformed ≤ 1) }
    ensures taken { IfOk result (λ malformed. NodeLeads D.stands_for node.old node.new
        (TakesIn node.old.cluster node.old.me
        (Some datagram.now) malformed outbox.old.items outbox.new.items)) }
    ensures broken { IfErr result (λ fault. NodeLeads D.stands_for node.old node.new
        (λ s next. BreaksOff node.old.cluster node.old.me s datagram.now fault next)) }
    ensures noted { OnOk result (IsNoted node.old.cluster datagram.now delivered.old delivered.new) }
    ensures others { KeepsOthers node.old node.new }
    ensures counts { CountsDevice result (failures D.failed node.old) (failures D.failed node.new) }
{
    match decode(alloc, datagram, node.cluster()) {
        Ok(message) => {
            delivered.note(&message);
            match node.deliver(&message, outbox) {
                Ok(()) => Ok(0),
                Err(fault) => Err(fault),
            }
        }
        Err(WireFault::Malformed) => Ok(1),
        Err(WireFault::OutOfMemory) => Err(NodeFault::OutOfMemory),
    }
}

impl Desk {
    /// Receives once, and returns how many bytes came. A failure is counted, and then nothing came.
    pub(crate) fn hear<L: Link>(&mut self, link: &mut L) -> Option<usize>
        ensures bound { IfSome result (λ n. n ≤ length self.new.datagram.items) }
        ensures heard { (ds : List (List ℕ)) → L.received link.old ds → (h : Heard)
            × L.received link.new (ds ++ datagrams (h ∷ [])) × IsHeldAs result self.new.datagram.items h }
        ensures given { (gs : List (ℕ × List ℕ)) → L.given link.old gs → L.given link.new gs }
        ensures tried { RoseBy 1 (L.tried link.old) (L.tried link.new) }
        ensures counted { Counted self.old.failed self.new.failed (L.failed link.old) (L.failed link.new) }
        ensures outbox { self.new.outbox ≡ self.old.outbox }
    {
        match link.receive(self.datagram.as_mut_slice()) {
            Ok(came) => came,
            Err(LinkFailed) => {
                self.failed = self.failed.saturating_add(1);
                None
            }
        }
    }

    /// Delivers what came, and puts what that hands out after what waits already. Returns how many datagrams
    /// were malformed: one or none.
    pub(crate) fn take_in<D: Disk>(
        &mut self,
        node: &mut Node<D>,
        came: Option<usize>,
    ) -> Result<u32, NodeFault>
        requires { IfSome came (λ n. n ≤ length self.old.datagram.items) }
        ensures one { IfOk result (λ malformed. malformed ≤ 1) }
        ensures taken { IfOk result (λ malformed. (h : Heard) → IsHeldAs came self.old.datagram.items h
            → NodeLeads D.stands_for node.old node.new
            (TakesIn node.old.cluster node.old.me h malformed self.old.outbox.items self.new.outbox.items)) }
        ensures broken { IfErr result (λ fault. (h : Heard) → IsHeldAs came self.old.datagram.items h
            → NodeLeads D.stands_for node.old node.new (λ s next.
            (d : List ℕ) × (h ≡ Some d) × BreaksOff node.old.cluster node.old.me s d fault next)) }
        ensures others { KeepsOthers node.old node.new }
        ensures counted { self.new.failed ≡ self.old.failed }
        ensures counts { CountsDevice result (failures D.failed node.old) (failures D.failed node.new) }
    {
        let Some(n) = came else {
            return Ok(0);
        };
        deliver_datagram(
            self.alloc,
            node,
            &self.datagram[..n],
            &mut self.delivered,
            &mut self.outbox,
        )
    }

    /// Takes one turn, and returns how many datagrams were malformed: one or none.
    pub(crate) fn turn<D: Disk, L: Link>(
        &mut self,
        node: &mut Node<D>,
        link: &mut L,
    ) -> Result<u32, NodeFault>
        requires { self.old.outbox.items ≡ [] }
        ensures one { IfOk result (λ malformed. malformed ≤ 1) }
        ensures ok { IfOk result (λ malformed.
            LeadsTo D.stands_for L.received L.given node.old node.new link.old link.new
            (Exchanges node.old.cluster node.old.me 1 malformed node.new.releases)) }
        ensures fault { IfErr result (λ fault.
            LeadsTo D.stands_for L.received L.given node.old node.new link.old link.new
            (GivesUp node.old.cluster node.old.me 1 fault)) }
        ensures empty { OnOk result (self.new.outbox.items ≡ []) }
        ensures whose { StaysWhose node.old node.new }
        ensures tried { RoseBy 1 (L.tried link.old) (L.tried link.new) }
        ensures counted { Counted self.old.failed self.new.failed (L.failed link.old) (L.failed link.new) }
        ensures counts { CountsDevice result (failures D.failed node.old) (failures D.failed node.new) }
    {
        let came = self.hear(link);
        let malformed = self.take_in(node, came)?;
        node.publish()?;
        send_all(
            link,
            node.cluster(),
            &self.outbox,
            &mut self.spelling,
            &mut self.failed,
        )?;
        self.outbox.clear();
        Ok(malformed)
    }
}
