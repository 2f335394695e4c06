//! A batch: all that a node does with what came is on the disk together, before the node sends any of its
//! messages.
//!
//! If a batch cannot be begun because an allocation fails, it is given up, and the server ends.

ghost use Rattle.std.specs.Prelude.{◌≡◌, ◌⊎◌, [], Bool, true, IfOk, IfErr, IsErrOf, OnOk, OnErr};
ghost use Rattle.node.specs.Standing.{IsNodeOf, StaysOnDisk, KeepsOthers, CountsDevice, failures};
ghost use Rattle.site_drive.specs.Delivering.{NotesBatch, none_noted};
ghost use Rattle.site_drive.specs.Batches.{TakesEach, Works, GivesUpTaking, GivesUpWork, EndsBatch};
ghost use Rattle.site_drive.specs.Leading.{AllFit, NodeLeads};
ghost use Rattle.site_drive.specs.Posting.{bytes_of};
ghost use Rattle.site_drive.specs.Growing.{IsDue};
ghost use Rattle.node.specs.Growing.{GrowsAt, LosesNothing};
ghost use Rattle.node.specs.Nodes.{Node as AbstractNode};

use crate::LastCall;
use crate::delivered::Delivered;
use crate::desk::Desk;
use crate::turns::deliver_datagram;
use node::{Node, NodeFault};
use site_disk::Disk;

impl Desk {
    /// Delivers these datagrams in order, and returns how many were malformed.
    fn take_each<D: Disk>(
        &mut self,
        node: &mut Node<D>,
        came: &[Vec<u8>],
    ) -> Result<usize, NodeFault>
        requires { self.old.outbox.items ≡ [] }
        ensures ok { IfOk result (λ malformed. NodeLeads D.stands_for node.old node.new
            (λ s next. TakesEach node.old.cluster node.old.me
            (bytes_of came.now) malformed self.new.outbox.items s next × AllFit self.new.outbox.items)) }
        ensures fault { IfErr result (λ why. NodeLeads D.stands_for node.old node.new
            (GivesUpTaking node.old.cluster node.old.me (bytes_of came.now) why)) }
        ensures noted { NotesBatch node.old.cluster came.now self.old.delivered self.new.delivered result }
        ensures others { KeepsOthers node.old node.new }
        ensures counts { CountsDevice result (failures D.failed node.old) (failures D.failed node.new) }
    {
        let mut malformed = 0;
        for datagram in came {
            let one = deliver_datagram(
                self.alloc,
                node,
                datagram.as_slice(),
                &mut self.delivered,
                &mut self.outbox,
            )?;
            malformed += one as usize;
        }
        Ok(malformed)
    }

    /// Delivers these datagrams, and then makes the last call.
    fn work<D: Disk>(
        &mut self,
        node: &mut Node<D>,
        came: &[Vec<u8>],
        last: LastCall,
    ) -> Result<usize, NodeFault>
        requires { self.old.outbox.items ≡ [] }
        ensures ok { IfOk result (λ malformed. NodeLeads D.stands_for node.old node.new
            (Works last node.old.cluster node.old.me (bytes_of came.now) malformed self.new.outbox.items)) }
        ensures fault { IfErr result (λ why. NodeLeads D.stands_for node.old node.new
            (GivesUpWork last node.old.cluster node.old.me (bytes_of came.now) why)) }
        ensures noted { NotesBatch node.old.cluster came.now self.old.delivered self.new.delivered result }
        ensures others { KeepsOthers node.old node.new }
        ensures counts { CountsDevice result (failures D.failed node.old) (failures D.failed node.new) }
    {
        let malformed = self.take_each(node, came)?;
        self.last_call(node, last)?;
        Ok(malformed)
    }

    /// The batch, from its beginning to its publication. If it is given up, the outbox may have messages that
    /// were never sealed.
    fn take_sealed<D: Disk>(
        &mut self,
        node: &mut Node<D>,
        came: &[Vec<u8>],
        last: LastCall,
    ) -> Result<usize, NodeFault>
        requires { self.old.outbox.items ≡ [] }
        ensures ends { EndsBatch D.stands_for D.failed last
            (bytes_of came.now) self.new.outbox.items node.old node.new result }
        ensures noted { NotesBatch node.old.cluster came.now self.old.delivered self.new.delivered result }
    {
        node.begin()?;
        let malformed = match self.work(node, came, last) {
            Ok(malformed) => malformed,
            // (No call of a batch is one of the disk.)
            Err(fault) if fault == NodeFault::Device => return Err(fault),
            Err(fault) => {
                node.seal()?;
                return Err(fault);
            }
        };
        node.seal()?;
        node.publish()?;
        Ok(malformed)
    }

    /// Lets the node's file grow ahead, if that is due. A disk without room is no fault.
    fn make_room<D: Disk>(&mut self, node: &mut Node<D>, idle: bool) -> Result<(), NodeFault>
        ensures grown { OnOk result (IsDue self.old.ahead node.old.store.recorded.gate idle
            → (there : Bool) × GrowsAt D.stands_for node.old node.new self.old.ahead.size there) }
        ensures not_due { (¬ IsDue self.old.ahead node.old.store.recorded.gate idle) → node.new ≡ node.old }
        ensures same { OnOk result ((s : AbstractNode) → IsNodeOf node.old s → IsNodeOf node.new s) }
        ensures stays { OnOk result ((s : AbstractNode) → IsNodeOf node.old s
            → StaysOnDisk D.stands_for node.old node.new s s) }
        ensures lost { IsErrOf result NodeFault.Device
            → LosesNothing D.stands_for node.old node.new.store.disk × (node.new.store.stopped ≡ true) }
        ensures refused { IsErrOf result NodeFault.Stopped
            → (node.new ≡ node.old) × (node.old.store.stopped ≡ true) }
        ensures others { OnErr result (IsErrOf result NodeFault.Stopped ⊎ IsErrOf result NodeFault.Device) }
        ensures keeps { KeepsOthers node.old node.new }
        ensures counts { CountsDevice result (failures D.failed node.old) (failures D.failed node.new) }
        ensures desk { self.new ≡ record self.old { ahead = self.new.ahead } }
    {
        let bytes = node.record_bytes();
        if !self.ahead.is_due(bytes, idle) {
            return Ok(());
        }
        self.ahead = self.ahead.after(bytes);
        node.grow(self.ahead.size)?;
        Ok(())
    }

    /// The batch, after room for it.
    fn take_with_room<D: Disk>(
        &mut self,
        node: &mut Node<D>,
        came: &[Vec<u8>],
        last: LastCall,
    ) -> Result<usize, NodeFault>
        requires { self.old.outbox.items ≡ [] }
        ensures ends { EndsBatch D.stands_for D.failed last
            (bytes_of came.now) self.new.outbox.items node.old node.new result }
        ensures noted { NotesBatch node.old.cluster came.now self.old.delivered self.new.delivered result }
    {
        self.make_room(node, came.is_empty())?;
        self.take_sealed(node, came, last)
    }

    /// One batch: delivers what came, in order, and makes the last call. What that put on record reaches the
    /// disk by two writes and two syncs, or by none if nothing was put. Before that the record's file grows
    /// ahead, if the desk has room for that and it is due (`Room`). Then the node publishes. What the node
    /// hands out waits for `post`. Returns how many datagrams spell no message: they are ignored, as losses.
    ///
    /// If the device fails, all of the batch is on the disk or nothing, and the node is stopped. If an
    /// allocation fails, what was done before is on the disk. After any fault nothing waits for `post`: what
    /// waits there is sealed. What was delivered can still be asked for (`delivered`).
    pub fn take_batch<D: Disk>(
        &mut self,
        node: &mut Node<D>,
        came: &[Vec<u8>],
        last: LastCall,
    ) -> Result<usize, NodeFault>
        ensures ends { EndsBatch D.stands_for D.failed last
            (bytes_of came.now) self.new.outbox.items node.old node.new result }
        ensures noted { NotesBatch node.old.cluster came.now none_noted self.new.delivered result }
        ensures nothing { OnErr result (self.new.outbox.items ≡ []) }
    {
        self.outbox.clear();
        self.delivered = Delivered::none();
        match self.take_with_room(node, came, last) {
            Ok(malformed) => Ok(malformed),
            Err(fault) => {
                self.outbox.clear();
                Err(fault)
            }
        }
    }
}
