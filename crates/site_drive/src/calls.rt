//! The calls after the last turn.

ghost use Rattle.std.specs.Prelude.{◌≡◌, ◌≢◌, ◌++◌, [], List, IfErr, OnOk};
ghost use Rattle.wire.specs.declared.message.Message.{Message};
ghost use Rattle.node.specs.Standing.{KeepsOthers, CountsDevice, ending_by, ending_of, failures};
ghost use Rattle.node.specs.declared.to.To.{To};
ghost use Rattle.site_drive.specs.Sending.{Counted};
ghost use Rattle.site_drive.specs.Drives.{EndsLast, EndsTurns, Closes, GivesUpLast, KeepsEach};
ghost use Rattle.site_drive.specs.Leading.{AllFit, LeadsTo, NodeLeads, Called};

use crate::desk::Desk;
use crate::sending::send_all;
use crate::{LastCall, Link};
use node::{Node, NodeFault, To};
use site_disk::Disk;
use site_ids::Instance;

/// Keeps what is known at `count` instances from `first` on, as far as there are instances.
fn keep_each<D: Disk>(node: &mut Node<D>, first: Instance, count: u32) -> Result<(), NodeFault>
    ensures event { NodeLeads D.stands_for node.old node.new
        (λ s next. KeepsEach node.old.cluster node.old.me first count s (ending_of result) next) }
    ensures others { KeepsOthers node.old node.new }
    ensures counts { CountsDevice result (failures D.failed node.old) (failures D.failed node.new) }
{
    for past in 0..count {
        let Some(instance) = first.plus(past) else {
            return Ok(());
        };
        node.keep(instance)?;
    }
    Ok(())
}

impl Desk {
    /// Widens until no further attempt begins.
    fn widen_all<D: Disk>(&mut self, node: &mut Node<D>) -> Result<(), NodeFault>
        ensures event { NodeLeads D.stands_for node.old node.new
            (Called LastCall.Widen node.old.cluster node.old.me
            (ending_of result) self.old.outbox.items self.new.outbox.items) }
        ensures others { KeepsOthers node.old node.new }
        ensures counted { self.new.failed ≡ self.old.failed }
        ensures delivered { self.new.delivered ≡ self.old.delivered }
        ensures counts { CountsDevice result (failures D.failed node.old) (failures D.failed node.new) }
    {
        'widening: while node.widen(&mut self.outbox)? {}
        Ok(())
    }

    /// Ticks and then widens if a tick is wanted, and asks if not.
    fn tick_or_ask<D: Disk>(&mut self, node: &mut Node<D>) -> Result<(), NodeFault>
        ensures event { NodeLeads D.stands_for node.old node.new
            (Called LastCall.TickOrAsk node.old.cluster node.old.me
            (ending_of result) self.old.outbox.items self.new.outbox.items) }
        ensures others { KeepsOthers node.old node.new }
        ensures counted { self.new.failed ≡ self.old.failed }
        ensures delivered { self.new.delivered ≡ self.old.delivered }
        ensures counts { CountsDevice result (failures D.failed node.old) (failures D.failed node.new) }
    {
        if !node.wants_tick() {
            return node.ask(&mut self.outbox);
        }
        node.tick(&mut self.outbox)?;
        self.widen_all(node)
    }

    fn call<D: Disk>(&mut self, node: &mut Node<D>, last: LastCall) -> Result<(), NodeFault>
        ensures event { NodeLeads D.stands_for node.old node.new
            (Called last node.old.cluster node.old.me
            (ending_of result) self.old.outbox.items self.new.outbox.items) }
        ensures others { KeepsOthers node.old node.new }
        ensures counted { self.new.failed ≡ self.old.failed }
        ensures delivered { self.new.delivered ≡ self.old.delivered }
        ensures counts { CountsDevice result (failures D.failed node.old) (failures D.failed node.new) }
    {
        match last {
            LastCall::TickOrAsk => self.tick_or_ask(node),
            LastCall::Widen => self.widen_all(node),
            LastCall::Ask => node.ask(&mut self.outbox),
            LastCall::Tell { to, first } => node.tell(To::One(to), first, &mut self.outbox),
            LastCall::Keep { first, count } => keep_each(node, first, count),
            LastCall::Nothing => Ok(()),
        }
    }

    /// Makes the last call. The refusal is ignored if every instance is known.
    pub(crate) fn last_call<D: Disk>(
        &mut self,
        node: &mut Node<D>,
        last: LastCall,
    ) -> Result<(), NodeFault>
        ensures ok { OnOk result (NodeLeads D.stands_for node.old node.new (λ s next. (out : List (To
            × Message)) × (self.new.outbox.items ≡ self.old.outbox.items ++ out)
            × EndsTurns last node.old.cluster node.old.me s out next × AllFit out)) }
        ensures fault { IfErr result (λ fault. NodeLeads D.stands_for node.old node.new
            (λ s next. (out : List (To × Message))
            × EndsLast last node.old.cluster node.old.me s (ending_by fault) out next)) }
        ensures other { IfErr result (λ fault. fault ≢ NodeFault.InstancesUsedUp) }
        ensures others { KeepsOthers node.old node.new }
        ensures counted { self.new.failed ≡ self.old.failed }
        ensures delivered { self.new.delivered ≡ self.old.delivered }
        ensures counts { CountsDevice result (failures D.failed node.old) (failures D.failed node.new) }
    {
        match self.call(node, last) {
            Ok(()) => Ok(()),
            Err(fault) if fault == NodeFault::InstancesUsedUp => Ok(()),
            Err(fault) => Err(fault),
        }
    }

    /// Makes the calls after the last turn, and sends what they hand out.
    pub(crate) fn close<D: Disk, L: Link>(
        &mut self,
        node: &mut Node<D>,
        link: &mut L,
        last: LastCall,
    ) -> Result<(), NodeFault>
        requires { self.old.outbox.items ≡ [] }
        ensures ok { OnOk result (LeadsTo D.stands_for L.received L.given node.old node.new link.old link.new
            (Closes last node.old.cluster node.old.me)) }
        ensures fault { IfErr result (λ fault.
            LeadsTo D.stands_for L.received L.given node.old node.new link.old link.new
            (GivesUpLast last node.old.cluster node.old.me fault)) }
        ensures others { KeepsOthers node.old node.new }
        ensures tried { L.tried link.new ≡ L.tried link.old }
        ensures counted { Counted self.old.failed self.new.failed (L.failed link.old) (L.failed link.new) }
        ensures counts { CountsDevice result (failures D.failed node.old) (failures D.failed node.new) }
    {
        self.last_call(node, last)?;
        send_all(
            link,
            node.cluster(),
            &self.outbox,
            &mut self.spelling,
            &mut self.failed,
        )?;
        Ok(())
    }
}
