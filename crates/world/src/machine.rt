//! One node of a world: running, stopped or down.

ghost use Rattle.std.specs.Prelude.{◌≡◌, ◌≢◌, ◌+◌, ◌<◌, ◌≤◌, ◌⊎◌, ◌↔◌, ℕ, max, List, [], ◌∷◌, Some, None};
ghost use Rattle.std.specs.Prelude.{IsTrue, length, slice_get, IfOk, IfErr, OnOk, OnErr, MatchOption};
ghost use Rattle.proposer.specs.declared.TheConstants.{MAX_ATTEMPTS as WINDOW};

use crate::Event;
use crate::passing::passed;
use durable::{Record, RecordFault};
use node::{Node, Outbox, To};
use proposer::MAX_ATTEMPTS;
use site_disk::MemDisk;
use site_ids::{Ballot, Cluster, Instance, MAX_ROUND, NodeId, Value};
use std::alloc::{AllocError, Global};
use std::mem;

/// The greatest round after which two rounds are left.
const LAST_QUIET_ROUND: u32 = MAX_ROUND - 2;

#[derive(Drop)]
pub(crate) enum Machine {
    /// The node runs, or its device has stopped it. `armed` says that the disk is set to fail.
    Open { node: Node<MemDisk>, armed: bool },
    /// The node is down: only its disk is left.
    Bare(MemDisk),
}

impl Machine {
    ghost use Rattle.site_disk.specs.Model.{DiskState};
    ghost use Rattle.site_disk.specs.Memory.{MemoryStandsFor};
    ghost use Rattle.durable.specs.Keeping.{Keeps};
    ghost use Rattle.wire.specs.declared.message.Message.{Message as AbstractMessage};
    ghost use Rattle.wire.specs.Messages.{IsMessage};
    ghost use Rattle.node.specs.Nodes.{Node as AbstractNode, Up, Down, opened, IsFirstUnknown, IsMute};
    ghost use Rattle.node.specs.Effects.{messages_of};
    ghost use Rattle.node.specs.Calls.{submit as submission, tick as ticking, widen as widening};
    ghost use Rattle.node.specs.Calls.{ask as asking, tell as telling, keep as keeping, deliver as delivery};
    ghost use Rattle.node.specs.Calls.{fresh_ballot, HasRound, AreOpenElsewhere};
    ghost use Rattle.proposer.specs.Attempts.{Attempt};
    ghost use Rattle.node.specs.Standing.{OnlyGrows};
    ghost use Rattle.site_ids.specs.Ids.{IsNode};
    ghost use Rattle.world.specs.declared.event.Event.TheVariants.{Arm};
    ghost use Rattle.world.specs.Standing.{IsMachineOf, HasPublished};
    ghost use Rattle.world.specs.Quiet.{IsQuietAt};
    ghost use Rattle.acceptor.specs.declared.slot.Slot.{Slot};
    ghost use Rattle.durable.specs.Entries.{IsSlot, Floor, last_round, reach_of};
    ghost use Rattle.world.specs.Taking.{node_of, IsUnsent};
    ghost use Rattle.world.specs.Machines.{EventTurns, EventWants, Turns, Wants, IsUp, RefusesOpening};
    ghost use Rattle.world.specs.Machines.{CallTurns, CallWants, NodeTakes, Settled};

    /// A node opened over an empty record.
    pub(crate) fn fresh(alloc: Global, cluster: Cluster, me: NodeId) -> Result<Machine, AllocError>
        requires { IsNode cluster me }
        ensures { IfOk result (λ machine. IsMachineOf cluster me machine (opened Up [] None)) }
    {
        let mut disk = MemDisk::new(alloc);
        if Record::format(cluster, me, &mut disk).is_err() {
            return Err(AllocError);
        }
        match Node::open(alloc, cluster, me, disk) {
            Ok(node) => Ok(Machine::Open { node, armed: false }),
            Err(_) => Err(AllocError),
        }
    }

    pub(crate) fn submit(&mut self, value: &Value) -> Result<(), AllocError>
        ensures ok { OnOk result ((n p : ℕ) → CallTurns n p (submission value.now) self.old self.new [] []) }
        ensures err { OnErr result ((n p : ℕ)
            → CallWants n p (submission value.now) self.old self.new [] []) }
    {
        match self {
            Machine::Bare(_) => Ok(()),
            Machine::Open { node, .. } => passed(node.submit(value)),
        }
    }

    pub(crate) fn tick(&mut self, sent: &mut Outbox) -> Result<(), AllocError>
        ensures ok { OnOk result ((n p : ℕ)
            → CallTurns n p ticking self.old self.new sent.old.items sent.new.items) }
        ensures err { OnErr result ((n p : ℕ)
            → CallWants n p ticking self.old self.new sent.old.items sent.new.items) }
        ensures grows { OnlyGrows sent.old.items sent.new.items }
    {
        match self {
            Machine::Bare(_) => Ok(()),
            Machine::Open { node, .. } => passed(node.tick(sent)),
        }
    }

    pub(crate) fn widen(&mut self, sent: &mut Outbox) -> Result<(), AllocError>
        ensures ok { OnOk result ((n p : ℕ)
            → CallTurns n p widening self.old self.new sent.old.items sent.new.items) }
        ensures err { OnErr result ((n p : ℕ)
            → CallWants n p widening self.old self.new sent.old.items sent.new.items) }
        ensures grows { OnlyGrows sent.old.items sent.new.items }
    {
        match self {
            Machine::Bare(_) => Ok(()),
            Machine::Open { node, .. } => passed(node.widen(sent)),
        }
    }

    pub(crate) fn ask(&mut self, sent: &mut Outbox) -> Result<(), AllocError>
        ensures ok { OnOk result ((n p : ℕ)
            → CallTurns n p asking self.old self.new sent.old.items sent.new.items) }
        ensures err { OnErr result ((n p : ℕ)
            → CallWants n p asking self.old self.new sent.old.items sent.new.items) }
        ensures grows { OnlyGrows sent.old.items sent.new.items }
    {
        match self {
            Machine::Bare(_) => Ok(()),
            Machine::Open { node, .. } => passed(node.ask(sent)),
        }
    }

    pub(crate) fn tell(&mut self, first: Instance, sent: &mut Outbox) -> Result<(), AllocError>
        ensures ok { OnOk result ((n p : ℕ)
            → CallTurns n p (telling To.All first) self.old self.new sent.old.items sent.new.items) }
        ensures err { OnErr result ((n p : ℕ)
            → CallWants n p (telling To.All first) self.old self.new sent.old.items sent.new.items) }
        ensures grows { OnlyGrows sent.old.items sent.new.items }
    {
        match self {
            Machine::Bare(_) => Ok(()),
            Machine::Open { node, .. } => passed(node.tell(To::All, first, sent)),
        }
    }

    pub(crate) fn keep(&mut self, instance: Instance) -> Result<(), AllocError>
        ensures ok { OnOk result ((n p : ℕ) → CallTurns n p (keeping instance) self.old self.new [] []) }
        ensures err { OnErr result ((n p : ℕ) → CallWants n p (keeping instance) self.old self.new [] []) }
    {
        match self {
            Machine::Bare(_) => Ok(()),
            Machine::Open { node, .. } => passed(node.keep(instance)),
        }
    }

    /// Delivers a message that was handed out. A message that is not of the cluster's nodes is ignored.
    pub(crate) fn deliver(&mut self, index: usize, sent: &mut Outbox) -> Result<(), AllocError>
        requires { index < length sent.old.items }
        ensures ok { OnOk result ((message : AbstractMessage)
            → slice_get (messages_of sent.old.items) index ≡ Some message
            → (n p : ℕ) → IsMessage n message
            → CallTurns n p (delivery message) self.old self.new sent.old.items sent.new.items) }
        ensures err { OnErr result ((n p : ℕ)
            → Wants n p IsUp self.old self.new sent.old.items sent.new.items) }
        ensures grows { OnlyGrows sent.old.items sent.new.items }
    {
        match self {
            Machine::Bare(_) => Ok(()),
            Machine::Open { node, .. } => {
                if node.is_stopped() {
                    return Ok(());
                }
                let (_, message) = &sent[index];
                let message = message.try_clone()?;
                if !message.is_of(node.cluster()) {
                    return Ok(());
                }
                passed(node.deliver(&message, sent))
            }
        }
    }

    pub(crate) fn arm(&mut self, calls: u32)
        ensures { (n p q : ℕ)
            → Turns n p (λ s out next. NodeTakes n p [] s (Arm q calls) out next) self.old self.new [] [] }
    {
        match self {
            Machine::Bare(_) => {}
            Machine::Open { node, armed } => {
                node.arm(calls);
                *armed = true;
            }
        }
    }

    /// Whether the node runs, its disk is not armed, and at least two rounds are left above each round on
    /// record.
    pub(crate) fn is_quiet(&self) -> bool
        ensures { (n p : ℕ) (s : AbstractNode) → IsMachineOf n p self.now s → IsTrue result ↔ IsQuietAt s }
    {
        match self {
            Machine::Bare(_) => false,
            Machine::Open { node, armed } => {
                !node.is_stopped() && !*armed && node.greatest_round() <= LAST_QUIET_ROUND
            }
        }
    }

    /// Whether a node that runs is not mute at an instance.
    pub(crate) fn speaks_at(&self, instance: Instance) -> bool
        ensures { (n p : ℕ) (s : AbstractNode) → IsMachineOf n p self.now s → s.mode ≡ Up → IsTrue result
            ↔ (¬ IsMute s instance) }
    {
        match self {
            Machine::Bare(_) => false,
            Machine::Open { node, .. } => !node.is_mute(instance),
        }
    }

    /// Whether a node that runs has two rounds left.
    pub(crate) fn has_two_rounds(&self) -> bool
        ensures { (n p : ℕ) (s : AbstractNode) → IsMachineOf n p self.now s → s.mode ≡ Up → IsTrue result
            ↔ (max (last_round s.entries) s.heard ≤ 4294967293) }
    {
        match self.next_ballot() {
            Some(ballot) => ballot.round() <= LAST_QUIET_ROUND + 1,
            None => false,
        }
    }

    /// Whether the node is not down, and the floor is `MAX_ATTEMPTS` or more above what its record reaches.
    pub(crate) fn reaches_below(&self, floor: u32) -> bool
        ensures { (n p : ℕ) (s : AbstractNode) → IsMachineOf n p self.now s → IsTrue result
            ↔ ((s.mode ≢ Down) × (reach_of s.entries + WINDOW ≤ floor)) }
    {
        match self {
            Machine::Bare(_) => false,
            Machine::Open { node, .. } => {
                node.reach() as u64 + MAX_ATTEMPTS as u64 <= floor as u64
            }
        }
    }

    /// What a node that runs has promised at an instance.
    pub(crate) fn promised(&self, instance: Instance) -> Option<Ballot>
        ensures { (n p : ℕ) (s : AbstractNode) → IsMachineOf n p self.now s → s.mode ≡ Up → (slot : Slot)
            × IsSlot s.entries instance slot × (result ≡ slot.promised) }
    {
        match self {
            Machine::Bare(_) => None,
            Machine::Open { node, .. } => node.slot(instance).promised,
        }
    }

    /// The ballot of its next attempt, `None` if the rounds are used up.
    pub(crate) fn next_ballot(&self) -> Option<Ballot>
        ensures { (n p : ℕ) (s : AbstractNode) → IsMachineOf n p self.now s → s.mode ≡ Up
            → MatchOption result (¬ HasRound s) (λ b. (b ≡ fresh_ballot p s) × HasRound s) }
    {
        match self {
            Machine::Bare(_) => None,
            Machine::Open { node, .. } => node.next_ballot(),
        }
    }

    /// How many attempts of a node that runs are open, except the one at its first unknown instance.
    pub(crate) fn tried_elsewhere(&self, first: Instance) -> u8
        ensures { (n p : ℕ) (s : AbstractNode) (elsewhere : List (ℕ × Attempt)) → IsMachineOf n p self.now s
            → s.mode ≡ Up → IsFirstUnknown s.known first → AreOpenElsewhere s first elsewhere
            → result ≡ length elsewhere }
    {
        match self {
            Machine::Bare(_) => 0,
            Machine::Open { node, .. } => node.tried_elsewhere(first),
        }
    }

    /// Takes the disk away.
    fn close(self) -> MemDisk
        ensures { (n p : ℕ) (s : AbstractNode) → IsMachineOf n p self s → (d : DiskState)
            × MemoryStandsFor result d × Keeps p n s.entries s.in_flight d }
    {
        match self {
            Machine::Open { node, .. } => node.close(),
            Machine::Bare(disk) => disk,
        }
    }

    fn take(&mut self, alloc: Global) -> MemDisk
        ensures { (n p : ℕ) (s : AbstractNode) → IsMachineOf n p self.old s → (d : DiskState)
            × MemoryStandsFor result d × Keeps p n s.entries s.in_flight d }
    {
        mem::replace(self, Machine::Bare(MemDisk::new(alloc))).close()
    }

    /// Puts the machine in the place of the old one. Only this function drops an old machine.
    fn put(&mut self, machine: Machine)
        ensures { self.new ≡ machine }
    {
        drop(mem::replace(self, machine));
    }

    /// The node is down. `choice` says what of the unsynced bytes its disk has lost.
    pub(crate) fn crash(&mut self, alloc: Global, choice: u8)
        ensures { (n p : ℕ) → Turns n p (λ s out next. Settled Down s out next) self.old self.new [] [] }
    {
        let mut disk = self.take(alloc);
        disk.crash(choice);
        self.put(Machine::Bare(disk));
    }

    /// Opens the node over its disk. If that is refused, the node is down.
    pub(crate) fn restart(
        &mut self,
        alloc: Global,
        cluster: Cluster,
        me: NodeId,
    ) -> Result<(), RecordFault>
        requires { IsNode cluster me }
        ensures ok { OnOk result (Turns cluster me
            (λ s out next. Settled Up s out next) self.old self.new [] []) }
        ensures err { OnErr result (RefusesOpening cluster me self.old self.new) }
        ensures never { IfErr result (λ fault. (s : AbstractNode) → IsMachineOf cluster me self.old s
            → (fault ≡ RecordFault.Device) ⊎ (fault ≡ RecordFault.OutOfMemory)) }
    {
        let mut disk = self.take(alloc);
        disk.disarm();
        match Node::open(alloc, cluster, me, disk) {
            Ok(node) => {
                self.put(Machine::Open { node, armed: false });
                Ok(())
            }
            Err((fault, disk)) => {
                self.put(Machine::Bare(disk));
                Err(fault)
            }
        }
    }

    /// The node is lost with its disk: it is down, over a new disk whose record has only that floor.
    pub(crate) fn replace(
        &mut self,
        alloc: Global,
        cluster: Cluster,
        me: NodeId,
        floor: Instance,
    ) -> Result<(), AllocError>
        ensures ok { OnOk result (Turns cluster me (λ s out next. (out ≡ [])
            × (next ≡ opened Down (Floor floor ∷ []) None)) self.old self.new [] []) }
        ensures err { OnErr result (self.new ≡ self.old) }
    {
        let mut disk = MemDisk::new(alloc);
        if Record::format_above(cluster, me, floor, &mut disk).is_err() {
            return Err(AllocError);
        }
        self.put(Machine::Bare(disk));
        Ok(())
    }

    /// Publishes all that is known without a gap.
    pub(crate) fn publish(&mut self) -> Result<(), AllocError>
        ensures same { (n p : ℕ) (s : AbstractNode) → IsMachineOf n p self.old s
            → IsMachineOf n p self.new s }
        ensures ok { OnOk result ((n p : ℕ) (s : AbstractNode) → IsMachineOf n p self.old s
            → HasPublished self.new s) }
        ensures err { OnErr result ((n p : ℕ) (s : AbstractNode) → IsMachineOf n p self.old s
            → (s.mode ≢ Down) × ¬ HasPublished self.new s) }
    {
        match self {
            Machine::Bare(_) => Ok(()),
            Machine::Open { node, .. } => {
                if node.publish().is_err() {
                    return Err(AllocError);
                }
                Ok(())
            }
        }
    }

    /// Takes an event of this node, except for its publication.
    pub(crate) fn happen(
        &mut self,
        alloc: Global,
        cluster: Cluster,
        event: &Event,
        sent: &mut Outbox,
    ) -> Result<(), AllocError>
        requires node { IsNode cluster (node_of event.now) }
        requires message { ¬ IsUnsent (messages_of sent.old.items) event.now }
        ensures ok { OnOk result
            (EventTurns cluster event.now self.old self.new sent.old.items sent.new.items) }
        ensures err { OnErr result (EventWants cluster
            (node_of event.now) event.now self.old self.new sent.old.items sent.new.items) }
        ensures grows { OnlyGrows sent.old.items sent.new.items }
    {
        match event {
            Event::Submit { value, .. } => self.submit(value),
            Event::Tick { .. } => self.tick(sent),
            Event::Widen { .. } => self.widen(sent),
            Event::Ask { .. } => self.ask(sent),
            Event::Tell { instance, .. } => self.tell(*instance, sent),
            Event::Keep { instance, .. } => self.keep(*instance),
            Event::Deliver { index, .. } => self.deliver(*index, sent),
            Event::Arm { calls, .. } => {
                self.arm(*calls);
                Ok(())
            }
            Event::Crash { choice, .. } => {
                self.crash(alloc, *choice);
                Ok(())
            }
            Event::Restart { node } => match self.restart(alloc, cluster, *node) {
                Ok(()) => Ok(()),
                Err(_) => Err(AllocError),
            },
            Event::Replace { node, floor } => self.replace(alloc, cluster, *node, *floor),
        }
    }
}
