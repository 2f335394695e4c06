//! What a running node keeps.
//!
//! Whether the node is stopped is marked in its record only.

ghost use Rattle.std.specs.Prelude.{◌≡◌, ◌≢◌, ◌⊎◌, ◌↔◌, [], List, Option, IsTrue, IfOk, IfErr};
ghost use Rattle.std.specs.Prelude.{length, true};
ghost use Rattle.site_disk.specs.Model.{DiskState, after_sync};
ghost use Rattle.site_ids.specs.Ids.{IsNode};
ghost use Rattle.durable.specs.Counts.{IsCounted};
ghost use Rattle.durable.specs.Cutting.{IsCutShort};
ghost use Rattle.durable.specs.Entries.{Entry};
ghost use Rattle.durable.specs.Keeping.{Keeps};
ghost use Rattle.durable.specs.Standing.{IsRefusal};

use crate::known::Known;
use crate::queue::Queue;
use durable::{Record, RecordFault};
use learner::Learner;
use proposer::Proposer;
use release::Releases;
use site_disk::{Armed, Disk};
use site_ids::{Cluster, NodeId};
use std::alloc::Global;

/// A node over its record: what it has learned since it was opened, and the releases that it has published.
pub struct Node<D> {
    pub(crate) alloc: Global,
    pub(crate) cluster: Cluster,
    pub(crate) me: NodeId,
    pub(crate) store: Record<D>,
    pub(crate) proposer: Proposer,
    pub(crate) learner: Learner,
    pub(crate) known: Known,
    pub(crate) queue: Queue,
    /// The greatest instance of the delivered messages that count towards wanting a tick, or 0.
    pub(crate) reached: u32,
    pub(crate) releases: Releases,
    ghost of_cluster: { IsNode cluster me },
    ghost store_node: { store.node ≡ me },
    ghost store_cluster: { store.cluster ≡ cluster },
    ghost proposer_node: { proposer.me ≡ me },
    ghost proposer_cluster: { proposer.cluster ≡ cluster },
    ghost learner_cluster: { learner.cluster ≡ cluster },
}

impl<D: Drop> Drop for Node<D> {
    // Whoever drops it proves one step: only here it is proved that its parts can be dropped.
    fn drop(self) {
        let Node {
            alloc: _,
            cluster: _,
            me: _,
            store: _,
            proposer: _,
            learner: _,
            known: _,
            queue: _,
            reached: _,
            releases: _,
        } = self;
    }
}

impl<D: Disk> Node<D> {
    ghost use Rattle.node.specs.Nodes.{Node as AbstractNode, Stopped, IsKnownPrefix, WantsTick};
    ghost use Rattle.node.specs.Nodes.{Value as Bytes};
    ghost use Rattle.node.specs.Standing.{IsNodeOf, IsOnDisk, OpensAs};

    /// Opens the record of a node of a cluster. Nothing is known, attempted, pending or heard. A refusal
    /// returns the disk.
    pub fn open(
        alloc: Global,
        cluster: Cluster,
        me: NodeId,
        disk: D,
    ) -> Result<Node<D>, (RecordFault, D)>
        requires { IsNode cluster me }
        ensures opened { IfOk result (λ node. (entries : List Entry)
            × OpensAs D.stands_for disk node entries) }
        ensures whose { IfOk result (λ node. (node.me ≡ me) × (node.cluster ≡ cluster)) }
        ensures cut { IfOk result (λ node. (d : DiskState) → D.stands_for disk d → IsTrue node.store.cut_short
            ↔ IsCutShort node.store.recorded.gate d.seen) }
        ensures unfed { IfOk result (λ node. node.releases ≡ []) }
        ensures none_failed { IfOk result (λ node. D.failed node.store.disk ≡ D.failed disk) }
        ensures refused { IfErr result (λ p. (d : DiskState) → D.stands_for disk d
            → (D.stands_for p.1 (after_sync d) ⊎ (D.stands_for p.1 d × (p.0 ≡ RecordFault.Device)))
            × IsRefusal p.0 me cluster d.seen) }
        ensures never { IfErr result (λ p. (d : DiskState) (entries : List Entry) (in_flight : Option Entry)
            → D.stands_for disk d → Keeps me cluster entries in_flight d → (p.0 ≡ RecordFault.Device)
            ⊎ (p.0 ≡ RecordFault.OutOfMemory)) }
        ensures cause { IfErr result (λ p. p.0 ≡ RecordFault.Device
            → IsCounted (D.failed disk) (D.failed p.1)) }
    {
        match Record::open(alloc, cluster, me, disk) {
            Ok(store) => Ok(Node {
                alloc,
                cluster,
                me,
                store,
                proposer: Proposer::new(alloc, cluster, me),
                learner: Learner::new(alloc, cluster),
                known: Known::new(alloc),
                queue: Queue::new(alloc),
                reached: 0,
                releases: Releases::new(alloc),
            }),
            Err(refused) => Err(refused),
        }
    }

    /// The cluster whose messages it handles.
    pub fn cluster(&self) -> Cluster
        ensures { result ≡ self.now.cluster }
    {
        self.cluster
    }

    /// Whether an accident had cut its record short when it was opened (`Record::is_cut_short`).
    pub fn is_cut_short(&self) -> bool
        ensures { result ≡ self.now.store.cut_short }
    {
        self.store.is_cut_short()
    }

    /// Whether the device failed since the node was opened.
    pub fn is_stopped(&self) -> bool
        ensures { (s : AbstractNode) → IsNodeOf self.now s → IsTrue result ↔ (s.mode ≡ Stopped) }
    {
        self.store.is_stopped()
    }

    /// How many values are known from the first instance on without a gap.
    pub fn known(&self) -> u32
        ensures { (s : AbstractNode) → IsNodeOf self.now s → (values : List Bytes) × IsKnownPrefix s values
            × (result ≡ length values) }
    {
        self.known.log.prefix().len() as u32
    }

    /// The greatest instance of the messages delivered since the node was opened, except questions and
    /// refusals; 0 before the first.
    pub fn reached(&self) -> u32
        ensures { (s : AbstractNode) → IsNodeOf self.now s → result ≡ s.reached }
    {
        self.reached
    }

    /// Whether a value waits to be proposed.
    pub fn has_pending(&self) -> bool
        ensures { (s : AbstractNode) → IsNodeOf self.now s → IsTrue result ↔ (s.pending ≢ []) }
    {
        !self.queue.is_empty()
    }

    /// Whether a value is pending, or a delivered message counted the first unknown instance or a later one.
    pub fn wants_tick(&self) -> bool
        ensures { (s : AbstractNode) → IsNodeOf self.now s → IsTrue result ↔ WantsTick s }
    {
        if !self.queue.is_empty() {
            return true;
        }
        match self.next_gap() {
            Some(gap) => gap.number() <= self.reached,
            None => false,
        }
    }

    /// Returns the disk.
    pub fn close(self) -> D
        ensures is { result ≡ self.store.disk }
        ensures keeps { (s : AbstractNode) (d : DiskState) → IsOnDisk D.stands_for self s d
            → D.stands_for result d × Keeps self.me self.cluster s.entries s.in_flight d }
    {
        let Node {
            alloc: _,
            cluster: _,
            me: _,
            store,
            proposer,
            learner,
            known,
            queue,
            reached: _,
            releases,
        } = self;
        drop(proposer);
        drop(learner);
        drop(known);
        drop(queue);
        drop(releases);
        store.close()
    }
}

impl<D: Armed> Node<D> {
    ghost use Rattle.node.specs.Nodes.{Node as AbstractNode};
    ghost use Rattle.node.specs.Standing.{IsNodeOf, IsOnDisk, KeepsOthers};

    /// Passes the arming on to the disk.
    pub fn arm(&mut self, calls: u32)
        ensures same { (s : AbstractNode) → IsNodeOf self.old s
            → IsNodeOf self.new (record s { armed = true }) }
        ensures on_disk { (s : AbstractNode) (d : DiskState) → IsOnDisk D.Disk.stands_for self.old s d
            → IsOnDisk D.Disk.stands_for self.new (record s { armed = true }) d }
        ensures armed { D.armed self.new.store.disk calls }
        ensures failed { D.Disk.failed self.new.store.disk ≡ D.Disk.failed self.old.store.disk }
        ensures others { KeepsOthers self.old self.new }
    {
        self.store.arm(calls);
    }
}
