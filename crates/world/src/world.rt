//! A cluster's nodes, each over a disk in memory, and all messages ever handed out.
//!
//! The list of messages is the nodes' outbox, so that a delivery makes one copy. A run does not report why an
//! opening was refused: only a failed device or a failed allocation can refuse it (`records_of_worlds_open`).

ghost use Rattle.std.specs.Prelude.{◌≡◌, length};

use crate::machine::Machine;
use crate::run_stop::RunStop;
use crate::{Event, WorldFault};
use node::Outbox;
use site_ids::Cluster;
use std::alloc::{AllocError, Global};

/// The nodes of a cluster over disks in memory, and all messages that they ever handed out.
#[derive(Drop)]
pub struct World {
    pub(crate) alloc: Global,
    pub(crate) cluster: Cluster,
    // the machine of node 1 first
    pub(crate) machines: Vec<Machine>,
    // the oldest first, to any node
    pub(crate) sent: Outbox,
    ghost all_there: { length machines.items ≡ cluster },
}

impl World {
    ghost use Rattle.std.specs.Prelude.{List, [], IfOk};
    ghost use Rattle.node.specs.Standing.{OnlyGrows};
    ghost use Rattle.world.specs.declared.event.Event.{Event as AbstractEvent};
    ghost use Rattle.world.specs.Worlds.{start};
    ghost use Rattle.world.specs.Standing.{IsWorldOf};
    ghost use Rattle.world.specs.Steps.{StepEnds, RunEnds, Follows, Reached, Reaches};

    /// The nodes of a cluster, each opened over an empty record. No message was handed out. If an allocation
    /// fails, there is no world.
    pub fn new(alloc: Global, cluster: Cluster) -> Result<World, AllocError>
        ensures start { IfOk result (λ world. IsWorldOf world start) }
        ensures whose { IfOk result (λ world. world.cluster ≡ cluster) }
        ensures reached { IfOk result (λ world. Reached world []) }
    {
        let mut machines = Vec::new(alloc);
        while let Some(me) = cluster.node(machines.len() as u8 + 1) {
            let machine = Machine::fresh(alloc, cluster, me)?;
            machines.push(machine)?;
        }
        Ok(World {
            alloc,
            cluster,
            machines,
            sent: Vec::new(alloc),
        })
    }

    /// Takes the events in order, each at its node, which then publishes all that it knows without a gap. It
    /// stops at a bad event, or if an allocation fails. The fault reports how many events were taken; a run
    /// over those that are left continues from there. A call at a node that is down or stopped does nothing.
    /// A call that is refused does nothing either, unless an allocation failed.
    pub fn run(&mut self, events: &[Event]) -> Result<(), WorldFault>
        ensures ends { RunEnds self.old self.new events.now result }
        ensures follows { Follows self.old self.new }
        ensures reached { (earlier : List AbstractEvent) → Reached self.old earlier
            → Reaches self.new earlier events.now result }
        ensures grows { OnlyGrows self.old.sent.items self.new.sent.items }
        ensures whose { self.new.cluster ≡ self.old.cluster }
    {
        let mut taken = 0;
        while let Some(event) = events.get(taken) {
            match self.step(event) {
                Ok(()) => taken += 1,
                Err(RunStop::Wanted) => return Err(WorldFault::OutOfMemory(taken)),
                Err(RunStop::Unpublished) => return Err(WorldFault::OutOfMemory(taken + 1)),
                Err(RunStop::Bad) => return Err(WorldFault::BadEvent(taken)),
            }
        }
        Ok(())
    }

    // Takes an event, and lets its node publish.
    fn step(&mut self, event: &Event) -> Result<(), RunStop>
        ensures ends { StepEnds self.old self.new event.now result }
        ensures grows { OnlyGrows self.old.sent.items self.new.sent.items }
        ensures whose { self.new.cluster ≡ self.old.cluster }
    {
        let me = event.node();
        if self.cluster.size() < me.number() {
            return Err(RunStop::Bad);
        }
        if event.is_unsent(self.sent.len()) {
            return Err(RunStop::Bad);
        }
        if !self.names_floor(event) {
            return Err(RunStop::Bad);
        }
        let at = (me.number() - 1) as usize;
        let machine = &mut self.machines[at];
        if machine
            .happen(self.alloc, self.cluster, event, &mut self.sent)
            .is_err()
        {
            return Err(RunStop::Wanted);
        }
        if machine.publish().is_err() {
            return Err(RunStop::Unpublished);
        }
        Ok(())
    }
}
