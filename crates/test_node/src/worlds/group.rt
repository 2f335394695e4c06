//! A world, lent to the rows: a row that owned one would have to be proved to drop it at each of its ends.
ghost use Rattle.std.specs.Prelude.{◌≤◌};

use crate::comparing::{ensure, same};
use crate::worlds::step::Step;
use command::write;
use release::Answer;
use site_ids::{Cluster, NodeId, Ticket, Value};
use std::alloc::Global;
use std::process::Abort;
use world::{AskFault, Event, NodeState, World, WorldFault};

/// A world, how many of its messages were settled, and how often an allocation failed.
#[derive(Drop)]
pub(crate) struct Group {
    pub alloc: Global,
    pub wants: usize,
    pub settled: usize,
    world: World,
}

/// What a node shows: its state, how many values it knows, its newest release.
pub(crate) type Shown = (NodeState, u32, u64);

/// A world. It is made once more if an allocation failed.
fn made(rt: &impl Abort, alloc: Global, cluster: Cluster) -> World {
    match World::new(alloc, cluster) {
        Ok(world) => world,
        Err(_) => World::new(alloc, cluster).expect(rt, "memory"),
    }
}

fn written(alloc: Global, number: u64, text: &str) -> Option<Value> {
    let ticket = Ticket { editor: 1, number };
    let bytes = write(alloc, ticket, text.as_bytes()).ok()?;
    Value::from_bytes(bytes).ok()
}

/// The value of a command of editor 1. It is written once more if an allocation failed.
pub(crate) fn value(rt: &impl Abort, alloc: Global, number: u64, text: &str) -> Value {
    match written(alloc, number, text) {
        Some(value) => value,
        None => written(alloc, number, text).expect(rt, "a value"),
    }
}

/// A run ended as wanted.
pub(crate) fn runs(rt: &impl Abort, ended: Result<(), WorldFault>, wanted: Result<(), WorldFault>) {
    same(rt, ended, wanted);
}

/// Pushes an event, once more if an allocation failed.
pub(crate) fn push(rt: &impl Abort, events: &mut Vec<Event>, event: Event) {
    if let Err(refused) = events.push(event) {
        ensure(rt, events.push(refused.value).is_ok(), 2);
    }
}

impl Group {
    /// A group of `size` nodes, opened over empty records.
    pub(crate) fn new(rt: &impl Abort, alloc: Global, size: u8) -> Group {
        let cluster = Cluster::new(size).expect(rt, "a cluster");
        Group {
            alloc,
            wants: 0,
            settled: 0,
            world: made(rt, alloc, cluster),
        }
    }

    /// A node of the cluster.
    pub(crate) fn node(&self, rt: &impl Abort, number: u8) -> NodeId
        ensures { result ≤ self.now.world.cluster }
    {
        self.world.cluster().node(number).expect(rt, "a node")
    }

    /// A run as it is.
    pub(crate) fn run(&mut self, events: &[Event]) -> Result<(), WorldFault> {
        self.world.run(events)
    }

    /// A run. If an allocation failed once, it goes on from the count that it gave.
    pub(crate) fn run_on(&mut self, rt: &impl Abort, events: &[Event]) -> Result<(), WorldFault> {
        let ended = self.run(events);
        let Err(WorldFault::OutOfMemory(taken)) = ended else {
            return ended;
        };
        self.wants = self.wants.saturating_add(1);
        let (_, left) = events.split_at_checked(taken).expect(rt, "events taken");
        self.run(left)
    }

    pub(crate) fn take(&mut self, rt: &impl Abort, event: Event) -> Result<(), WorldFault> {
        self.run_on(rt, &[event])
    }

    fn deliver_to_all(&mut self, rt: &impl Abort, index: usize) -> Result<(), WorldFault> {
        for number in 1..=self.world.cluster().size() {
            let node = self.node(rt, number);
            self.take(rt, Event::Deliver { node, index })?;
        }
        Ok(())
    }

    fn settle(&mut self, rt: &impl Abort) -> Result<(), WorldFault> {
        for index in self.settled..usize::MAX {
            if index >= self.sent_count() {
                break;
            }
            self.deliver_to_all(rt, index)?;
            self.settled = index + 1;
        }
        Ok(())
    }

    pub(crate) fn sent_count(&self) -> usize {
        self.world.sent_count()
    }

    pub(crate) fn shown(&self, rt: &impl Abort, number: u8) -> Shown {
        let node = self.node(rt, number);
        (
            self.world.state(node),
            self.world.known(node),
            self.world.published(node),
        )
    }

    /// A node's answer. The question is put once more if an allocation failed.
    pub(crate) fn answer(
        &self,
        rt: &impl Abort,
        number: u8,
        n: u64,
        path: &str,
    ) -> Result<Answer, AskFault> {
        let node = self.node(rt, number);
        match self.world.answer(node, n, path) {
            Err(AskFault::OutOfMemory) => self.world.answer(node, n, path),
            answer => answer,
        }
    }

    fn submission(&self, rt: &impl Abort, number: u8, ticket: u64, text: &str) -> Event {
        Event::Submit {
            node: self.node(rt, number),
            value: value(rt, self.alloc, ticket, text),
        }
    }

    /// The event of a step, if it is one.
    fn event(&self, rt: &impl Abort, step: Step) -> Option<Event> {
        match step {
            Step::Submit(number, ticket, text) => Some(self.submission(rt, number, ticket, text)),
            Step::Tick(number) => Some(Event::Tick {
                node: self.node(rt, number),
            }),
            Step::Ask(number) => Some(Event::Ask {
                node: self.node(rt, number),
            }),
            Step::Deliver(number, index) => Some(Event::Deliver {
                node: self.node(rt, number),
                index,
            }),
            Step::Arm(number, calls) => Some(Event::Arm {
                node: self.node(rt, number),
                calls,
            }),
            Step::Crash(number, choice) => Some(Event::Crash {
                node: self.node(rt, number),
                choice,
            }),
            Step::Restart(number) => Some(Event::Restart {
                node: self.node(rt, number),
            }),
            _ => None,
        }
    }

    /// The events of these steps.
    pub(crate) fn events(&self, rt: &impl Abort, steps: &[Step]) -> Vec<Event> {
        let mut events = Vec::new(self.alloc);
        for &step in steps {
            let event = self.event(rt, step).expect(rt, "an event");
            push(rt, &mut events, event);
        }
        events
    }

    /// A run over the events of these steps as it is.
    pub(crate) fn run_steps(&mut self, rt: &impl Abort, steps: &[Step]) -> Result<(), WorldFault> {
        let events = self.events(rt, steps);
        self.run(events.as_slice())
    }

    /// Does a step.
    pub(crate) fn act(&mut self, rt: &impl Abort, step: Step) -> Result<(), WorldFault> {
        match self.event(rt, step) {
            Some(event) => self.take(rt, event),
            None => self.settle(rt),
        }
    }
}
