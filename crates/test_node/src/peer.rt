//! A node over a disk in memory, lent to the rows.
use crate::comparing::same;
use crate::heard::{Heard, message};
use crate::nodes::{again, fresh, replaced, submit};
use crate::samples::{Text, instance, node_of};
use node::{Node, NodeFault, Outbox, Submitted, To};
use site_disk::MemDisk;
use std::alloc::Global;
use std::process::Abort;

/// Node 1 of a cluster, and what it handed out.
#[derive(Drop)]
pub(crate) struct Peer {
    alloc: Global,
    pub node: Box<Node<MemDisk>>,
    pub out: Outbox,
}

/// A call of it.
#[derive(Clone, Copy)]
pub(crate) enum Call {
    Begin,
    Seal,
    Tick,
    Ask,
    Widen,
    Publish,
    Submit(Text),
    /// It tells a node, or all of them for 0, from an instance on.
    Tell(u8, u32),
    Hear(Heard),
}

/// A call returned what was wanted.
pub(crate) fn ends(rt: &impl Abort, called: Result<(), NodeFault>, wanted: Result<(), NodeFault>) {
    same(rt, called, wanted);
}

pub(crate) fn passes(rt: &impl Abort, called: Result<(), NodeFault>) {
    ends(rt, called, Ok(()));
}

/// How a call ended, whatever it returned.
fn ended<T: Copy>(called: Result<T, NodeFault>) -> Result<(), NodeFault> {
    match called {
        Ok(_) => Ok(()),
        Err(fault) => Err(fault),
    }
}

impl Peer {
    /// Node 1 of three, over a new record.
    pub(crate) fn fresh(rt: &impl Abort, alloc: Global) -> Peer {
        Peer {
            alloc,
            node: fresh(rt, alloc, 3),
            out: Vec::new(alloc),
        }
    }

    /// Node 1 of three, over a record with that floor.
    pub(crate) fn replaced(rt: &impl Abort, alloc: Global, floor: u32) -> Peer {
        Peer {
            alloc,
            node: replaced(rt, alloc, floor),
            out: Vec::new(alloc),
        }
    }

    /// Closed and opened again, after a crash by that choice, or without one.
    pub(crate) fn again(self, rt: &impl Abort, crash: Option<u8>) -> Peer {
        let Peer { alloc, node, out } = self;
        Peer {
            alloc,
            node: again(rt, alloc, node, crash),
            out,
        }
    }

    /// Delivers a message of its cluster, which is dropped only here.
    pub(crate) fn hear(&mut self, rt: &impl Abort, heard: Heard) -> Result<(), NodeFault> {
        let message = message(rt, self.alloc, self.node.cluster(), heard);
        assert!(rt; message.is_of(self.node.cluster()));
        let ended = self.node.deliver(&message, &mut self.out);
        drop(message);
        ended
    }

    pub(crate) fn submit(&mut self, rt: &impl Abort, text: Text) -> Result<Submitted, NodeFault> {
        submit(rt, self.alloc, &mut self.node, text)
    }

    pub(crate) fn widen(&mut self) -> Result<bool, NodeFault> {
        self.node.widen(&mut self.out)
    }

    fn tell(&mut self, rt: &impl Abort, to: u8, first: u32) -> Result<(), NodeFault> {
        let to = match to {
            0 => To::All,
            _ => To::One(node_of(rt, self.node.cluster(), to)),
        };
        self.node.tell(to, instance(rt, first), &mut self.out)
    }

    pub(crate) fn call(&mut self, rt: &impl Abort, call: Call) -> Result<(), NodeFault> {
        match call {
            Call::Begin => self.node.begin(),
            Call::Seal => self.node.seal(),
            Call::Tick => self.node.tick(&mut self.out),
            Call::Ask => self.node.ask(&mut self.out),
            Call::Widen => ended(self.widen()),
            Call::Publish => ended(self.node.publish()),
            Call::Submit(text) => ended(self.submit(rt, text)),
            Call::Tell(to, first) => self.tell(rt, to, first),
            Call::Hear(heard) => self.hear(rt, heard),
        }
    }
}
