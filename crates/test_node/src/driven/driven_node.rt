//! Node 1 with its link and a desk, in a box: a box is dropped in one step.
use crate::comparing::{ensure, same};
use crate::nodes::{again, boxed, fresh, submit};
use crate::samples::Text;
use node::{Node, NodeFault, Submitted};
use site_disk::MemDisk;
use site_drive::{Desk, Driven, LastCall, Letter, Link, MemLink, drive};
use std::alloc::{AllocError, Global};
use std::process::Abort;

#[derive(Drop)]
pub(crate) struct DrivenNode<L> {
    pub alloc: Global,
    pub node: Box<Node<MemDisk>>,
    pub link: L,
    pub desk: Box<Desk>,
}

/// A drive ignored `malformed` malformed datagrams, and `failed` failed calls.
pub(crate) fn passes(
    rt: &impl Abort,
    driven: Result<Driven, NodeFault>,
    malformed: u32,
    failed: u64,
) {
    same(rt, driven, Ok(Driven { malformed, failed }));
}

/// Bytes that are given in hexadecimal. They are read once more if an allocation failed.
pub(crate) fn bytes(rt: &impl Abort, alloc: Global, text: &str) -> Vec<u8> {
    match hex::decode(alloc, text) {
        Ok(bytes) => bytes,
        Err(_) => hex::decode(alloc, text).expect(rt, "bytes"),
    }
}

/// The bytes of `head`, and then bytes 7 up to that length.
pub(crate) fn long(rt: &impl Abort, alloc: Global, head: &str, length: usize) -> Vec<u8> {
    let mut datagram = bytes(rt, alloc, head);
    datagram.resize(length, 7).expect(rt, "a datagram");
    datagram
}

fn desk(rt: &impl Abort, alloc: Global) -> Desk {
    match Desk::new(alloc) {
        Ok(desk) => desk,
        Err(_) => Desk::new(alloc).expect(rt, "memory"),
    }
}

impl<L: Link + Drop> DrivenNode<L> {
    /// Node 1 of `size` nodes, over a new record.
    pub(crate) fn new(rt: &impl Abort, alloc: Global, size: u8, link: L) -> Box<DrivenNode<L>> {
        let node = fresh(rt, alloc, size);
        let desk = boxed(rt, alloc, desk(rt, alloc));
        boxed(
            rt,
            alloc,
            DrivenNode {
                alloc,
                node,
                link,
                desk,
            },
        )
    }

    /// A drive on a desk of its own.
    pub(crate) fn drive(&mut self, turns: u32) -> Result<Driven, NodeFault> {
        drive(self.alloc, &mut self.node, &mut self.link, turns)
    }

    pub(crate) fn turns(&mut self, turns: u32, last: LastCall) -> Result<Driven, NodeFault> {
        self.desk
            .drive_with(&mut self.node, &mut self.link, turns, last)
    }

    /// Takes these datagrams as one batch. Returns how many were malformed.
    pub(crate) fn batch(&mut self, came: &[Vec<u8>], last: LastCall) -> Result<usize, NodeFault> {
        self.desk.take_batch(&mut self.node, came, last)
    }

    /// What is posted after a batch, whatever that returned.
    pub(crate) fn letters(&self) -> Result<Vec<Letter>, AllocError> {
        let mut letters = Vec::new(self.alloc);
        self.desk.post(&mut letters)?;
        Ok(letters)
    }

    /// Submits a release, by the number of its ticket.
    pub(crate) fn submit(&mut self, rt: &impl Abort, number: u64) {
        let text = Text::Command(number, "release\n");
        let submitted = submit(rt, self.alloc, &mut self.node, text);
        same(rt, submitted, Ok(Submitted::Queued));
    }
}

impl DrivenNode<MemLink> {
    /// Over queues in memory.
    pub(crate) fn over_queues(
        rt: &impl Abort,
        alloc: Global,
        size: u8,
    ) -> Box<DrivenNode<MemLink>> {
        DrivenNode::new(rt, alloc, size, MemLink::new(alloc))
    }

    /// Queues a datagram, once more if an allocation failed.
    pub(crate) fn queue(&mut self, rt: &impl Abort, datagram: &[u8]) {
        if self.link.push(datagram).is_err() {
            self.link.push(datagram).expect(rt, "a place");
        }
    }

    /// Whether the datagram sent at a place is this one, to the node of that number.
    fn is_sent(&self, at: usize, to: u8, datagram: &[u8]) -> bool {
        match self.link.sent().get(at) {
            Some((node, sent)) => node.number() == to && sent.as_slice() == datagram,
            None => false,
        }
    }

    pub(crate) fn sent(&self, rt: &impl Abort, at: usize, to: u8, datagram: &[u8]) {
        ensure(rt, self.is_sent(at, to, datagram), (at, to));
    }
}

/// Closed and opened again, after a crash by a choice or without one.
pub(crate) fn reopened(
    rt: &impl Abort,
    server: Box<DrivenNode<MemLink>>,
    crash: Option<u8>,
) -> Box<DrivenNode<MemLink>> {
    let DrivenNode {
        alloc,
        node,
        link,
        desk,
    } = Box::into_inner(server);
    let node = again(rt, alloc, node, crash);
    boxed(
        rt,
        alloc,
        DrivenNode {
            alloc,
            node,
            link,
            desk,
        },
    )
}
