//! Servers joined in memory, by a written clock.
ghost use Rattle.site_ids.specs.Ids.{IsNode};

use crate::client::Client;
use crate::comparing::{ensure, same};
use durable::Record;
use node::Node;
use server::{Mail, Peers, Recorded, Seats, Served, Server, ServerFault, pack};
use server_pace::Times;
use server_packets::Packet;
use site_disk::MemDisk;
use site_drive::Desk;
use site_ids::{Cluster, NodeId, NodeSet};
use std::alloc::Global;
use std::process::Abort;

/// The most instances that a script knows.
const INSTANCES: u32 = 2_000;

/// A server in a box. What owns a server is proved to drop it, and a box is dropped in one step.
pub(crate) type Boxed = Box<Server<MemDisk, Client>>;

/// The servers of a group, and the moment in milliseconds.
#[derive(Drop)]
pub(crate) struct Group {
    pub alloc: Global,
    pub servers: Vec<Boxed>,
    pub now: u64,
}

/// A server over a node of that disk. `None` if an allocation failed.
fn served(alloc: Global, cluster: Cluster, me: NodeId, disk: MemDisk) -> Option<Boxed>
    requires { IsNode cluster me }
{
    let desk = Desk::new(alloc).ok()?;
    let Ok(node) = Node::open(alloc, cluster, me, disk) else {
        return None;
    };
    let times = Times::new(None, None);
    let recorded = Recorded::of(&node, INSTANCES);
    Box::new(
        alloc,
        Server::new(alloc, me, Served { node }, desk, times, recorded),
    )
    .ok()
}

/// A server over a new record. `None` if an allocation failed.
pub(crate) fn fresh(alloc: Global, cluster: Cluster, me: NodeId) -> Option<Boxed>
    requires { IsNode cluster me }
{
    let mut disk = MemDisk::new(alloc);
    if Record::format(cluster, me, &mut disk).is_err() {
        return None;
    }
    served(alloc, cluster, me, disk)
}

/// Another server over the disk of this one, after a crash by that choice or without one. `None` if an
/// allocation failed.
pub(crate) fn reopened(
    alloc: Global,
    cluster: Cluster,
    me: NodeId,
    server: Boxed,
    crash: Option<u8>,
) -> Option<Boxed>
    requires { IsNode cluster me }
{
    let Server { served: before, .. } = Box::into_inner(server);
    let mut disk = before.node.close();
    if let Some(choice) = crash {
        disk.crash(choice);
    }
    served(alloc, cluster, me, disk)
}

/// A pass of a server: it reads from its clients, takes a step, writes to them, and computes how long it
/// would rest.
pub(crate) fn turn(server: &mut Boxed, now: u64) -> Result<(), ServerFault> {
    let came = server.seats.read_each(now)?;
    let stepped = server.step(now)?;
    let went = server.seats.write_each(now);
    let _ = server.rest(stepped, came || went);
    Ok(())
}

/// Appends a piece of these bytes.
fn push_piece(rt: &impl Abort, alloc: Global, pieces: &mut Vec<Vec<u8>>, bytes: &[u8]) {
    let piece = Vec::from_slice(alloc, bytes).expect(rt, "memory");
    pieces.push(piece).expect(rt, "memory");
}

/// Whether a client that comes is seated.
pub(crate) fn is_seated(
    rt: &impl Abort,
    seats: &mut Seats<Client>,
    client: Client,
    now: u64,
) -> bool {
    let gone = seats.admit(client, now).expect(rt, "memory");
    let is = gone.is_none();
    drop(gone);
    is
}

/// What was packed goes to a node as it is, or as a packet if one is due. A node that reads no packets then
/// gets both.
fn push_packed(
    rt: &impl Abort,
    alloc: Global,
    pieces: &mut Vec<Vec<u8>>,
    packet: &Packet,
    peers: &mut Peers,
    to: NodeId,
    now: u64,
) {
    let shown = if peers.is_due(to, now) {
        packet.as_packet()
    } else {
        None
    };
    if shown.is_none() || !peers.reads(to, now) {
        push_piece(rt, alloc, pieces, packet.bytes());
    }
    if let Some(bytes) = shown {
        push_piece(rt, alloc, pieces, bytes);
        peers.show(to, now);
    }
}

/// The pieces in which a server's letters go to a node.
pub(crate) fn packed(
    rt: &impl Abort,
    alloc: Global,
    mail: &mut Mail,
    to: NodeId,
    now: u64,
) -> Vec<Vec<u8>> {
    let mut packet = Packet::new(alloc).expect(rt, "memory");
    let mut pieces = Vec::new(alloc);
    let alone = !mail.peers.reads(to, now);
    let count = mail.letters().len();
    let mut done = 0;
    for _ in 0..count {
        let rest = mail.letters().get(done..).expect(rt, "letters");
        let n = pack(rest, to, alone, &mut packet).expect(rt, "memory");
        done = done.saturating_add(n);
        if !packet.is_empty() {
            push_packed(rt, alloc, &mut pieces, &packet, &mut mail.peers, to, now);
        }
    }
    same(rt, done, count);
    pieces
}

/// The node of that number, in a cluster of `size` nodes.
pub(crate) fn node_of(rt: &impl Abort, size: u8, number: u8) -> NodeId {
    let cluster = Cluster::new(size).expect(rt, "a cluster");
    cluster.node(number).expect(rt, "a node")
}

/// The nodes of these numbers.
pub(crate) fn nodes_of(rt: &impl Abort, numbers: &[u8]) -> NodeSet {
    let mut all = NodeSet::new();
    for &number in numbers {
        all.insert(node_of(rt, 9, number));
    }
    all
}

/// These pieces wait at a server.
fn take_in(rt: &impl Abort, mail: &mut Mail, pieces: &[Vec<u8>], now: u64) {
    for piece in pieces {
        mail.take_in(piece.as_slice(), now).expect(rt, "memory");
    }
}

impl Group {
    /// A group of `size` servers, each over a new record.
    pub(crate) fn new(rt: &impl Abort, alloc: Global, size: u8) -> Group {
        let cluster = Cluster::new(size).expect(rt, "a cluster");
        let mut servers = Vec::new(alloc);
        for number in 1..=size {
            let me = cluster.node(number).expect(rt, "a node");
            let server = fresh(alloc, cluster, me).expect(rt, "memory");
            servers.push(server).expect(rt, "memory");
        }
        Group {
            alloc,
            servers,
            now: 0,
        }
    }

    /// How many servers there are.
    fn size(&self) -> u8 {
        u8::try_from(self.servers.len()).unwrap_or(u8::MAX)
    }

    /// The server of that number.
    pub(crate) fn server(&mut self, rt: &impl Abort, number: u8) -> &mut Boxed {
        let index = usize::from(number).saturating_sub(1);
        self.servers.get_mut(index).expect(rt, "a server")
    }

    /// A client comes to the server of that number.
    pub(crate) fn comes(&mut self, rt: &impl Abort, number: u8, sends: &[u8], piece: usize) {
        let client = Client::new(self.alloc, sends, piece).expect(rt, "memory");
        let now = self.now;
        let seats = &mut self.server(rt, number).seats;
        ensure(rt, is_seated(rt, seats, client, now), number);
    }

    /// Brings what the letters of one server have for another one.
    fn carry(&mut self, rt: &impl Abort, from: u8, to: u8) {
        let (alloc, now) = (self.alloc, self.now);
        let node = node_of(rt, self.size(), to);
        let pieces = packed(rt, alloc, &mut self.server(rt, from).mail, node, now);
        take_in(rt, &mut self.server(rt, to).mail, pieces.as_slice(), now);
    }

    /// A pass of one server. Its letters reach each other server, except for those that are away.
    fn pass(&mut self, rt: &impl Abort, number: u8, away: &[u8]) {
        let now = self.now;
        ensure(rt, turn(self.server(rt, number), now).is_ok(), number);
        for to in 1..=self.size() {
            if to != number && !away.contains(&to) {
                self.carry(rt, number, to);
            }
        }
    }

    /// In each of `millis` milliseconds each server makes a pass, except for those that are away.
    pub(crate) fn goes_on(&mut self, rt: &impl Abort, millis: u64, away: &[u8]) {
        for _ in 0..millis {
            self.now = self.now.saturating_add(1);
            for number in 1..=self.size() {
                if !away.contains(&number) {
                    self.pass(rt, number, away);
                }
            }
        }
    }

    /// The server of that number knows `known` values, and shows `newest` releases.
    pub(crate) fn stands(&mut self, rt: &impl Abort, number: u8, known: u32, newest: u64) {
        let node = &self.server(rt, number).served.node;
        let is = (number, node.known(), node.newest());
        same(rt, is, (number, known, newest));
    }

    /// The next client of that server whose connection ends, long after all that was done.
    pub(crate) fn leaves(&mut self, rt: &impl Abort, number: u8) -> Option<Client> {
        let late = self.now.saturating_add(60_000);
        self.server(rt, number).seats.leave(late)
    }

    /// What the next client got whose connection with that server ends begins with `front` and ends with
    /// `end`.
    pub(crate) fn next_got(&mut self, rt: &impl Abort, number: u8, front: &[u8], end: &[u8]) {
        let client = self.leaves(rt, number).expect(rt, "a client");
        ensure(rt, client.got_from_to(front, end), number);
    }

    /// Exactly `count` clients of that server are still there. What each of them got begins with `front` and
    /// ends with `end`.
    pub(crate) fn got(&mut self, rt: &impl Abort, number: u8, count: u8, front: &[u8], end: &[u8]) {
        for _ in 0..count {
            self.next_got(rt, number, front, end);
        }
        ensure(rt, self.leaves(rt, number).is_none(), number);
    }

    /// Each server ends at once, and another one opens over what a crash by that choice leaves of its disk.
    pub(crate) fn crash(&mut self, rt: &impl Abort, choice: u8) {
        let cluster = Cluster::new(self.size()).expect(rt, "a cluster");
        let mut servers = Vec::new(self.alloc);
        for number in (1..=self.size()).rev() {
            let server = self.servers.pop().expect(rt, "a server");
            let me = cluster.node(number).expect(rt, "a node");
            let again = reopened(self.alloc, cluster, me, server, Some(choice));
            servers
                .push(again.expect(rt, "memory"))
                .expect(rt, "memory");
        }
        servers.reverse();
        self.servers = servers;
    }
}
