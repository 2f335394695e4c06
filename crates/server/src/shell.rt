//! What carries a server's bytes: its sockets and its clock. Nothing is proved of it except that it is safe
//! and returns.
//!
//! What it sends a node in a pass goes as packets (`server_packets`), if that node reads them (`Peers`): each
//! call that sends costs some microseconds, as much as a message.
//!
//! A rest of 10 ms or more waits for a datagram and ends with it. A shorter rest sleeps, since the system
//! counts such waits in steps of some milliseconds.

use crate::addresses::Addresses;
use crate::mail::Mail;
use crate::packing::pack;
use crate::peers::Peers;
use crate::watch::Watch;
use server_clients::{Partings, Seats};
use server_notes::Notes;
use server_pace::Times;
use server_packets::Packet;
use site_drive::Letter;
use site_ids::{MAX_NODES, NodeId};
use std::alloc::{AllocError, Global};
use std::io::{ErrorKind, Read};
use std::net::{Shutdown, SocketAddr, TcpListener, TcpStream, UdpSocket};
use std::rt::Clock;
use std::time::{Duration, Instant};
use std::{io, thread};
use wire::MAX_MESSAGE;

/// How many datagrams, and how many clients, a pass takes at most.
const RECEIVED: u32 = 256;

const ACCEPTED: u32 = 64;

/// A rest of this many microseconds or more is a long one, which a datagram ends. The system counts such a
/// wait in milliseconds, so a shorter rest sleeps.
const LONG: u64 = 10_000;

/// How many times the rest of what a script's client sent is read before its connection is closed, each time
/// at most 4,096 bytes.
const LINGER: u32 = 16;

/// The sockets, none of which waits, and the time.
#[derive(Drop)]
pub(crate) struct Shell {
    socket: UdpSocket,
    // the other nodes
    others: Vec<(NodeId, SocketAddr)>,
    listener: TcpListener,
    // room for the longest datagram and one more byte, so that one that was cut short spells nothing
    datagram: Vec<u8>,
    packet: Packet,
    // clients that have their last response: they have no seat, and keep nobody from one
    partings: Partings<TcpStream>,
    start: Option<Instant>,
    now: u64,
    pub(crate) watch: Watch,
}

/// Closes a connection of a script, whose client has sent all that it sends. If some of that is left unread,
/// the system resets the connection, and the client may lose its response. A server's clients may go on
/// sending (`Partings`).
pub fn close(stream: TcpStream) {
    if stream.shutdown(Shutdown::Write).is_err() || stream.set_nonblocking(true).is_err() {
        return;
    }
    let mut buffer = [0; 4096];
    for _ in 0..LINGER {
        match (&stream).read(&mut buffer) {
            Ok(n) if n > 0 => {}
            _ => return,
        }
    }
}

/// The addresses of the other nodes: node p has the p-th address.
fn others_of(
    alloc: Global,
    addresses: &Addresses,
) -> Result<Vec<(NodeId, SocketAddr)>, AllocError> {
    let mut others = Vec::new(alloc);
    for (number, at) in (1..=MAX_NODES).zip(addresses.peers.iter()) {
        match addresses.cluster.node(number) {
            Some(node) if node != addresses.me => others.push((node, *at))?,
            _ => {}
        }
    }
    Ok(others)
}

/// Sends a node what was packed for it. Once in a while that goes as a packet, even if it is one datagram. To
/// a node that reads no packets it then goes as it is, too.
fn send_packed(
    socket: &UdpSocket,
    packet: &Packet,
    peers: &mut Peers,
    (to, at): (NodeId, SocketAddr),
    now: u64,
) {
    let shown = if peers.is_due(to, now) {
        packet.as_packet()
    } else {
        None
    };
    if shown.is_none() || !peers.reads(to, now) {
        let _ = socket.send_to(packet.bytes(), at);
    }
    if let Some(bytes) = shown {
        let _ = socket.send_to(bytes, at);
        peers.show(to, now);
    }
}

/// Sends a node what these letters have for it. A failure is a loss, and so is a failed allocation.
fn send_to(
    socket: &UdpSocket,
    packet: &mut Packet,
    letters: &[Letter],
    peers: &mut Peers,
    (to, at): (NodeId, SocketAddr),
    now: u64,
) {
    let alone = !peers.reads(to, now);
    let mut rest = letters;
    for _ in 0..letters.len() {
        let Ok(n) = pack(rest, to, alone, packet) else {
            return;
        };
        if !packet.is_empty() {
            send_packed(socket, packet, peers, (to, at), now);
        }
        let (_, behind) = rest.split_at(n);
        rest = behind;
        if rest.is_empty() {
            return;
        }
    }
}

impl Shell {
    /// Both sockets are open, and do not wait.
    pub(crate) fn new<C: Clock>(
        clock: &C,
        alloc: Global,
        addresses: &Addresses,
        socket: UdpSocket,
        listener: TcpListener,
        times: Times,
        notes: Notes,
    ) -> Result<Shell, AllocError> {
        let mut datagram = Vec::new(alloc);
        datagram.resize(MAX_MESSAGE + 1, 0)?;
        Ok(Shell {
            socket,
            others: others_of(alloc, addresses)?,
            listener,
            datagram,
            packet: Packet::new(alloc)?,
            partings: Partings::new(alloc, times)?,
            start: Instant::now(clock).ok(),
            now: 0,
            watch: Watch::new(notes),
        })
    }

    /// How many milliseconds have passed since it began, never less than before. If the clock fails, one more
    /// than before.
    pub(crate) fn now<C: Clock>(&mut self, clock: &C) -> u64 {
        let passed = match self.start {
            Some(start) => start.elapsed(clock).ok(),
            None => None,
        };
        let now = match passed {
            Some(passed) => u64::try_from(passed.as_millis()).unwrap_or(u64::MAX),
            None => self.now.saturating_add(1),
        };
        self.now = now.max(self.now);
        self.now
    }

    /// Takes in what has come from other nodes and from clients. Returns whether a client sent any.
    pub(crate) fn take_in(
        &mut self,
        mail: &mut Mail,
        seats: &mut Seats<TcpStream>,
        now: u64,
    ) -> Result<bool, AllocError> {
        self.receive(mail, now)?;
        self.accept(seats, now)?;
        seats.read_each(now)
    }

    /// Sends the letters and what clients are owed. Returns whether anything went to a client.
    pub(crate) fn give_out(
        &mut self,
        mail: &mut Mail,
        seats: &mut Seats<TcpStream>,
        now: u64,
    ) -> bool {
        self.send(mail, now);
        seats.write_each(now)
    }

    /// Receives what has come, as far as the mail has room. A failure is a loss.
    fn receive(&mut self, mail: &mut Mail, now: u64) -> Result<(), AllocError> {
        for _ in 0..RECEIVED {
            if !mail.has_room() {
                return Ok(());
            }
            match self.socket.recv_from(self.datagram.as_mut_slice()) {
                Ok((n, _from)) => {
                    mail.take_in(&self.datagram[..n], now)?;
                }
                Err(e) if e.kind() == ErrorKind::WouldBlock => return Ok(()),
                Err(_) => {}
            }
        }
        Ok(())
    }

    /// Seats the clients that have come, each perhaps in the place of one that was silent for long. A client
    /// that fails at once is ignored.
    fn accept(&mut self, seats: &mut Seats<TcpStream>, now: u64) -> Result<(), AllocError> {
        for _ in 0..ACCEPTED {
            if !seats.has_room(now) {
                self.watch.fill();
                return Ok(());
            }
            let Ok((stream, _from)) = self.listener.accept() else {
                return Ok(());
            };
            if stream.set_nonblocking(true).is_err() {
                continue;
            }
            let _ = stream.set_nodelay(true);
            if let Some(gone) = seats.make_room(now) {
                self.part_with(gone, now);
                self.watch.displace();
            }
            let _ = seats.admit(stream, now)?;
        }
        Ok(())
    }

    /// Rests for this many microseconds. A long rest ends when a datagram comes. A datagram for which an
    /// allocation fails is lost.
    pub(crate) fn rest<C: Clock>(&mut self, clock: &C, micros: u64, mail: &mut Mail) {
        if micros == 0 {
            return;
        }
        let length = Duration::from_micros(micros);
        if micros < LONG || self.may_wait(length).is_err() {
            thread::sleep(clock, length);
            return;
        }
        let came = self.socket.recv_from(self.datagram.as_mut_slice());
        let _ = self.socket.set_nonblocking(true);
        if let Ok((n, _from)) = came {
            let _ = mail.take_in(&self.datagram[..n], self.now);
        }
    }

    /// From now on a receive waits this long. If that cannot be set, none waits.
    fn may_wait(&self, length: Duration) -> io::Result<()> {
        self.socket.set_read_timeout(Some(length))?;
        self.socket.set_nonblocking(false)
    }

    /// Sends each other node what these letters have for it.
    fn send(&mut self, mail: &mut Mail, now: u64) {
        let Mail { letters, peers, .. } = mail;
        for other in &self.others {
            send_to(
                &self.socket,
                &mut self.packet,
                letters.as_slice(),
                peers,
                *other,
                now,
            );
        }
    }

    /// Parts with the clients that leave, and returns whether anything came from one that left. No client
    /// leaves while their requests are left unanswered, since they wait longer then than a request may.
    pub(crate) fn part(&mut self, seats: &mut Seats<TcpStream>, now: u64, left: bool) -> bool {
        if !left {
            self.part_each(seats, now);
        }
        self.partings.read_each(now)
    }

    /// Parts with the clients that leave, up to a limit.
    fn part_each(&mut self, seats: &mut Seats<TcpStream>, now: u64) {
        for _ in 0..ACCEPTED {
            match seats.leave(now) {
                Some(stream) => self.part_with(stream, now),
                None => return,
            }
        }
    }

    /// Nothing more is written to a client, and its stream is read until it closes. If that is not possible,
    /// or if another stream is given up for it, the connection is closed here.
    fn part_with(&mut self, stream: TcpStream, now: u64) {
        if stream.shutdown(Shutdown::Write).is_ok() {
            let _ = self.partings.take_in(stream, now);
        }
    }
}
