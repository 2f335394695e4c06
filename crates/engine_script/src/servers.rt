//! The three servers of a script.
ghost use Rattle.site_ids.specs.Ids.{IsNode};
ghost use Rattle.engine_script.specs.declared.script.TheConstants.{SERVERS};

use crate::loopback_fault::LoopbackFault;
use crate::loopback_server::{LoopbackServer, loopback};
use crate::script::SERVERS;
use node::NodeFault;
use server::datagrams;
use site_drive::UdpLink;
use site_ids::{Cluster, NodeId};
use std::alloc::Global;
use std::net::{Net, SocketAddr, TcpListener, TcpStream, UdpSocket};

/// How many turns each node takes in `take_turns`.
const TURNS: u32 = 20;

/// The servers 1 to 3, in order. Each is boxed: the proof shows that what owns one drops it, and a box is
/// dropped in one step.
#[derive(Drop)]
pub(crate) struct Servers {
    first: Box<LoopbackServer>,
    second: Box<LoopbackServer>,
    third: Box<LoopbackServer>,
}

/// The servers' sockets for datagrams, in order.
#[derive(Drop)]
struct Sockets {
    first: UdpSocket,
    second: UdpSocket,
    third: UdpSocket,
}

impl Sockets {
    fn open<N: Net>(net: &N) -> Result<Sockets, LoopbackFault> {
        Ok(Sockets {
            first: datagrams(net, loopback())?,
            second: datagrams(net, loopback())?,
            third: datagrams(net, loopback())?,
        })
    }

    fn addresses(&self) -> Result<[SocketAddr; 3], LoopbackFault> {
        Ok([
            self.first.local_addr()?,
            self.second.local_addr()?,
            self.third.local_addr()?,
        ])
    }
}

fn boxed(alloc: Global, server: LoopbackServer) -> Result<Box<LoopbackServer>, LoopbackFault> {
    match Box::new(alloc, server) {
        Ok(server) => Ok(server),
        Err(server) => {
            drop(server);
            Err(LoopbackFault::OutOfMemory)
        }
    }
}

/// The server of that number, over its socket. The p-th peer is the address of node p.
fn open_server<N: Net<Listener = TcpListener, Stream = TcpStream>>(
    net: &N,
    alloc: Global,
    number: u8,
    socket: UdpSocket,
    peers: &[SocketAddr],
) -> Result<Box<LoopbackServer>, LoopbackFault>
    requires { IsNode SERVERS number }
{
    let Some(cluster) = Cluster::new(SERVERS) else {
        unreachable!()
    };
    let Some(me) = cluster.node(number) else {
        unreachable!()
    };
    let peers = Vec::from_slice(alloc, peers)?;
    let server = LoopbackServer::open(net, alloc, cluster, me, UdpLink::new(socket, peers))?;
    boxed(alloc, server)
}

impl Servers {
    /// Three nodes that know nothing yet.
    pub(crate) fn open<N: Net<Listener = TcpListener, Stream = TcpStream>>(
        net: &N,
        alloc: Global,
    ) -> Result<Servers, LoopbackFault> {
        let sockets = Sockets::open(net)?;
        let peers = sockets.addresses()?;
        Servers::over(net, alloc, sockets, &peers)
    }

    fn over<N: Net<Listener = TcpListener, Stream = TcpStream>>(
        net: &N,
        alloc: Global,
        sockets: Sockets,
        peers: &[SocketAddr],
    ) -> Result<Servers, LoopbackFault> {
        let Sockets {
            first,
            second,
            third,
        } = sockets;
        Ok(Servers {
            first: open_server(net, alloc, 1, first, peers)?,
            second: open_server(net, alloc, 2, second, peers)?,
            third: open_server(net, alloc, 3, third, peers)?,
        })
    }

    fn at(&mut self, node: NodeId) -> &mut LoopbackServer
        requires { IsNode SERVERS node }
    {
        match node.number() {
            1 => &mut self.first,
            2 => &mut self.second,
            _ => &mut self.third,
        }
    }

    /// Lets one node take `turns` turns.
    pub(crate) fn drive(&mut self, alloc: Global, node: NodeId, turns: u32) -> Result<(), NodeFault>
        requires { IsNode SERVERS node }
    {
        self.at(node).drive(alloc, turns)
    }

    /// Lets each node take 20 turns, in order, `count` times.
    pub(crate) fn take_turns(&mut self, alloc: Global, count: u32) -> Result<(), NodeFault> {
        for _ in 0..count {
            self.first.drive(alloc, TURNS)?;
            self.second.drive(alloc, TURNS)?;
            self.third.drive(alloc, TURNS)?;
        }
        Ok(())
    }

    /// Sends a request to a node, lets it serve, and returns what it wrote.
    pub(crate) fn ask<N: Net<Stream = TcpStream>>(
        &mut self,
        net: &N,
        alloc: Global,
        node: NodeId,
        request: &[u8],
    ) -> Result<Vec<u8>, LoopbackFault>
        requires { IsNode SERVERS node }
    {
        self.at(node).ask(net, alloc, request)
    }
}
