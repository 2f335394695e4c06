//! One server of a script: a node over a disk in memory, with its sockets on the loopback.
ghost use Rattle.site_ids.specs.Ids.{IsNode};

use crate::loopback_fault::LoopbackFault;
use durable::Record;
use engine_common::read_all;
use http_read::Counted;
use http_serve::{ServeFault, serve};
use node::{Node, NodeFault};
use server::{Served, close};
use site_disk::MemDisk;
use site_drive::{UdpLink, drive};
use site_ids::{Cluster, NodeId};
use std::alloc::Global;
use std::io::{self, Write};
use std::net::{Net, SocketAddr, TcpListener, TcpStream};
use std::time::Duration;

/// How many seconds a call of a connection may wait.
const PATIENCE: u64 = 1;

/// A node, its link to the others, and the address of its requests.
#[derive(Drop)]
pub(crate) struct LoopbackServer {
    served: Served<MemDisk>,
    link: UdpLink,
    listener: TcpListener,
}

/// An address of the loopback, with a port that the system picks.
pub(crate) fn loopback() -> SocketAddr {
    SocketAddr::from(([127, 0, 0, 1], 0))
}

/// A node over an empty record in memory.
fn fresh_node(alloc: Global, cluster: Cluster, me: NodeId) -> Result<Served<MemDisk>, LoopbackFault>
    requires { IsNode cluster me }
{
    let mut disk = MemDisk::new(alloc);
    Record::format(cluster, me, &mut disk)?;
    match Node::open(alloc, cluster, me, disk) {
        Ok(node) => Ok(Served { node }),
        Err(_) => Err(LoopbackFault::OutOfMemory),
    }
}

/// Limits each read and each write of a connection to a second.
fn limit_waiting(stream: &TcpStream) -> io::Result<()> {
    let patience = Some(Duration::from_secs(PATIENCE));
    stream.set_read_timeout(patience)?;
    stream.set_write_timeout(patience)
}

/// A connection to an address.
fn connect<N: Net<Stream = TcpStream>>(
    net: &N,
    at: SocketAddr,
) -> Result<TcpStream, LoopbackFault> {
    let stream = TcpStream::connect(net, at)?;
    limit_waiting(&stream)?;
    Ok(stream)
}

/// All that a connection gives.
fn received(alloc: Global, stream: &TcpStream) -> Result<Vec<u8>, LoopbackFault> {
    let mut reader = Counted::new(stream);
    Ok(read_all(alloc, &mut reader)?)
}

impl LoopbackServer {
    /// A node that knows nothing yet.
    pub(crate) fn open<N: Net<Listener = TcpListener, Stream = TcpStream>>(
        net: &N,
        alloc: Global,
        cluster: Cluster,
        me: NodeId,
        link: UdpLink,
    ) -> Result<LoopbackServer, LoopbackFault>
        requires { IsNode cluster me }
    {
        let listener = TcpListener::bind(net, loopback())?;
        let served = fresh_node(alloc, cluster, me)?;
        Ok(LoopbackServer {
            served,
            link,
            listener,
        })
    }

    /// Lets its node take `turns` turns.
    pub(crate) fn drive(&mut self, alloc: Global, turns: u32) -> Result<(), NodeFault> {
        drive(alloc, &mut self.served.node, &mut self.link, turns)?;
        Ok(())
    }

    /// Accepts the connection that waits, answers its requests and closes it. A fault of serving is ignored,
    /// except a failed allocation.
    fn answer(&mut self, alloc: Global) -> Result<(), LoopbackFault> {
        let (stream, _from) = self.listener.accept()?;
        limit_waiting(&stream)?;
        let mut reader = Counted::new(&stream);
        let mut writer = Counted::new(&stream);
        let served = serve(alloc, &mut reader, &mut writer, &mut self.served);
        close(stream);
        match served {
            Err(ServeFault::OutOfMemory) => Err(LoopbackFault::OutOfMemory),
            _ => Ok(()),
        }
    }

    /// Connects and sends a request, answers it, and reads to the end.
    pub(crate) fn ask<N: Net<Stream = TcpStream>>(
        &mut self,
        net: &N,
        alloc: Global,
        request: &[u8],
    ) -> Result<Vec<u8>, LoopbackFault> {
        let mut client = connect(net, self.listener.local_addr()?)?;
        client.write_all(request)?;
        self.answer(alloc)?;
        received(alloc, &client)
    }
}
