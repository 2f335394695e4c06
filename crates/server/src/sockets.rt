//! The sockets of a server.

ghost use Rattle.std.specs.Prelude.{◌≡◌, IfErr, length};
ghost use Rattle.site_ids.specs.Ids.{IsNode};
ghost use Rattle.server_faults.specs.ServerFaults.{EndsBinding};

use crate::addresses::Addresses;
use crate::shell::Shell;
use server_faults::{Cause, ServerFault};
use server_notes::Notes;
use server_pace::Times;
use std::alloc::Global;
use std::io;
use std::net::{Net, SocketAddr, TcpListener, TcpStream, UdpSocket};
use std::rt::Clock;
use std::time::Duration;

/// How many milliseconds a receive may wait.
const WAIT: u64 = 1;

/// A socket for datagrams, whose receives wait for a millisecond at most.
pub fn datagrams<R: Net>(rt: &R, at: SocketAddr) -> io::Result<UdpSocket> {
    let socket = UdpSocket::bind(rt, at)?;
    socket.set_read_timeout(Some(Duration::from_millis(WAIT)))?;
    Ok(socket)
}

/// A socket for connections.
fn connections<R: Net<Listener = TcpListener, Stream = TcpStream>>(
    rt: &R,
    at: SocketAddr,
) -> io::Result<TcpListener> {
    let listener = TcpListener::bind(rt, at)?;
    listener.set_nonblocking(true)?;
    Ok(listener)
}

/// Opens both sockets. If the system picked the server's own port, the server is found there.
fn open<R: Net<Listener = TcpListener, Stream = TcpStream>>(
    rt: &R,
    addresses: &mut Addresses,
    cause: &mut Cause,
) -> io::Result<(UdpSocket, TcpListener)>
    requires { IsNode addresses.old.cluster addresses.old.me
        × (length addresses.old.peers.items ≡ addresses.old.cluster) }
{
    let own = addresses.me.number() as usize - 1;
    let Some(at) = addresses.peers.get_mut(own) else {
        unreachable!()
    };
    cause.datagrams = true;
    let socket = datagrams(rt, *at)?;
    *at = socket.local_addr()?;
    socket.set_nonblocking(true)?;
    cause.datagrams = false;
    let listener = connections(rt, addresses.http)?;
    Ok((socket, listener))
}

/// Opens both sockets of a server.
pub(crate) fn open_sockets<R: Net<Listener = TcpListener, Stream = TcpStream> + Clock>(
    rt: &R,
    alloc: Global,
    addresses: Addresses,
    times: Times,
    notes: Notes,
    cause: &mut Cause,
) -> Result<Shell, ServerFault>
    requires { IsNode addresses.cluster addresses.me × (length addresses.peers.items ≡ addresses.cluster) }
    ensures { IfErr result EndsBinding }
{
    let mut addresses = addresses;
    match open(rt, &mut addresses, cause) {
        Ok((socket, listener)) => {
            let addresses = &addresses;
            Ok(Shell::new(rt, alloc, addresses, socket, listener, times, notes)?)
        }
        Err(e) if e.kind() == io::ErrorKind::OutOfMemory => Err(ServerFault::OutOfMemory),
        Err(e) => {
            cause.error = Some(e);
            Err(ServerFault::Socket)
        }
    }
}
