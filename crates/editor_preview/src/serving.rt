//! A folder as it is on disk, served to browsers.
use crate::previewed::Previewed;
use crate::source::Source;
use crate::visitors::Visitors;
use editor_common::{EditorFault, now, passed, rest, say};
use std::alloc::Global;
use std::io::{self, Write};
use std::net::{Net, SocketAddr, TcpListener, TcpStream};
use std::rt::{Clock, Files};

/// After how many milliseconds the folder is looked at again if nobody asks for a page. A fault is reported
/// with at most this delay.
const LOOK: u64 = 300;

/// How many milliseconds it sleeps if nothing came and nothing was sent.
const REST: u64 = 10;

fn bind<N: Net<Listener = TcpListener, Stream = TcpStream>>(
    net: &N,
    address: SocketAddr,
) -> io::Result<TcpListener> {
    let listener = TcpListener::bind(net, address)?;
    listener.set_nonblocking(true)?;
    Ok(listener)
}

fn listen<N: Net<Listener = TcpListener, Stream = TcpStream>>(
    net: &N,
    alloc: Global,
    http: &str,
) -> Result<TcpListener, EditorFault> {
    let Ok(address) = http.parse::<SocketAddr>() else {
        return Err(EditorFault::Stop(format!(in alloc;
            "{http}: give an IP address and a port, as 127.0.0.1:8000"
        )?));
    };
    match bind(net, address) {
        Ok(listener) => Ok(listener),
        Err(fault) => Err(EditorFault::Stop(format!(in alloc; "{http}: {fault}")?)),
    }
}

fn tell<W: Write>(
    alloc: Global,
    out: &mut W,
    listener: &TcpListener,
    folder: &str,
) -> Result<(), EditorFault> {
    let Ok(address) = listener.local_addr() else {
        return Ok(());
    };
    let line = format!(in alloc; "http://{address}/ shows {folder} as it is; Ctrl-C ends it")?;
    Ok(say(out, line.as_str())?)
}

/// Answers all requests, each by the folder as it is then.
fn serve<R: Files + Net<Stream = TcpStream> + Clock + AllocGlobal + Clone + Drop, E: Write>(
    rt: &R,
    err: &mut E,
    source: &mut Source<'_>,
    listener: &TcpListener,
    previewed: &mut Previewed,
) -> Result<(), EditorFault> {
    let since = now(rt)?;
    let mut visitors = Visitors::new(rt.alloc());
    let mut looked = 0;
    for _ in 0..u64::MAX {
        let time = passed(rt, since)?;
        visitors.let_in(listener, time)?;
        let came = visitors.read_each(time)?;
        if came || time.saturating_sub(looked) >= LOOK {
            source.show(rt, err, previewed)?;
            looked = time;
        }
        let went = visitors.answer_each(previewed, time)?;
        visitors.part(time);
        if !came && !went {
            rest(rt, REST);
        }
    }
    Ok(())
}

/// Serves a folder at an address, as it is on disk at each request. If the folder has a fault, each page
/// shows what is wrong instead. What is wrong is reported whenever it changes. The preview runs until it is
/// ended.
pub fn preview<
    R: Files + Net<Listener = TcpListener, Stream = TcpStream> + Clock + AllocGlobal + Clone + Drop,
    W: Write,
    E: Write,
>(
    rt: &R,
    out: &mut W,
    err: &mut E,
    folder: &str,
    http: &str,
    ignore: bool,
) -> Result<u8, EditorFault> {
    let mut source = Source::new(rt.alloc(), folder, ignore);
    let mut previewed = source.open(rt, err)?;
    let listener = listen(rt, rt.alloc(), http)?;
    tell(rt.alloc(), out, &listener, folder)?;
    serve(rt, err, &mut source, &listener, &mut previewed)?;
    Ok(0)
}
