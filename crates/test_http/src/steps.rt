//! A connection that is served in passes. Every second call of its reader and of its writer comes too early.
ghost use Rattle.std.specs.Prelude.{◌≡◌};

use crate::desk::Desk;
use http_read::Counted;
use http_serve::{Connection, WriteOutcome};
use std::alloc::{AllocError, Global};
use std::io;
use std::io::{ErrorKind, Read, Write};
use test_ends::{Pieces, Sink};

/// A reader or a writer. Every second call comes too early.
#[derive(Drop)]
struct Early<T> {
    inner: T,
    is_early: bool,
}

impl<T> Early<T> {
    fn comes_early(&mut self) -> bool
        ensures { self.new.inner ≡ self.old.inner }
    {
        self.is_early = !self.is_early;
        self.is_early
    }
}

impl<R: Read> Read for Early<R> {
    ghost remaining = { λ e. R.remaining e.inner };

    fn read(&mut self, buf: &mut [u8]) -> io::Result<usize> {
        if self.comes_early() {
            return Err(io::Error::from(ErrorKind::WouldBlock));
        }
        self.inner.read(buf)
    }
}

impl<W: Write> Write for Early<W> {
    ghost contents = { λ e. W.contents e.inner };

    fn write(&mut self, buf: &[u8]) -> io::Result<usize> {
        if self.comes_early() {
            return Err(io::Error::from(ErrorKind::WouldBlock));
        }
        self.inner.write(buf)
    }

    fn flush(&mut self) -> io::Result<()> {
        self.inner.flush()
    }
}

/// A connection with its reader and its writer.
#[derive(Drop)]
struct Client<'a> {
    connection: Connection,
    reader: Counted<Early<Pieces<'a>>>,
    writer: Counted<Early<Sink>>,
    /// Whether the writer failed.
    is_broken: bool,
}

/// How many bytes a writer takes before it fails, and how many at a time.
pub(crate) type Room = (usize, usize);

pub(crate) const AMPLE: Room = (usize::MAX, usize::MAX);

fn connected(alloc: Global, reader: Pieces<'_>, room: Room) -> Client<'_> {
    let (room, piece) = room;
    let sink = Sink {
        taken: Vec::new(alloc),
        room,
        piece,
    };
    Client {
        connection: Connection::new(alloc),
        reader: Counted::new(Early {
            inner: reader,
            is_early: false,
        }),
        writer: Counted::new(Early {
            inner: sink,
            is_early: false,
        }),
        is_broken: false,
    }
}

impl Client<'_> {
    /// Reads once, if bytes may be read. If an allocation fails, it reads again.
    fn hear(&mut self) -> Result<(), AllocError> {
        if self.connection.may_read() && self.connection.read_from(&mut self.reader).is_err() {
            let _ = self.connection.read_from(&mut self.reader)?;
        }
        Ok(())
    }

    /// Answers the requests that are there, a hundred at most.
    fn answer(&mut self, desk: &mut Desk<'_>) -> Result<(), AllocError> {
        let mut spans = Vec::new(desk.alloc);
        for _ in 0..100 {
            if !self.connection.advance(desk.alloc, desk, &mut spans)? {
                break;
            }
        }
        Ok(())
    }

    /// Writes once, if something waits.
    fn tell(&mut self) {
        if self.connection.owes() {
            self.is_broken = self.connection.write_to(&mut self.writer) == WriteOutcome::Failed;
        }
    }

    /// A pass of a server over the connection.
    fn pass(&mut self, desk: &mut Desk<'_>) -> Result<(), AllocError> {
        self.hear()?;
        self.answer(desk)?;
        self.tell();
        Ok(())
    }

    /// Makes passes until the connection is over, 20,000 at most.
    fn passes(&mut self, desk: &mut Desk<'_>) -> Result<(), AllocError> {
        for _ in 0..20_000 {
            if self.connection.is_done() {
                break;
            }
            self.pass(desk)?;
        }
        Ok(())
    }

    /// Reads once, answers what is there, and writes once: each second call comes too early.
    fn writes_once(&mut self, desk: &mut Desk<'_>) -> Result<(), AllocError> {
        self.hear()?;
        self.hear()?;
        self.answer(desk)?;
        self.tell();
        self.tell();
        Ok(())
    }

    /// Writes what waits. After a failed allocation it still waits.
    fn finish(&mut self) {
        for _ in 0..20_000 {
            self.tell();
        }
    }

    fn into_run(self, end: Result<(), AllocError>) -> Run {
        let Client {
            connection,
            reader: _reader,
            writer,
            is_broken,
        } = self;
        let run = Run {
            result: end,
            is_over: connection.is_done(),
            is_broken,
            answered: connection.answered(),
            written: writer.into_inner().inner.into_taken(),
        };
        drop(connection);
        run
    }
}

/// What came of a connection.
#[derive(Drop)]
pub(crate) struct Run {
    /// Whether an allocation failed as a request was answered.
    pub result: Result<(), AllocError>,
    pub is_over: bool,
    /// Whether the writer failed.
    pub is_broken: bool,
    pub answered: u32,
    pub written: Vec<u8>,
}

pub(crate) fn led(desk: &mut Desk<'_>, reader: Pieces<'_>, room: Room) -> Run {
    let mut client = connected(desk.alloc, reader, room);
    let end = client.passes(desk);
    client.finish();
    client.into_run(end)
}

/// How many requests are answered before anything is written, and how many bytes the first write then has.
/// `None` if an allocation failed.
pub(crate) fn waits(desk: &mut Desk<'_>, reader: Pieces<'_>) -> Option<(u32, usize)> {
    let mut client = connected(desk.alloc, reader, AMPLE);
    let end = client.writes_once(desk);
    let run = client.into_run(end);
    let waited = (run.answered, run.written.len());
    let is_ok = run.result.is_ok();
    drop(run);
    is_ok.then_some(waited)
}
