//! The browsers of a preview: many connections, of which none waits for another.
use crate::previewed::Previewed;
use crate::visitor::Visitor;
use httparse::spans::HeaderSpan;
use std::alloc::{AllocError, Global};
use std::net::TcpListener;

/// How many connections there are at most.
const VISITORS: usize = 64;

#[derive(Drop)]
pub(crate) struct Visitors {
    alloc: Global,
    /// In the order in which they came.
    visitors: Vec<Visitor>,
    /// Room to read heads, for all of them.
    spans: Vec<HeaderSpan>,
}

impl Visitors {
    /// Nobody came yet.
    pub(crate) fn new(alloc: Global) -> Visitors {
        Visitors {
            alloc,
            visitors: Vec::new(alloc),
            spans: Vec::new(alloc),
        }
    }

    /// If there is no room, closes the connection that came first: its browser makes another one.
    fn make_room(&mut self) {
        if self.visitors.len() >= VISITORS {
            drop(self.visitors.remove(0));
        }
    }

    /// Accepts the connections that have come. A connection that fails at once is ignored.
    pub(crate) fn let_in(&mut self, listener: &TcpListener, now: u64) -> Result<(), AllocError> {
        for _ in 0..VISITORS {
            let Ok((stream, _from)) = listener.accept() else {
                return Ok(());
            };
            if stream.set_nonblocking(true).is_err() {
                continue;
            }
            let _ = stream.set_nodelay(true);
            self.make_room();
            self.visitors.push(Visitor::new(self.alloc, stream, now))?;
        }
        Ok(())
    }

    /// Reads once from each. Returns whether anything came.
    pub(crate) fn read_each(&mut self, now: u64) -> Result<bool, AllocError> {
        let mut came = false;
        for visitor in self.visitors.iter_mut() {
            came = visitor.read(now)? || came;
        }
        Ok(came)
    }

    /// Answers one request of each, and writes once to each. Returns whether anything was sent.
    pub(crate) fn answer_each(
        &mut self,
        previewed: &mut Previewed,
        now: u64,
    ) -> Result<bool, AllocError> {
        let mut went = false;
        for visitor in self.visitors.iter_mut() {
            visitor.answer(self.alloc, previewed, &mut self.spans)?;
            went = visitor.write(now) || went;
        }
        Ok(went)
    }

    /// Closes those that are over.
    pub(crate) fn part(&mut self, now: u64) {
        self.visitors.retain(|visitor| !visitor.is_over(now));
    }
}
