//! The reading of a request, which goes on as its pieces come.
use http_read::{Counted, Inbox, Incoming, Progress, advance};
use httparse::spans::HeaderSpan;
use std::alloc::{AllocError, Global};

/// How far the request is read, what came and is not yet used, and room for where field lines are.
#[derive(Drop)]
pub(crate) struct Reading {
    pub progress: Progress,
    pub inbox: Inbox,
    pub spans: Vec<HeaderSpan>,
}

impl Reading {
    pub(crate) fn new(alloc: Global) -> Reading {
        Reading {
            progress: Progress::Head,
            inbox: Inbox::new(alloc),
            spans: Vec::new(alloc),
        }
    }

    /// Whether there was room for a piece, it was taken whole, and no allocation failed.
    pub(crate) fn takes(&mut self, piece: &[u8]) -> bool {
        if self.inbox.is_full() {
            return false;
        }
        match self.inbox.read_from(&mut Counted::new(piece)) {
            Ok(Ok(taken)) => taken == piece.len(),
            _ => false,
        }
    }

    /// Reads on in what the inbox holds. The call has a long contract. So this function has the call by
    /// itself, and promises nothing of it.
    pub(crate) fn go_on(&mut self, alloc: Global) -> Result<Option<Incoming>, AllocError> {
        advance(alloc, &mut self.progress, &mut self.inbox, &mut self.spans)
    }
}
