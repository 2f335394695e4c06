//! A body that is read in pieces, and copied once.
ghost use Rattle.std.specs.Prelude.{◌≡◌, ◌≤◌, [], IfOk, OnErr};
ghost use Rattle.http_read.specs.declared.lengths.TheConstants.{BODY_LIMIT};
ghost use Rattle.http_read.specs.Framings.{framing_meant, stated};
ghost use Rattle.http_read.specs.BodyProgress.{IsUsed, left_of, chunks_left, GoesOn, ShowsStep, ShowsRead};

use crate::awaited::Awaited;
use crate::breaks::{BreakRead, pass_break};
use crate::checks::Cut;
use crate::chunk_lines::{LineRead, chunk_line};
use crate::inbox::Inbox;
use crate::lengths::BODY_LIMIT;
use crate::taking::take_held;
use crate::trailers::{TrailerRead, pass_trailer};
use httparse::spans::HeaderSpan;
use std::alloc::{AllocError, Global};

/// A body of which a part is read.
#[derive(Drop)]
pub(crate) struct Body {
    /// Its bytes so far, without what is around chunks.
    pub bytes: Vec<u8>,
    pub awaits: Awaited,
}

/// What came of reading on.
#[derive(Clone, Copy)]
pub(crate) enum BodyRead {
    /// More bytes are needed.
    Open,
    Whole,
    /// A refusal: its status.
    Refused(u16),
}

impl Body {
    /// A body that is cut so from what follows the head, of which nothing is read.
    pub(crate) fn new(alloc: Global, cut: Cut) -> Result<Body, AllocError>
        ensures used { IfOk result (λ body. IsUsed (framing_meant cut) body []) }
        ensures small { IfOk result (λ body. stated cut ≤ BODY_LIMIT → left_of body ≤ chunks_left 0) }
    {
        match cut {
            Cut::Length(n) => Ok(Body {
                bytes: Vec::with_capacity(alloc, n)?,
                awaits: Awaited::Fixed(n),
            }),
            Cut::Chunks => Ok(Body {
                bytes: Vec::with_capacity(alloc, BODY_LIMIT)?,
                awaits: Awaited::Line,
            }),
        }
    }

    /// Reads on in a body of a stated length.
    fn read_fixed(&mut self, inbox: &mut Inbox, n: usize) -> Result<Option<BodyRead>, AllocError>
        requires { self.old.awaits ≡ Awaited.Fixed n }
        ensures shows { IfOk result (λ step. ShowsStep step self.old self.new inbox.old inbox.new) }
        ensures kept { OnErr result (GoesOn self.old self.new inbox.old inbox.new) }
    {
        let missing = take_held(inbox, n, &mut self.bytes)?;
        self.awaits = Awaited::Fixed(missing);
        if missing == 0 {
            Ok(Some(BodyRead::Whole))
        } else {
            Ok(Some(BodyRead::Open))
        }
    }

    /// Reads the line of a chunk.
    fn read_line(&mut self, inbox: &mut Inbox) -> Option<BodyRead>
        requires { self.old.awaits ≡ Awaited.Line }
        ensures { ShowsStep result self.old self.new inbox.old inbox.new }
    {
        match chunk_line(inbox) {
            LineRead::Open => Some(BodyRead::Open),
            LineRead::Wrong => Some(BodyRead::Refused(400)),
            LineRead::Size(size) => {
                if size == 0 {
                    self.awaits = Awaited::Trailer;
                    None
                } else if size > BODY_LIMIT.saturating_sub(self.bytes.len()) as u64 {
                    Some(BodyRead::Refused(413))
                } else {
                    self.awaits = Awaited::Chunk(size as usize);
                    None
                }
            }
        }
    }

    /// Reads on in a chunk.
    fn read_chunk(&mut self, inbox: &mut Inbox, n: usize) -> Result<Option<BodyRead>, AllocError>
        requires { self.old.awaits ≡ Awaited.Chunk n }
        ensures shows { IfOk result (λ step. ShowsStep step self.old self.new inbox.old inbox.new) }
        ensures kept { OnErr result (GoesOn self.old self.new inbox.old inbox.new) }
    {
        let missing = take_held(inbox, n, &mut self.bytes)?;
        if missing == 0 {
            self.awaits = Awaited::Break;
            Ok(None)
        } else {
            self.awaits = Awaited::Chunk(missing);
            Ok(Some(BodyRead::Open))
        }
    }

    /// Reads the line break after a chunk.
    fn read_break(&mut self, inbox: &mut Inbox) -> Option<BodyRead>
        requires { self.old.awaits ≡ Awaited.Break }
        ensures { ShowsStep result self.old self.new inbox.old inbox.new }
    {
        match pass_break(inbox) {
            BreakRead::Open => Some(BodyRead::Open),
            BreakRead::Wrong => Some(BodyRead::Refused(400)),
            BreakRead::Passed => {
                self.awaits = Awaited::Line;
                None
            }
        }
    }

    /// Reads what comes next, if that is held.
    fn step(
        &mut self,
        inbox: &mut Inbox,
        spans: &mut Vec<HeaderSpan>,
    ) -> Result<Option<BodyRead>, AllocError>
        ensures shows { IfOk result (λ step. ShowsStep step self.old self.new inbox.old inbox.new) }
        ensures kept { OnErr result (GoesOn self.old self.new inbox.old inbox.new) }
    {
        match self.awaits {
            Awaited::Fixed(missing) => self.read_fixed(inbox, missing),
            Awaited::Line => Ok(self.read_line(inbox)),
            Awaited::Chunk(missing) => self.read_chunk(inbox, missing),
            Awaited::Break => Ok(self.read_break(inbox)),
            Awaited::Trailer => match pass_trailer(inbox, spans)? {
                TrailerRead::Open => Ok(Some(BodyRead::Open)),
                TrailerRead::Whole => Ok(Some(BodyRead::Whole)),
                TrailerRead::Refused(status) => Ok(Some(BodyRead::Refused(status))),
            },
        }
    }

    /// Reads on in what the inbox holds.
    pub(crate) fn read_on(
        &mut self,
        inbox: &mut Inbox,
        spans: &mut Vec<HeaderSpan>,
    ) -> Result<BodyRead, AllocError>
        ensures shows { IfOk result (λ read. ShowsRead read self.old self.new inbox.old inbox.new) }
        ensures kept { OnErr result (GoesOn self.old self.new inbox.old inbox.new) }
    {
        loop {
            if let Some(read) = self.step(inbox, spans)? {
                return Ok(read);
            }
        }
    }
}
