//! A client's connection, without what carries its bytes.
//!
//! If an allocation failed, the connection is over, and an earlier response is whole. A response of status
//! 400 closes the connection, even if it is a page's.

ghost use Rattle.std.specs.Prelude.{◌≡◌, ◌⊎◌, ◌<◌, length, true, false, IfOk, OnErr, IsTrue};
ghost use Rattle.std.specs.Prelude.{IsFalse, ◌↔◌, MatchOption};
ghost use Rattle.http_read.specs.Bytes.{end_of};
ghost use Rattle.http_serve.specs.Fronts.{AsksReceipt, HasAsked};
ghost use Rattle.http_serve.specs.declared.messages.TheConstants.{REQUESTS};
ghost use Rattle.http_serve.specs.declared.outbox.TheConstants.{WAITING};
ghost use Rattle.http_serve.specs.ConnectionSteps.{owed, is_going, IsNew, MayRead, MayAnswer, IsIdle, IsDone};
ghost use Rattle.http_serve.specs.ConnectionSteps.{failed_connection, with_response, waiting, Reads, Writes};
ghost use Rattle.http_serve.specs.ConnectionSteps.{IsAnswered, Waits, GivesUp, answered as answered_of};
ghost use Rattle.http_serve.specs.Services.{MaySubmit};

use crate::front::receipt_asked;
use crate::messages::{REQUESTS, next_response};
use crate::outbox::{Outbox, Spare};
use crate::outcomes::{ReadOutcome, WriteOutcome, is_early};
use crate::replies::Message;
use crate::service::Service;
use http_read::{Counted, Inbox, Progress};
use httparse::spans::HeaderSpan;
use site_ids::Ticket;
use std::alloc::{AllocError, Global};
use std::io::{Read, Write};

/// The state of a connection.
#[derive(Clone, Copy, Drop, PartialEq, Eq)]
pub(crate) enum ConnectionState {
    /// The client may send more.
    Open,
    /// The client sends no more: what came is answered.
    Ended,
    /// The last response was made, or none is to be made any more.
    Closing,
    /// A call failed.
    Failed,
}

/// A client's connection, without what carries its bytes: a server holds many at once, and none waits for
/// another.
///
/// A server reads with `read_from` if the connection `may_read`, makes responses with `advance`, writes with
/// `write_to` if the connection `owes` something, and closes it if it `is_done`. A client may send many
/// requests at once. Their responses wait one after another, and go out together. While 16 KB of them wait,
/// no further request is answered. Reading goes on meanwhile, up to 16 KB. After bytes that came, after the
/// end of the client's input, and after bytes that were written, `advance` is called again, until it returns
/// false.
#[derive(Drop)]
pub struct Connection {
    inbox: Inbox,
    progress: Progress,
    outbox: Outbox,
    answered: u32,
    state: ConnectionState,
}

impl ConnectionState {
    fn is_going(self) -> bool
        ensures { result ≡ is_going self }
    {
        match self {
            ConnectionState::Open | ConnectionState::Ended => true,
            ConnectionState::Closing | ConnectionState::Failed => false,
        }
    }
}

impl Connection {
    /// Nothing was read yet. It does not allocate.
    pub fn new(alloc: Global) -> Connection
        ensures { IsNew result }
    {
        Connection {
            inbox: Inbox::new(alloc),
            progress: Progress::Head,
            outbox: Outbox::new(alloc),
            answered: 0,
            state: ConnectionState::Open,
        }
    }

    /// Whether bytes may be read now.
    pub fn may_read(&self) -> bool
        ensures { IsTrue result ↔ MayRead self.now }
    {
        matches!(self.state, ConnectionState::Open) && !self.inbox.is_full()
    }

    /// Reads once. After the end of the client's input, or after a failure, nothing more is read.
    pub fn read_from<R: Read>(&mut self, reader: &mut Counted<R>) -> Result<ReadOutcome, AllocError>
        requires { MayRead self.old }
        ensures read { IfOk result (λ read. Reads read self.old self.new
            (end_of R.remaining reader.old reader.new)) }
        ensures memory { OnErr result ((self.new ≡ self.old) × (reader.new ≡ reader.old)) }
    {
        match self.inbox.read_from(reader)? {
            Ok(0) => {
                self.state = ConnectionState::Ended;
                Ok(ReadOutcome::Ended)
            }
            Ok(_) => Ok(ReadOutcome::Came),
            Err(e) if is_early(&e) => Ok(ReadOutcome::Nothing),
            Err(_) => {
                self.fail();
                Ok(ReadOutcome::Failed)
            }
        }
    }

    /// Whether the next request may be answered now, if it is there.
    fn may_answer(&self) -> bool
        ensures { IsTrue result ↔ MayAnswer self.now }
    {
        self.state.is_going() && self.outbox.has_room() && self.answered < REQUESTS
    }

    /// The ticket whose receipt the next request asks for, if that request may be answered now. Its first
    /// bytes show the ticket, and none of them is used: so a server can leave the request until the receipt
    /// is there. A path that is percent-encoded is not seen.
    pub fn asks_receipt(&self) -> Option<Ticket>
        ensures { MatchOption result ((ticket : Ticket) → ¬ (AsksReceipt self.now ticket))
            (AsksReceipt self.now) }
    {
        if !self.may_answer() || self.progress.awaits().is_some() {
            return None;
        }
        receipt_asked(self.inbox.held())
    }

    /// Whether the next request asks for a receipt, and all of it seems to be there: a blank line ends what
    /// came.
    pub fn has_asked(&self) -> bool
        ensures { IsTrue result ↔ HasAsked self.now }
    {
        if !self.inbox.held().ends_with(b"\r\n\r\n") {
            return false;
        }
        match self.asks_receipt() {
            Some(_) => true,
            None => false,
        }
    }

    /// Answers the next request, if a whole one is there and fewer than 16 KB wait to be written. Returns
    /// whether it did.
    ///
    /// At most a hundred of a connection's requests are answered. The last response says so (`Connection:
    /// close`), and so does the response to a request that is refused, or whose client wants no further one.
    /// If an allocation failed, the connection is closed too. The spans are room for where field lines are
    /// (`advance`). All connections use the same spans.
    pub fn advance<S: Service>(
        &mut self,
        alloc: Global,
        service: &mut S,
        spans: &mut Vec<HeaderSpan>,
    ) -> Result<bool, AllocError>
        ensures answered { IfOk result (λ did. did ≡ true
            → MayAnswer self.old × IsAnswered S.offered service.old service.new self.old self.new) }
        ensures idle { IfOk result (λ did. did ≡ false → (service.new ≡ service.old)
            × ((¬ (MayAnswer self.old) × (self.new ≡ self.old))
            ⊎ (MayAnswer self.old × Waits self.old self.new))) }
        ensures refused { OnErr result (MayAnswer self.old
            × GivesUp S.offered service.old service.new self.old self.new) }
        ensures taken { MaySubmit S.offered service.old service.new }
    {
        if !self.may_answer() {
            return Ok(false);
        }
        let found = next_response(
            alloc,
            &mut self.progress,
            &mut self.inbox,
            spans,
            service,
            self.answered,
            &self.outbox,
        );
        match found {
            Ok(Some((message, spare))) => {
                self.put(message, spare);
                Ok(true)
            }
            Ok(None) => {
                self.wait();
                Ok(false)
            }
            Err(refused) => {
                self.state = ConnectionState::Closing;
                Err(refused)
            }
        }
    }

    /// A response is to be written, after those that wait. After a last one nothing more is read or answered.
    fn put(&mut self, message: Message, spare: Option<Spare>)
        requires few { self.old.answered < REQUESTS }
        requires room { length (owed self.old) < WAITING }
        requires spare { MatchOption spare (length (owed self.old) ≡ 0) (λ _. 0 < length (owed self.old)) }
        ensures { self.new ≡ with_response self.old message }
    {
        self.outbox.put(message.bytes, spare);
        self.answered += 1;
        if !message.stays {
            self.state = ConnectionState::Closing;
        }
    }

    /// No whole request is there. If the client sends no more, none will be.
    fn wait(&mut self)
        ensures { self.new ≡ record self.old { state = waiting self.old.state } }
    {
        if self.state == ConnectionState::Ended {
            self.state = ConnectionState::Closing;
        }
    }

    /// A call failed: what waits is given up.
    fn fail(&mut self)
        ensures { self.new ≡ failed_connection self.old }
    {
        self.outbox.clear();
        self.state = ConnectionState::Failed;
    }

    /// Whether bytes wait to be written.
    pub fn owes(&self) -> bool
        ensures { IsTrue result ↔ (0 < length (owed self.now)) }
    {
        !self.outbox.is_empty()
    }

    /// Writes once of what waits. After a failure, or if the writer accepts no byte, the rest of it is never
    /// written, and nothing more is read or answered. Nothing is flushed.
    pub fn write_to<W: Write>(&mut self, writer: &mut Counted<W>) -> WriteOutcome
        requires { 0 < length (owed self.old) }
        ensures { Writes result self.old self.new (end_of W.contents writer.old writer.new) }
    {
        match writer.write(self.outbox.waiting()) {
            Ok(n) if n > 0 => {
                self.outbox.pass(n);
                WriteOutcome::Written
            }
            Err(e) if is_early(&e) => WriteOutcome::Nothing,
            Ok(_) | Err(_) => {
                self.fail();
                WriteOutcome::Failed
            }
        }
    }

    /// Whether the connection is to be closed: a call failed, or the last response is written whole, or the
    /// client sends no more and what it sent is answered.
    pub fn is_done(&self) -> bool
        ensures { IsTrue result ↔ IsDone self.now }
    {
        match self.state {
            ConnectionState::Open | ConnectionState::Ended => false,
            ConnectionState::Closing => self.outbox.is_empty(),
            ConnectionState::Failed => true,
        }
    }

    /// Whether a part of a request is there, or a whole one that waits to be answered.
    pub fn has_begun(&self) -> bool
        ensures { IsFalse result ↔ IsIdle self.now }
    {
        self.progress.awaits().is_some() || !self.inbox.held().is_empty()
    }

    /// How many requests were answered, 100 at most.
    pub fn answered(&self) -> u32
        ensures { result ≡ answered_of self.now }
    {
        self.answered
    }
}
