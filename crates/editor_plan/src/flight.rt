//! What is asked of a node for the commands on their way, and what its answers mean.
ghost use Rattle.std.specs.Prelude.{◌≡◌, ◌==◌, ℕ, List, [], ◌∷◌, ◌++◌, map, filter, not, IfOk, OnOk, OnErr};
ghost use Rattle.std.specs.List.{list_any};
ghost use Rattle.editor_plan.specs.Flights.{asks_of, submissions_of, submission_heard, receipt_heard};
ghost use Rattle.editor_plan.specs.Flights.{heard_of, after_hearing, flight_after};

use editor_ledger::{Ledger, Sent};
use std::alloc::{AllocError, Global};
use std::marker::Model;

/// The most commands that a node has taken without a receipt: as many may wait there.
pub(crate) const ROOM: usize = 64;

/// What is asked of a node for the command of a ticket.
#[derive(Clone, Copy, Debug, Drop, PartialEq, Eq)]
pub enum Ask {
    Receipt(u64),
    Submit(u64),
}

/// What an answer means.
#[derive(Clone, Copy, Debug, Drop, PartialEq, Eq)]
pub enum Heard {
    /// The ticket has its receipt.
    Received,
    /// The node has taken the command.
    Taken,
    /// Not yet: there is no receipt, or no room.
    Waits,
    /// The node refuses the command.
    Refused,
    /// Nothing that can be used.
    Nothing,
}

/// The numbers of the tickets whose commands a node has taken, and that have no receipt yet.
#[derive(Drop)]
pub struct Flight {
    taken: Vec<u64>,
}

impl Model for Flight {
    ghost Value = { List ℕ };

    ghost view = { λ f. f.taken.items };
}

fn receipts(alloc: Global, taken: &[u64]) -> Result<Vec<Ask>, AllocError>
    ensures { IfOk result (λ asks. asks.items ≡ map Ask.Receipt taken.now) }
{
    taken
        .iter()
        .map(|number| Ask::Receipt(*number))
        .collect(alloc)
}

fn is_taken(taken: &[u64], number: u64) -> bool
    ensures { result ≡ list_any (λ n. n == number) taken.now }
{
    taken.iter().any(|n| *n == number)
}

/// What a node was not given yet, as far as there is room.
fn submissions(alloc: Global, taken: &[u64], sent: &[Sent]) -> Result<Vec<Ask>, AllocError>
    ensures { IfOk result (λ asks. asks.items ≡ submissions_of taken.now (map (λ s. s.number) sent.now)) }
{
    let room = ROOM.saturating_sub(taken.len());
    sent.iter()
        .map(|sent| sent.number)
        .filter(|number| !is_taken(taken, *number))
        .take(room)
        .map(Ask::Submit)
        .collect(alloc)
}

/// What the status of the answer to a submission means.
fn submission_heard(status: u16) -> Heard
    ensures { result ≡ submission_heard status }
{
    match status {
        200 | 202 => Heard::Taken,
        503 => Heard::Waits,
        400..=499 => Heard::Refused,
        _ => Heard::Nothing,
    }
}

/// What the status of the answer to a question for a receipt means.
fn receipt_heard(status: u16) -> Heard
    ensures { result ≡ receipt_heard status }
{
    match status {
        200 => Heard::Received,
        404 => Heard::Waits,
        _ => Heard::Nothing,
    }
}

impl Flight {
    /// The flight of a node that has taken nothing yet.
    pub fn new(alloc: Global) -> Flight
        ensures { result ≡ [] }
    {
        Flight {
            taken: Vec::new(alloc),
        }
    }

    /// What is asked of the node next for what is on its way, in this order: the receipts of what it has
    /// taken, then to take what it was not given yet, as far as there is room. The answers are heard in the
    /// same order.
    pub fn asks(&self, alloc: Global, sent: &[Sent]) -> Result<Vec<Ask>, AllocError>
        ensures { IfOk result (λ asks. asks.items ≡ asks_of self.now (map (λ s. s.number) sent.now)) }
    {
        let mut asks = receipts(alloc, self.taken.as_slice())?;
        let mut more = submissions(alloc, self.taken.as_slice(), sent)?;
        asks.append(&mut more)?;
        Ok(asks)
    }

    fn take(&mut self, number: u64) -> Result<(), AllocError>
        ensures ok { OnOk result (self.new ≡ self.old ++ number ∷ []) }
        ensures err { OnErr result (self.new ≡ self.old) }
    {
        self.taken.push(number)?;
        Ok(())
    }

    fn leave(&mut self, number: u64)
        ensures { self.new ≡ filter (λ n. not (n == number)) self.old }
    {
        self.taken.retain(|n| *n != number);
    }

    /// Hears the status of an answer: a receipt takes its command off its way in the ledger, and nothing else
    /// does.
    pub fn hear(&mut self, ledger: &mut Ledger, ask: Ask, status: u16) -> Result<Heard, AllocError>
        ensures heard { IfOk result (λ heard. heard ≡ heard_of ask status) }
        ensures ledger { OnOk result (ledger.new ≡ after_hearing ask status ledger.old) }
        ensures flight { OnOk result (self.new ≡ flight_after ask status self.old) }
        ensures err_ledger { OnErr result (ledger.new ≡ ledger.old) }
        ensures err_flight { OnErr result (self.new ≡ self.old) }
    {
        match ask {
            Ask::Receipt(number) => {
                let heard = receipt_heard(status);
                if let Heard::Received = heard {
                    ledger.receive(number)?;
                    self.leave(number);
                }
                Ok(heard)
            }
            Ask::Submit(number) => {
                let heard = submission_heard(status);
                if let Heard::Taken = heard {
                    self.take(number)?;
                }
                Ok(heard)
            }
        }
    }
}
