//! Requests are answered, or left while the server comes back.

ghost use Rattle.std.specs.Prelude.{◌≡◌, ◌≤◌, ℕ, IfOk, OnOk, length, true, false};
ghost use Rattle.http_serve.specs.Services.{MaySubmitMany};
ghost use Rattle.server_clients.specs.Answering.{TellsAnswered};
ghost use Rattle.server_clients.specs.Served.{offered};
ghost use Rattle.server.specs.Returning.{AnswersOrLeaves, ComesBack, IsBack};

use node::Node;
use server_clients::{Seats, Served};
use server_pace::Returning;
use site_disk::Disk;
use std::alloc::AllocError;

/// Whether a server over that node is coming back, `now` milliseconds after it began. Then requests are left.
pub(crate) fn is_returning<D: Disk>(returning: Returning, node: &Node<D>, now: u64) -> bool
    ensures returns { result ≡ true → ComesBack returning now node.now }
    ensures back { result ≡ false → IsBack returning now node.now }
{
    returning.is_due(now, node.known())
}

/// Answers the requests of each client that are there, and none while the server is coming back. Returns
/// whether there was one.
pub(crate) fn answer<D: Disk, S: Drop>(
    returning: Returning,
    seats: &mut Seats<S>,
    served: &mut Served<D>,
    now: u64,
) -> Result<bool, AllocError>
    ensures each { OnOk result (AnswersOrLeaves returning now seats.old.times served.old served.new
        seats.old.seats.items seats.new.seats.items) }
    ensures tells { IfOk result (λ answered. TellsAnswered answered
        (length seats.old.seats.items) seats.old.seats.items seats.new.seats.items) }
    ensures taken { (n : ℕ) × (n ≤ 6400) × MaySubmitMany offered n served.old served.new }
    ensures same { seats.new.times ≡ seats.old.times }
{
    if is_returning(returning, &served.node, now) {
        return Ok(false);
    }
    seats.answer_each(served, now)
}
