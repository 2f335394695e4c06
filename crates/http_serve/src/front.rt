//! What a request asks for, as its first bytes show, before it is read.
ghost use Rattle.std.specs.Prelude.{ℕ, List, MatchOption, codes};
ghost use Rattle.http_serve.specs.Fronts.{Gets, GetsReceipt};
ghost use Rattle.http_serve.specs.Paths.{IsTicketPath};

use crate::resource::{after, first_of, ticket_in};
use site_ids::Ticket;

/// The target of a GET request that begins with these bytes.
fn target_of(bytes: &[u8]) -> Option<&[u8]>
    ensures { MatchOption result ((target : List ℕ) → ¬ (Gets bytes.now target))
        (λ target. Gets bytes.now target.now) }
{
    let rest = after(bytes, b"GET ")?;
    let end = first_of(b' ', rest)?;
    Some(&rest[..end])
}

/// The ticket whose receipt the path names.
fn receipt_of(path: &[u8]) -> Option<Ticket>
    ensures { MatchOption result ((ticket : Ticket) → ¬ (IsTicketPath (codes "/_ticket/") path.now ticket))
        (IsTicketPath (codes "/_ticket/") path.now) }
{
    ticket_in(after(path, b"/_ticket/")?)
}

/// The ticket whose receipt a request that begins with these bytes asks for.
pub(crate) fn receipt_asked(bytes: &[u8]) -> Option<Ticket>
    ensures { MatchOption result ((ticket : Ticket) → ¬ (GetsReceipt bytes.now ticket))
        (GetsReceipt bytes.now) }
{
    receipt_of(target_of(bytes)?)
}
