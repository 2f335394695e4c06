//! The response to what was read of a connection.
ghost use Rattle.std.specs.Prelude.{◌≡◌, ◌&&◌, ◌+◌, ◌<◌, ◌++◌, ℕ, suc, nat_lt, true, List, Option, None};
ghost use Rattle.std.specs.Prelude.{IfOk, IfSome, IfNone, MatchOption, OnErr, length};
ghost use Rattle.http_read.specs.Incoming.{Shows};
ghost use Rattle.http_read.specs.Progress.{Resumes, Waits};
ghost use Rattle.http_serve.specs.Connections.{MayRefuse};
ghost use Rattle.http_serve.specs.Exchanges.{Finds, Responds};
ghost use Rattle.http_serve.specs.Services.{MaySubmit};

use crate::outbox::{Outbox, Spare};
use crate::replies::Message;
use crate::responding::{refused, respond};
use crate::service::Service;
use http_read::{Inbox, Incoming, Progress, advance};
use httparse::spans::HeaderSpan;
use std::alloc::{AllocError, Global};

/// The most requests of a connection.
pub(crate) const REQUESTS: u32 = 100;

/// Whether a connection may be kept after the request that follows `answered` others.
fn may_keep(keep: bool, answered: u32) -> bool
    ensures { result ≡ (keep && nat_lt (answered + 1) 100) }
{
    keep && answered < REQUESTS - 1
}

/// The response to what was read, after the requests that were answered so far; none if the client sent no
/// more.
pub(crate) fn message_for<S: Service>(
    alloc: Global,
    incoming: Incoming,
    service: &mut S,
    answered: u32,
) -> Result<Option<Message>, AllocError>
    ensures response { IfOk result (λ found. (input : List ℕ) (left : Option (List ℕ))
        → Shows incoming left input
        → Finds S.offered (suc answered) service.old input left service.new found) }
    ensures few { IfOk result (λ found. IfSome found (λ message. message.stays ≡ true → answered + 1 < 100)) }
    ensures over { IfOk result (λ found. found ≡ None
        → (service.new ≡ service.old) × (incoming ≡ Incoming.Ended)) }
    ensures refused { OnErr result ((input : List ℕ) (left : Option (List ℕ)) → Shows incoming left input
        → MayRefuse S.offered input service.old service.new) }
    ensures taken { MaySubmit S.offered service.old service.new }
{
    match incoming {
        Incoming::Request(asked) => {
            let keep = may_keep(asked.keep, answered);
            Ok(Some(respond(alloc, keep, &asked, service)?))
        }
        Incoming::Refused { status, head } => { Ok(Some(refused(alloc, head, status)?)) }
        Incoming::Ended => Ok(None),
    }
}

/// The response to the next request, after the requests that were answered so far; none if it is not whole.
/// With it comes its room in the outbox, which is made before the request is answered.
pub(crate) fn next_response<S: Service>(
    alloc: Global,
    progress: &mut Progress,
    inbox: &mut Inbox,
    spans: &mut Vec<HeaderSpan>,
    service: &mut S,
    answered: u32,
    outbox: &Outbox,
) -> Result<Option<(Message, Option<Spare>)>, AllocError>
    ensures response { IfOk result (λ found. IfSome found (λ made. (used : List ℕ) → Resumes progress.old used
        → Responds S.offered (suc answered) service.old (used ++ inbox.old) (Some inbox.new) service.new
        made.0.stays made.0.bytes.items)) }
    ensures next { IfOk result (λ found. IfSome found (λ _. progress.new ≡ Progress.Head)) }
    ensures few { IfOk result (λ found. IfSome found (λ made. made.0.stays ≡ true → answered + 1 < 100)) }
    ensures room { IfOk result (λ found. IfSome found (λ made.
        MatchOption made.1 (length outbox.now ≡ 0) (λ _. 0 < length outbox.now))) }
    ensures waits { IfOk result (λ found. IfNone found
        (Waits progress.old progress.new inbox.old inbox.new × (service.new ≡ service.old))) }
    ensures refused { OnErr result ((used : List ℕ) → Resumes progress.old used
        → MayRefuse S.offered (used ++ inbox.old) service.old service.new) }
    ensures taken { MaySubmit S.offered service.old service.new }
{
    let Some(incoming) = advance(alloc, progress, inbox, spans)? else {
        return Ok(None);
    };
    let spare = outbox.spare(alloc)?;
    match message_for(alloc, incoming, service, answered)? {
        Some(message) => Ok(Some((message, spare))),
        None => Ok(None),
    }
}
