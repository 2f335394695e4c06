//! Serves one connection.
//!
//! `sitecluster` and tests call `serve`, which waits for its client. `sited` goes by `Server::step`, which
//! has a `Connection` for each client, so that a slow client holds up no other.
//!
//! The clauses of an exchange say that nothing was written at a fault. Over a socket, no clause says which
//! request failed.

ghost use Rattle.std.specs.Prelude.{◌≡◌, ◌⊎◌, ◌+◌, ◌<◌, ◌≤◌, ℕ, suc, true, List, None, IfOk, IfSome, IsErrOf};
ghost use Rattle.std.specs.Io.KnownBytes.{Appends};
ghost use Rattle.http_read.specs.Counted.{inside, failed, RoseByOne};
ghost use Rattle.http_read.specs.Bytes.{end_of, IsSilent, HasFailed, IsSound};
ghost use Rattle.http_read.specs.Input.{input_of, StopsAt};
ghost use Rattle.http_read.specs.Requests.{Answers, IsCutShort, stops};
ghost use Rattle.http_serve.specs.Connections.{MayRefuse, Serves};
ghost use Rattle.http_serve.specs.Exchanges.{Exchanges, Finds};
ghost use Rattle.http_serve.specs.Services.{MaySubmit, MaySubmitMany};

use crate::fault::ServeFault;
use crate::messages::message_for;
use crate::next::Next;
use crate::replies::Message;
use crate::service::Service;
use http_read::{Counted, Inbox, request, write_all};
use std::alloc::Global;
use std::io::{Read, Write};

/// The response to the next request of a connection, after those that were answered so far; none if the
/// client sent no more.
fn next_message<R: Read, S: Service>(
    alloc: Global,
    reader: &mut Counted<R>,
    inbox: &mut Inbox,
    service: &mut S,
    answered: u32,
) -> Result<Option<Message>, ServeFault>
    ensures response { IfOk result (λ found. IfSome (input_of inbox.old (R.remaining (inside reader.old)))
        (λ input. Finds S.offered (suc answered) service.old input
        (input_of inbox.new (R.remaining (inside reader.new))) service.new found)) }
    ensures few { IfOk result (λ found. IfSome found (λ message. message.stays ≡ true → answered + 1 < 100)) }
    ensures over { IfOk result (λ found. found ≡ None → service.new ≡ service.old) }
    ensures unread { IsErrOf result ServeFault.Read →
        StopsAt (input_of inbox.old (R.remaining (inside reader.old)))
        (R.remaining (inside reader.new)) IsCutShort }
    ensures ended { IsErrOf result ServeFault.EndedEarly →
        IfSome (input_of inbox.old (R.remaining (inside reader.old))) (λ input. Answers input stops) }
    ensures unasked { (IsErrOf result ServeFault.Read ⊎ IsErrOf result ServeFault.EndedEarly)
        → service.new ≡ service.old }
    ensures refused { IsErrOf result ServeFault.OutOfMemory →
        IfSome (input_of inbox.old (R.remaining (inside reader.old))) (λ input.
        MayRefuse S.offered input service.old service.new) }
    ensures unwritten { ¬ (IsErrOf result ServeFault.Write) }
    ensures taken { MaySubmit S.offered service.old service.new }
    ensures failed { IsErrOf result ServeFault.Read → RoseByOne (failed reader.old) (failed reader.new) }
    ensures quiet { ¬ (IsErrOf result ServeFault.Read) → failed reader.new ≡ failed reader.old }
{
    let incoming = request(alloc, reader, inbox)?;
    Ok(message_for(alloc, incoming, service, answered)?)
}

/// Reads the next request of a connection, after those that were answered so far, and writes its response.
///
/// The inbox is the connection's: what a client sent ahead waits there for the next call. A server that holds
/// many connections calls this for whichever has bytes; `serve` is this, again and again. After any result
/// except `Next::Stays` the connection is to be closed.
pub fn exchange<R: Read, W: Write, S: Service>(
    alloc: Global,
    reader: &mut Counted<R>,
    writer: &mut Counted<W>,
    inbox: &mut Inbox,
    service: &mut S,
    answered: u32,
) -> Result<Next, ServeFault>
    ensures answered { IfSome (input_of inbox.old (R.remaining (inside reader.old))) (λ input. (text : List ℕ)
        × Exchanges S.offered (suc answered) service.old input
        (input_of inbox.new (R.remaining (inside reader.new)))
        (R.remaining (inside reader.new)) service.new text result
        × Appends (W.contents (inside writer.old)) (W.contents (inside writer.new)) text) }
    ensures few { IfOk result (λ next. next ≡ Next.Stays → answered + 1 < 100) }
    ensures taken { MaySubmit S.offered service.old service.new }
    ensures unasked { (IsErrOf result ServeFault.Read ⊎ IsErrOf result ServeFault.EndedEarly)
        → service.new ≡ service.old }
    ensures over { IfOk result (λ next. next ≡ Next.Ended
        → (service.new ≡ service.old) × IsSilent (end_of W.contents writer.old writer.new)) }
    ensures silent { (IsErrOf result ServeFault.Read ⊎ IsErrOf result ServeFault.OutOfMemory
        ⊎ IsErrOf result ServeFault.EndedEarly) → IsSilent (end_of W.contents writer.old writer.new) }
    ensures read_failed { IsErrOf result ServeFault.Read
        → HasFailed (end_of R.remaining reader.old reader.new) }
    ensures read_sound { ¬ (IsErrOf result ServeFault.Read)
        → IsSound (end_of R.remaining reader.old reader.new) }
    ensures write_failed { IsErrOf result ServeFault.Write
        → HasFailed (end_of W.contents writer.old writer.new) }
    ensures write_sound { ¬ (IsErrOf result ServeFault.Write)
        → IsSound (end_of W.contents writer.old writer.new) }
{
    match next_message(alloc, reader, inbox, service, answered)? {
        Some(message) => match write_all(writer, message.bytes.as_slice()) {
            Ok(()) => Ok(Next::behind(message.stays)),
            Err(_) => Err(ServeFault::Write),
        },
        None => Ok(Next::Ended),
    }
}

/// Reads the requests of a connection, one after another, and writes their responses.
///
/// It ends after a response that closes the connection, or when the client sends no more: with `EndedEarly`
/// if it sent nothing at all. At a fault the earlier responses are whole. What a client sent after the last
/// request is lost: the connection is to be closed.
pub fn serve<R: Read, W: Write, S: Service>(
    alloc: Global,
    reader: &mut Counted<R>,
    writer: &mut Counted<W>,
    service: &mut S,
) -> Result<(), ServeFault>
    ensures answered { IfSome (R.remaining (inside reader.old))
        (λ input. (text : List ℕ)
        × Serves S.offered service.old input (R.remaining (inside reader.new)) service.new text result
        × Appends (W.contents (inside writer.old)) (W.contents (inside writer.new)) text) }
    ensures taken { (n : ℕ) × (n ≤ 100) × MaySubmitMany S.offered n service.old service.new }
    ensures read_failed { IsErrOf result ServeFault.Read
        → HasFailed (end_of R.remaining reader.old reader.new) }
    ensures read_sound { ¬ (IsErrOf result ServeFault.Read)
        → IsSound (end_of R.remaining reader.old reader.new) }
    ensures write_failed { IsErrOf result ServeFault.Write
        → HasFailed (end_of W.contents writer.old writer.new) }
    ensures write_sound { ¬ (IsErrOf result ServeFault.Write)
        → IsSound (end_of W.contents writer.old writer.new) }
{
    let mut inbox = Inbox::new(alloc);
    let mut answered = 0;
    loop {
        match exchange(alloc, reader, writer, &mut inbox, service, answered)? {
            Next::Stays => answered += 1,
            Next::Closes => return Ok(()),
            Next::Ended => {
                if answered == 0 {
                    return Err(ServeFault::EndedEarly);
                }
                return Ok(());
            }
        }
    }
}
