//! Sends the commands that are on their way until each has its receipt.
ghost use Rattle.std.specs.Prelude.{◌≡◌, true, string_bytes, IfErr, IfOk, IsOk, OnOk};
ghost use Rattle.editor_ledger.specs.Steps.{is_idle};
ghost use Rattle.editor_plan.specs.Moves.{HearsAnswers};
ghost use Rattle.editor_group.specs.Delivering.{EndsDelivery, EndsExchange, IsOfNode, NamesNode};

use crate::address::Address;
use crate::asking::ask_within;
use crate::group::Group;
use crate::progress::tell_progress;
use editor_common::{EditorFault, now, passed, rest};
use editor_files::Saved;
use editor_http::{NodeAnswer, Question};
use editor_ledger::Ledger;
use editor_plan::{Ask, Came, DeliveryClock, Flight, Heard, LONGEST_REST, Progress, Step};
use site_ids::Ticket;
use std::alloc::{AllocError, Global};
use std::io::Write;
use std::net::{Net, TcpStream};
use std::rt::{Clock, Files};
use std::time::Instant;

/// The text of the command that is on its way with this number; empty if none is.
fn text_under(ledger: &Ledger, number: u64) -> &str {
    match ledger.sent().iter().find(|sent| sent.number == number) {
        Some(sent) => sent.text.as_str(),
        None => "",
    }
}

fn question(ledger: &Ledger, ask: Ask) -> Question<'_> {
    let editor = ledger.editor();
    match ask {
        Ask::Receipt(number) => Question::Receipt(Ticket { editor, number }),
        Ask::Submit(number) => {
            Question::Submit(Ticket { editor, number }, text_under(ledger, number))
        }
    }
}

/// The answers of a node to what is asked of it.
fn answers_of<N: Net<Stream = TcpStream>>(
    net: &N,
    alloc: Global,
    node: &Address,
    ledger: &Ledger,
    asks: &[Ask],
    within: u64,
) -> Result<Vec<NodeAnswer>, AllocError> {
    let questions: Vec<Question<'_>> = asks
        .iter()
        .map(|ask| question(ledger, *ask))
        .collect(alloc)?;
    ask_within(net, alloc, node, &questions, within)
}

/// What was refused, and the words of the answer; or why this client is kept out.
fn why_refused(
    alloc: Global,
    node: &Address,
    ledger: &Ledger,
    ask: Ask,
    answer: &NodeAnswer,
) -> Result<String, AllocError> {
    if let Some(why) = node.barred(answer) {
        return format!(in alloc; "{why}");
    }
    let head = match ask {
        Ask::Submit(number) => text_under(ledger, number).lines().next().unwrap_or(""),
        Ask::Receipt(_) => "",
    };
    let status = answer.status;
    let said = str::from_utf8(&answer.body).unwrap_or("").trim_end();
    format!(in alloc; "{head}: answered {status} {said}")
}

/// The same, with the node's URL before it.
fn refusal(
    alloc: Global,
    node: &Address,
    ledger: &Ledger,
    ask: Ask,
    answer: &NodeAnswer,
) -> Result<String, AllocError>
    ensures { IfOk result (λ words. NamesNode node.now (string_bytes words)) }
{
    let why = why_refused(alloc, node, ledger, ask, answer)?;
    let url = node.url.as_str();
    format!(in alloc; "{url}: {why}")
}

/// The fault of a command that a node refuses.
fn refused(
    alloc: Global,
    node: &Address,
    ledger: &Ledger,
    ask: Ask,
    answer: &NodeAnswer,
) -> EditorFault
    ensures { IsOfNode node.now result }
{
    match refusal(alloc, node, ledger, ask, answer) {
        Ok(words) => EditorFault::Stop(words),
        Err(lack) => EditorFault::from(lack),
    }
}

/// Hears an answer. A refusal ends the publication.
fn hear(
    alloc: Global,
    flight: &mut Flight,
    node: &Address,
    saved: &mut Saved<'_>,
    ask: Ask,
    answer: &NodeAnswer,
) -> Result<(), EditorFault>
    ensures hears { HearsAnswers saved.old.ledger.now saved.new.ledger.now }
    ensures faults { IfErr result (IsOfNode node.now) }
{
    match saved.hear(flight, ask, answer.status)? {
        Heard::Refused => Err(refused(alloc, node, saved.ledger(), ask, answer)),
        _ => Ok(()),
    }
}

/// Hears answers, which come in the order of what was asked.
fn hear_all(
    alloc: Global,
    flight: &mut Flight,
    node: &Address,
    saved: &mut Saved<'_>,
    asks: &[Ask],
    answers: &[NodeAnswer],
) -> Result<(), EditorFault>
    ensures hears { HearsAnswers saved.old.ledger.now saved.new.ledger.now }
    ensures faults { IfErr result (IsOfNode node.now) }
{
    for (ask, answer) in asks.iter().zip(answers) {
        hear(alloc, flight, node, saved, *ask, answer)?;
    }
    Ok(())
}

/// Asks a node over one connection, and waits `within` milliseconds for an answer. The result says whether it
/// answered.
fn exchange<N: Net<Stream = TcpStream>>(
    net: &N,
    alloc: Global,
    flight: &mut Flight,
    node: &Address,
    saved: &mut Saved<'_>,
    within: u64,
) -> Result<bool, EditorFault>
    ensures hears { HearsAnswers saved.old.ledger.now saved.new.ledger.now }
    ensures faults { IfErr result (IsOfNode node.now) }
{
    let asks = flight.asks(alloc, saved.ledger().sent())?;
    let answers = answers_of(net, alloc, node, saved.ledger(), &asks, within)?;
    hear_all(alloc, flight, node, saved, &asks, &answers)?;
    Ok(!answers.is_empty())
}

/// Asks the node that is spoken to over one connection. The result says what came of it.
#[tactic(auto, using(crate::proofs::Faults::node_ends_exchange))]
fn bring<N: Net<Stream = TcpStream>>(
    net: &N,
    alloc: Global,
    flight: &mut Flight,
    group: &Group,
    saved: &mut Saved<'_>,
    within: u64,
) -> Result<Came, EditorFault>
    ensures hears { HearsAnswers saved.old.ledger.now saved.new.ledger.now }
    ensures faults { IfErr result (EndsExchange group.now) }
{
    let before = saved.ledger().sent().len();
    let answered = exchange(net, alloc, flight, group.node()?, saved, within)?;
    let after = saved.ledger().sent().len();
    Ok(match (answered, after < before) {
        (_, true) => Came::Receipt,
        (true, false) => Came::Answers,
        (false, false) => Came::Silence,
    })
}

/// Speaks to the next node, which has taken no command yet. It rests if each node was spoken to.
fn turn<C: Clock>(clock: &C, alloc: Global, flight: &mut Flight, group: &mut Group)
    ensures { group.new.nodes ≡ group.old.nodes }
{
    *flight = Flight::new(alloc);
    if group.next() {
        rest(clock, LONGEST_REST);
    }
}

/// The fault of a delivery that gives up.
fn too_slow(alloc: Global, group: &Group, patience: u64) -> EditorFault
    ensures { EndsDelivery patience group.now result }
{
    let words = format!(in alloc;
        "no progress in {patience} seconds: is a majority of the nodes running? Run it again, and it goes on"
    );
    match words {
        Ok(words) => EditorFault::Stop(words),
        Err(lack) => EditorFault::from(lack),
    }
}

/// Sends, as the clock says, until nothing is on its way.
#[tactic(auto, using(crate::proofs::Faults::exchange_ends_delivery, crate::proofs::Faults::talk_ends_delivery,))]
fn deliver_at<R: Net<Stream = TcpStream> + Files + Clock + AllocGlobal, E: Write>(
    rt: &R,
    err: &mut E,
    group: &mut Group,
    saved: &mut Saved<'_>,
    flight: &mut Flight,
    since: Instant,
    patience: u64,
) -> Result<(), EditorFault>
    ensures idle { OnOk result (is_idle saved.new.ledger.now ≡ true) }
    ensures hears { HearsAnswers saved.old.ledger.now saved.new.ledger.now }
    ensures nodes { group.new.nodes ≡ group.old.nodes }
    ensures faults { IfErr result (EndsDelivery patience group.new) }
{
    let mut progress = Progress::new(saved.ledger().sent().len());
    let mut clock = DeliveryClock::new();
    for _ in 0..u64::MAX {
        if saved.ledger().is_idle() {
            return Ok(());
        }
        let within = clock.within(passed(rt, since)?, patience);
        let came = bring(rt, rt.alloc(), flight, group, saved, within)?;
        let now = passed(rt, since)?;
        tell_progress(rt, err, group, saved, &mut progress, now, came)?;
        match clock.step(came, now, patience) {
            Step::Again(millis) => rest(rt, millis),
            Step::Next => turn(rt, rt.alloc(), flight, group),
            Step::GiveUp => return Err(too_slow(rt.alloc(), group, patience)),
        }
    }
    Err(EditorFault::Clock)
}

/// Sends the commands that are on their way in a saved ledger, until each has its receipt. It stays with a
/// node while receipts come from there, and gives up if none came for `patience` seconds. Meanwhile it prints
/// how far it is, and saves the ledger too.
pub fn deliver<R: Net<Stream = TcpStream> + Files + Clock + AllocGlobal, E: Write>(
    rt: &R,
    err: &mut E,
    group: &mut Group,
    saved: &mut Saved<'_>,
    patience: u64,
) -> Result<(), EditorFault>
    ensures idle { OnOk result (is_idle saved.new.ledger.now ≡ true) }
    ensures nothing { is_idle saved.old.ledger.now ≡ true → IsOk result }
    ensures hears { HearsAnswers saved.old.ledger.now saved.new.ledger.now }
    ensures nodes { group.new.nodes ≡ group.old.nodes }
    ensures faults { IfErr result (EndsDelivery patience group.new) }
{
    let nothing = saved.ledger().is_idle();
    if nothing {
        return Ok(());
    }
    let mut flight = Flight::new(rt.alloc());
    let since = now(rt)?;
    deliver_at(rt, err, group, saved, &mut flight, since, patience)
}
