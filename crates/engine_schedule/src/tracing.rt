//! What `trace` prints.
ghost use Rattle.std.specs.Prelude.{◌≡◌, ◌++◌, IfOk, codes, decimal, slice_get, string_bytes};
ghost use Rattle.std.specs.List.{flat_map};
ghost use Rattle.site_ids.specs.declared.TheConstants.{TICKET_BYTES};
ghost use Rattle.node.specs.Effects.{messages_of};
ghost use Rattle.engine_schedule.specs.Tracing.{ballot_words, value_words, prior_words, kind_word, own_words};
ghost use Rattle.engine_schedule.specs.Tracing.{message_line, line_or_nothing};

use command::ticket;
use site_ids::{Ballot, TICKET_BYTES, Ticket, Value, Vote};
use std::alloc::{AllocError, Global};
use wire::Message;
use world::World;

/// The value's ticket, to the line's end.
fn value_words(alloc: Global, value: &Value) -> Result<String, AllocError>
    ensures { IfOk result (λ text. string_bytes text
        ≡ codes " value " ++ (value_words value.now ++ codes "\n")) }
{
    let bytes = value.as_bytes();
    if TICKET_BYTES <= bytes.len() {
        let Ticket { editor, number } = ticket(bytes);
        return format!(in alloc; " value {editor} {number}\n");
    }
    format!(in alloc; " value none\n")
}

/// A ballot between what comes before it and what follows.
fn ballot_words(
    alloc: Global,
    before: &str,
    ballot: Ballot,
    rest: &str,
) -> Result<String, AllocError>
    ensures { IfOk result (λ text. string_bytes text ≡ before.now ++ ballot_words ballot rest.now) }
{
    let (round, node) = (ballot.round(), ballot.node().number());
    format!(in alloc; "{before}{round} {node}{rest}")
}

/// The ballot and the value of a proposal, or of a vote.
fn vote_words(
    alloc: Global,
    before: &str,
    ballot: Ballot,
    value: &Value,
) -> Result<String, AllocError>
    ensures { IfOk result (λ text. string_bytes text
        ≡ before.now ++ ballot_words ballot (codes " value " ++ (value_words value.now ++ codes "\n"))) }
{
    let value = value_words(alloc, value)?;
    ballot_words(alloc, before, ballot, value.as_str())
}

fn prior_words(alloc: Global, prior: &Option<Vote>) -> Result<String, AllocError>
    ensures { IfOk result (λ text. string_bytes text ≡ prior_words prior.now) }
{
    match prior {
        Some(vote) => vote_words(alloc, " prior ", vote.ballot, &vote.value),
        None => format!(in alloc; " prior none\n"),
    }
}

fn prepare_words(alloc: Global, ballot: Ballot, count: u8) -> Result<String, AllocError>
    ensures { IfOk result (λ text. string_bytes text
        ≡ codes " count " ++ (decimal count ++ (codes " ballot " ++ ballot_words ballot (codes "\n")))) }
{
    let (round, node) = (ballot.round(), ballot.node().number());
    format!(in alloc; " count {count} ballot {round} {node}\n")
}

fn promise_words(alloc: Global, ballot: Ballot, prior: &Option<Vote>) -> Result<String, AllocError>
    ensures { IfOk result (λ text. string_bytes text
        ≡ codes " ballot " ++ ballot_words ballot (prior_words prior.now)) }
{
    let prior = prior_words(alloc, prior)?;
    ballot_words(alloc, " ballot ", ballot, prior.as_str())
}

/// The ballot that was asked for, and the higher one that was promised.
fn nack_words(alloc: Global, asked: Ballot, promised: Ballot) -> Result<String, AllocError>
    ensures { IfOk result (λ text. string_bytes text
        ≡ codes " asked " ++ ballot_words asked (codes " promised " ++ ballot_words promised (codes "\n"))) }
{
    let promised = ballot_words(alloc, " promised ", promised, "\n")?;
    ballot_words(alloc, " asked ", asked, promised.as_str())
}

fn kind_word(message: &Message) -> &'static str
    ensures { result.now ≡ kind_word message.now }
{
    match message {
        Message::Prepare { .. } => "prepare",
        Message::Promise { .. } => "promise",
        Message::Propose { .. } => "propose",
        Message::Accepted { .. } => "accepted",
        Message::Nack { .. } => "nack",
        Message::Ask { .. } => "ask",
        Message::Chosen { .. } => "chosen",
    }
}

/// What the message's line says after its sender and instance.
fn own_words(alloc: Global, message: &Message) -> Result<String, AllocError>
    ensures { IfOk result (λ text. string_bytes text ≡ own_words message.now) }
{
    match message {
        Message::Prepare { ballot, count, .. } => prepare_words(alloc, *ballot, *count),
        Message::Promise { ballot, prior, .. } => promise_words(alloc, *ballot, prior),
        Message::Propose { ballot, value, .. } | Message::Accepted { ballot, value, .. } =>
            vote_words(alloc, " ballot ", *ballot, value),
        Message::Nack {
            asked,
            promised,
            ..
        } => nack_words(alloc, *asked, *promised),
        Message::Ask { .. } => format!(in alloc; "\n"),
        Message::Chosen { value, .. } => value_words(alloc, value),
    }
}

fn message_line(alloc: Global, message: &Message) -> Result<String, AllocError>
    ensures { IfOk result (λ text. string_bytes text ≡ message_line message.now) }
{
    let (kind, sender, at) = (
        kind_word(message),
        message.from().number(),
        message.instance().number(),
    );
    let rest = own_words(alloc, message)?;
    format!(in alloc; "{kind} from {sender} instance {at}{rest}")
}

/// The line of the message at an index, and nothing past the last.
fn line_at(alloc: Global, world: &World, index: usize) -> Result<String, AllocError>
    ensures { IfOk result (λ text. string_bytes text
        ≡ line_or_nothing (slice_get (messages_of world.now.sent.items) index)) }
{
    match world.sent(index) {
        Some(message) => message_line(alloc, message),
        None => Ok(String::new(alloc)),
    }
}

/// A line for each message that any node has handed out, the oldest first.
pub(crate) fn traced(alloc: Global, world: &World) -> Result<String, AllocError>
    ensures { IfOk result (λ text. string_bytes text
        ≡ flat_map message_line (messages_of world.now.sent.items)) }
{
    let mut text = String::new(alloc);
    for index in 0..world.sent_count() {
        text.push_str(line_at(alloc, world, index)?.as_str())?;
    }
    Ok(text)
}
