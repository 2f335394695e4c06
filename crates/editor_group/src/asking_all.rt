//! The same questions to several nodes at once: several silent nodes take no more time than one.
ghost use Rattle.std.specs.Prelude.{◌≡◌, length, vec_len, IfOk};

use crate::address::Address;
use crate::asking::{connect_within, read_answers, write_questions};
use editor_common::{TalkFault, now, passed, rest};
use editor_http::{Barred, NodeAnswer, Question};
use std::alloc::{AllocError, Global};
use std::io;
use std::net::{Net, TcpStream};
use std::rt::Clock;
use std::time::{Duration, Instant};

/// How many milliseconds the nodes have in all to take their connections.
const CONNECTING: u64 = 3_000;

/// How many milliseconds pass between two checks for answers.
const LOOKING: u64 = 1;

/// A node that was asked.
#[derive(Drop)]
struct Talk<'a> {
    node: &'a Address,
    stream: TcpStream,
    since: Instant,
}

/// What a node said: after how many milliseconds, and its answers in the order of the questions, fewer than
/// these if it fell silent. `fault` says why there is no connection to it.
#[derive(Drop)]
pub(crate) struct Said<'a> {
    pub node: &'a Address,
    pub millis: u64,
    pub answers: Vec<NodeAnswer>,
    pub fault: Option<io::Error>,
}

/// The first status by which a proxy before a node says that the node gave no answer.
const BAD_GATEWAY: u16 = 502;

impl Said<'_> {
    /// Whether something answered that may be a node.
    pub(crate) fn is_answered(&self) -> bool {
        match self.answers.first() {
            Some(answer) => answer.status < BAD_GATEWAY,
            None => false,
        }
    }

    /// Whether there was a connection, and no answer over it.
    pub(crate) fn is_silent(&self) -> bool {
        self.fault.is_none() && self.answers.is_empty()
    }

    /// Why the node keeps this client out, if it does.
    pub(crate) fn barred(&self) -> Option<Barred> {
        self.node.barred(self.answers.first()?)
    }
}

/// How far the talk with a node is.
#[derive(Drop)]
enum Call<'a> {
    Waits(Talk<'a>),
    Over(Said<'a>),
}

/// What is noted of a node that is silent, or to which there is no connection.
fn silence(alloc: Global, node: &Address, fault: Option<io::Error>) -> Said<'_> {
    Said {
        node,
        millis: 0,
        answers: Vec::new(alloc),
        fault,
    }
}

/// Writes the questions over a connection, and leaves their answers for later.
fn begin_talk<'a, R: Clock + AllocGlobal>(
    rt: &R,
    stream: TcpStream,
    node: &'a Address,
    questions: &[Question<'_>],
) -> Result<Call<'a>, TalkFault> {
    let since = now(rt)?;
    write_questions(rt.alloc(), &stream, &node.authority, questions)?;
    if stream.set_nonblocking(true).is_err() {
        return Ok(Call::Over(silence(rt.alloc(), node, None)));
    }
    Ok(Call::Waits(Talk {
        node,
        stream,
        since,
    }))
}

/// Asks a node, which has `within` to take the connection.
fn begin<'a, R: Net<Stream = TcpStream> + Clock + AllocGlobal>(
    rt: &R,
    node: &'a Address,
    within: Duration,
    questions: &[Question<'_>],
) -> Result<Call<'a>, TalkFault> {
    match connect_within(rt, node.authority.host.as_str(), within) {
        Ok(stream) => begin_talk(rt, stream, node, questions),
        Err(fault) if fault.kind() == io::ErrorKind::OutOfMemory => Err(TalkFault::OutOfMemory),
        Err(fault) => Ok(Call::Over(silence(rt.alloc(), node, Some(fault)))),
    }
}

/// Asks each node, one after the other. It waits for a node's connection, but not for its answers.
fn begin_all<'a, R: Net<Stream = TcpStream> + Clock + AllocGlobal>(
    rt: &R,
    nodes: &[&'a Address],
    questions: &[Question<'_>],
) -> Result<Vec<Call<'a>>, TalkFault>
    ensures is { IfOk result (λ calls. vec_len calls ≡ length nodes.now) }
{
    let share = CONNECTING / (nodes.len() as u64).max(1);
    let mut calls = Vec::new(rt.alloc());
    for node in nodes {
        calls.push(begin(rt, node, Duration::from_millis(share), questions)?)?;
    }
    Ok(calls)
}

/// Whether bytes or the end have come over a connection.
fn has_come(stream: &TcpStream) -> bool {
    let mut byte = [0; 1];
    match stream.peek(&mut byte) {
        Ok(_) => true,
        Err(fault) => fault.kind() != io::ErrorKind::WouldBlock,
    }
}

/// Lets reads of a connection wait `millis` milliseconds.
fn set_waiting(stream: &TcpStream, millis: u64) -> io::Result<()> {
    stream.set_nonblocking(false)?;
    stream.set_read_timeout(Some(Duration::from_millis(millis.max(1))))
}

/// Reads what has come from a node. Its other answers have `left` milliseconds.
fn read_talk<'a, R: Clock + AllocGlobal>(
    rt: &R,
    talk: &Talk<'a>,
    count: usize,
    left: u64,
) -> Result<Said<'a>, TalkFault> {
    let mut said = silence(rt.alloc(), talk.node, None);
    said.millis = passed(rt, talk.since)?;
    if set_waiting(&talk.stream, left).is_ok() {
        read_answers(rt.alloc(), &talk.stream, count, &mut said.answers)?;
    }
    Ok(said)
}

/// What a node has said since the last check, if it said something.
fn news_of<'a, R: Clock + AllocGlobal>(
    rt: &R,
    call: &Call<'a>,
    count: usize,
    left: u64,
) -> Result<Option<Said<'a>>, TalkFault> {
    match call {
        Call::Waits(talk) if has_come(&talk.stream) => Ok(Some(read_talk(rt, talk, count, left)?)),
        _ => Ok(None),
    }
}

fn waits(call: &Call<'_>) -> bool {
    matches!(call, Call::Waits(_))
}

/// Checks each node that is waited for. The result says whether some still are.
fn look<R: Clock + AllocGlobal>(
    rt: &R,
    calls: &mut [Call<'_>],
    count: usize,
    left: u64,
) -> Result<bool, TalkFault>
    ensures is { length calls.new ≡ length calls.old }
{
    for call in calls.iter_mut() {
        if let Some(said) = news_of(rt, call, count, left)? {
            *call = Call::Over(said);
        }
    }
    Ok(calls.iter().any(waits))
}

/// Checks the nodes until each has answered, or `within` milliseconds have passed.
fn wait_for_all<R: Clock + AllocGlobal>(
    rt: &R,
    calls: &mut [Call<'_>],
    count: usize,
    within: u64,
) -> Result<(), TalkFault>
    ensures is { length calls.new ≡ length calls.old }
{
    let since = now(rt)?;
    for _ in 0..u64::MAX {
        let left = within.saturating_sub(passed(rt, since)?);
        if left == 0 || !look(rt, calls, count, left)? {
            break;
        }
        rest(rt, LOOKING);
    }
    Ok(())
}

/// What each node has said. A node that is still waited for counts as silent.
fn said_in(alloc: Global, calls: Vec<Call<'_>>) -> Result<Vec<Said<'_>>, AllocError>
    ensures { IfOk result (λ all. vec_len all ≡ vec_len calls.entry) }
{
    let mut all = Vec::with_capacity(alloc, calls.len())?;
    for call in calls {
        match call {
            Call::Over(said) => all.push(said)?,
            Call::Waits(talk) => all.push(silence(alloc, talk.node, None))?,
        }
    }
    Ok(all)
}

/// Asks several nodes at once. The result is what each said within `within` milliseconds, in the order of the
/// nodes.
pub(crate) fn ask_each<'a, R: Net<Stream = TcpStream> + Clock + AllocGlobal>(
    rt: &R,
    nodes: &[&'a Address],
    questions: &[Question<'_>],
    within: u64,
) -> Result<Vec<Said<'a>>, TalkFault>
    ensures is { IfOk result (λ all. vec_len all ≡ length nodes.now) }
{
    let mut calls = begin_all(rt, nodes, questions)?;
    wait_for_all(rt, calls.as_mut_slice(), questions.len(), within)?;
    Ok(said_in(rt.alloc(), calls)?)
}

/// The URLs of the nodes that are silent, each after a blank.
pub(crate) fn silent_urls(alloc: Global, all: &[Said<'_>]) -> Result<String, AllocError> {
    let mut urls = String::new(alloc);
    for said in all {
        if said.is_silent() {
            urls.push(' ')?;
            urls.push_str(said.node.url.as_str())?;
        }
    }
    Ok(urls)
}
