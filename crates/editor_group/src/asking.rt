//! Questions to a node over one connection.
ghost use Rattle.std.specs.Prelude.{◌≡◌, ◌≤◌, ℕ, [], length, vec_len, IfOk, IsOk, MatchOption};
ghost use Rattle.editor_group.specs.Numbers.{Spells, Numbers};

use crate::address::Address;
use editor_http::{Authority, NodeAnswer, NodeAnswerFault, Question, read_answer};
use engine_common::Feed;
use http_read::{Counted, write_all};
use std::alloc::{AllocError, Global};
use std::io;
use std::net::{Net, SocketAddr, TcpStream, ToSocketAddrs};
use std::time::Duration;

/// How many seconds connecting may take.
const CONNECTING: u64 = 3;

/// How many milliseconds a read or a write may wait: a node that is busy with others answers late.
const WAITING: u64 = 10_000;

/// The most questions over one connection: a node closes it after a hundred.
const QUESTIONS: usize = 100;

/// Lets a connection send at once what is written, and lets reads and writes wait `millis` milliseconds.
fn set_waiting(stream: &TcpStream, millis: u64) -> io::Result<()> {
    let wait = Some(Duration::from_millis(millis));
    stream.set_nodelay(true)?;
    stream.set_read_timeout(wait)?;
    stream.set_write_timeout(wait)
}

fn connect_to<N: Net<Stream = TcpStream>>(
    net: &N,
    address: &SocketAddr,
    within: Duration,
) -> io::Result<TcpStream> {
    let stream = TcpStream::connect_timeout(net, address, within)?;
    set_waiting(&stream, WAITING)?;
    Ok(stream)
}

/// A connection to the first address of a host that takes one within `within`.
pub(crate) fn connect_within<N: Net<Stream = TcpStream>>(
    net: &N,
    host: &str,
    within: Duration,
) -> io::Result<TcpStream> {
    let mut tried = Err(io::Error::from(io::ErrorKind::NotFound));
    for address in host.to_socket_addrs(net)? {
        tried = connect_to(net, &address, within);
        if tried.is_ok() {
            break;
        }
    }
    tried
}

/// A connection whose reads and writes wait `millis` milliseconds.
fn connect_waiting<N: Net<Stream = TcpStream>>(
    net: &N,
    host: &str,
    millis: u64,
) -> io::Result<TcpStream> {
    let stream = connect_within(net, host, Duration::from_secs(CONNECTING))?;
    set_waiting(&stream, millis)?;
    Ok(stream)
}

/// Writes a question. The result says whether it was written.
fn write_question(
    alloc: Global,
    stream: &TcpStream,
    to: &Authority,
    question: &Question<'_>,
    last: bool,
) -> Result<bool, AllocError> {
    let request = question.spelled(alloc, to, last)?;
    Ok(write_all(&mut Counted::new(stream), request.as_bytes()).is_ok())
}

/// Writes questions until one cannot be written. The last question ends the connection.
pub(crate) fn write_questions(
    alloc: Global,
    stream: &TcpStream,
    to: &Authority,
    questions: &[Question<'_>],
) -> Result<(), AllocError> {
    let last = questions.len().saturating_sub(1);
    for (i, question) in questions.iter().enumerate() {
        if !write_question(alloc, stream, to, question, i == last)? {
            break;
        }
    }
    Ok(())
}

/// The next answer over a connection; `None` if none comes.
fn next_answer(
    alloc: Global,
    reader: &mut Counted<&TcpStream>,
    feed: &mut Feed,
) -> Result<Option<NodeAnswer>, AllocError> {
    match read_answer(alloc, reader, feed) {
        Ok(answer) => Ok(Some(answer)),
        Err(NodeAnswerFault::OutOfMemory) => Err(AllocError),
        Err(_) => Ok(None),
    }
}

/// Reads answers until there are `most`, or no more come.
pub(crate) fn read_answers(
    alloc: Global,
    stream: &TcpStream,
    most: usize,
    answers: &mut Vec<NodeAnswer>,
) -> Result<(), AllocError>
    ensures few { vec_len answers.old ≤ most → vec_len answers.new ≤ most }
{
    let mut reader = Counted::new(stream);
    let mut feed = Feed::new(alloc);
    for _ in 0..most {
        if answers.len() >= most {
            break;
        }
        match next_answer(alloc, &mut reader, &mut feed)? {
            Some(answer) => answers.push(answer)?,
            None => break,
        }
    }
    Ok(())
}

/// Asks over a connection, until there are `most` answers in all. If a question cannot be written, the
/// answers to those before it are read all the same.
fn converse(
    alloc: Global,
    stream: &TcpStream,
    to: &Authority,
    questions: &[Question<'_>],
    most: usize,
    answers: &mut Vec<NodeAnswer>,
) -> Result<(), AllocError>
    ensures few { vec_len answers.old ≤ most → vec_len answers.new ≤ most }
{
    write_questions(alloc, stream, to, questions)?;
    read_answers(alloc, stream, most, answers)
}

/// Sends a node all questions at once over a connection, and reads its answers, which come in the same order.
/// It ends if there are `most` answers in all, if the connection fails or ends, or if an answer takes longer
/// than `millis` milliseconds. Then it closes the connection, since that holds one of the node's 64 seats.
fn ask_once<N: Net<Stream = TcpStream>>(
    net: &N,
    alloc: Global,
    to: &Authority,
    questions: &[Question<'_>],
    most: usize,
    millis: u64,
    answers: &mut Vec<NodeAnswer>,
) -> Result<(), AllocError>
    ensures few { vec_len answers.old ≤ most → vec_len answers.new ≤ most }
{
    match connect_waiting(net, to.host.as_str(), millis) {
        Ok(stream) => converse(alloc, &stream, to, questions, most, answers),
        Err(fault) if fault.kind() == io::ErrorKind::OutOfMemory => Err(AllocError),
        Err(_) => Ok(()),
    }
}

/// Asks a node and adds its answers, until there is one for each question or the node falls silent.
fn ask_all<N: Net<Stream = TcpStream>>(
    net: &N,
    alloc: Global,
    to: &Authority,
    questions: &[Question<'_>],
    millis: u64,
    answers: &mut Vec<NodeAnswer>,
) -> Result<(), AllocError>
    ensures few { vec_len answers.old ≡ 0 → vec_len answers.new ≤ length questions.now }
{
    let mut asked: usize = 0;
    for some in questions.chunks(QUESTIONS) {
        asked = some.len().saturating_add(asked).min(questions.len());
        ask_once(net, alloc, to, some, asked, millis, answers)?;
        if answers.len() < asked {
            break;
        }
    }
    Ok(())
}

/// A node's answers to questions, in their order: fewer than the questions if it is silent for `millis`
/// milliseconds. Without questions nothing fails.
pub(crate) fn ask_within<N: Net<Stream = TcpStream>>(
    net: &N,
    alloc: Global,
    node: &Address,
    questions: &[Question<'_>],
    millis: u64,
) -> Result<Vec<NodeAnswer>, AllocError>
    ensures few { IfOk result (λ answers. vec_len answers ≤ length questions.now) }
    ensures nothing { questions.now ≡ [] → IsOk result }
{
    let mut answers = Vec::new(alloc);
    if !questions.is_empty() {
        ask_all(net, alloc, &node.authority, questions, millis, &mut answers)?;
    }
    Ok(answers)
}

/// A node's answers to questions, in their order: fewer than the questions if it falls silent. No clause can
/// say what a node answers. Without questions nothing fails.
pub fn ask<N: Net<Stream = TcpStream>>(
    net: &N,
    alloc: Global,
    node: &Address,
    questions: &[Question<'_>],
) -> Result<Vec<NodeAnswer>, AllocError>
    ensures few { IfOk result (λ answers. vec_len answers ≤ length questions.now) }
    ensures nothing { questions.now ≡ [] → IsOk result }
{
    ask_within(net, alloc, node, questions, WAITING)
}

/// The number that a text spells, which only blanks may follow.
fn number_of(text: &str) -> Option<u64>
    ensures { MatchOption result ((n : ℕ) → ¬ (Spells text.now n)) (Spells text.now) }
{
    text.trim_end().parse().ok()
}

/// The number that a node answers.
pub(crate) fn number_in(answer: &NodeAnswer) -> Option<u64>
    ensures { MatchOption result ((n : ℕ) → ¬ (Numbers answer.now n)) (Numbers answer.now) }
{
    if answer.status != 200 {
        return None;
    }
    let text = str::from_utf8(&answer.body).ok()?;
    number_of(text)
}

/// The number of a node's newest release; `None` if the node does not say it. A node may say any number: no
/// clause can distinguish a right one from a wrong one.
pub fn newest<N: Net<Stream = TcpStream>>(
    net: &N,
    alloc: Global,
    node: &Address,
) -> Result<Option<u64>, AllocError> {
    let answers = ask(net, alloc, node, &[Question::Newest])?;
    Ok(answers.first().and_then(number_in))
}
