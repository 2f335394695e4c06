//! Each public call of the crates below that allocates, once with ample memory. What a call made is lent to
//! what looks at it.
use crate::comparing::{ensure, same};
use command::{Action, CommandFault, fault_line, read, write};
use context::{Data, DataFault, Frame, resolve};
use mustache_parse::{Node, parse};
use mustache_scan::{FaultKind, TemplateFault, Token, TokenKind, scan};
use site_ids::Ticket;
use std::alloc::{AllocError, Global};
use std::process::Abort;

const TOKENS: &[Token<'static>] = &[
    Token {
        kind: TokenKind::Literal,
        inside: "",
        place: 0,
        text: "Hello, ",
        indent: "",
        is_alone: false,
    },
    Token {
        kind: TokenKind::Variable,
        inside: "subject",
        place: 7,
        text: "{{ subject }}",
        indent: "",
        is_alone: false,
    },
    Token {
        kind: TokenKind::Literal,
        inside: "",
        place: 20,
        text: "!\n",
        indent: "",
        is_alone: false,
    },
];

#[test]
fn scanning(rt: HostRuntime) {
    let tokens = scan(rt.alloc(), "Hello, {{ subject }}!\n").expect(&rt, "tokens");
    assert!(rt; tokens.as_slice() == TOKENS);
}

fn printed(alloc: Global, nodes: &[Node]) -> Result<String, AllocError> {
    format!(in alloc; "{nodes:?}")
}

const NODES: &str = "[Text { text: \"a\", leads: true, trails: true }, Variable(\"b\")]";

#[test]
fn parsing(rt: HostRuntime) {
    let template = parse(rt.alloc(), "a{{b}}").expect(&rt, "a template");
    let nodes = printed(rt.alloc(), template.nodes()).expect(&rt, "memory");
    same(&rt, nodes.as_str(), NODES);
}

/// What the data has under a name.
fn found(data: &Data, name: &str) -> &'static str {
    match resolve(&Frame { data, below: None }, name) {
        Some(Data::Int(8)) => "8",
        Some(Data::Null) => "null",
        Some(Data::Hash(_)) => "a hash",
        Some(_) => "another one",
        None => "none",
    }
}

const NAMES: &[(&str, &str)] = &[("a", "8"), ("b", "null"), ("c", "none"), (".", "a hash")];

fn check_names(rt: &impl Abort, data: &Data) {
    for &(name, value) in NAMES {
        ensure(rt, found(data, name) == value, name);
    }
}

#[test]
fn reading_data(rt: HostRuntime) {
    let json = b"{\"a\":7,\"b\":null,\"a\":8}";
    let data = Data::from_json(rt.alloc(), json).expect(&rt, "data");
    check_names(&rt, &data);
}

/// Nested lists: this many, each in the one before it.
fn nested(alloc: Global, lists: usize) -> Result<Vec<u8>, AllocError> {
    let mut json = Vec::new(alloc);
    json.resize(lists, b'[')?;
    json.resize(lists.saturating_mul(2), b']')?;
    Ok(json)
}

fn items_of(data: &Data) -> usize {
    match data {
        Data::List(items) => items.len(),
        _ => 0,
    }
}

/// How many items the outermost of nested lists has.
fn outermost(rt: &impl Abort, alloc: Global, lists: usize) -> Result<usize, DataFault> {
    let json = nested(alloc, lists).expect(rt, "memory");
    let data = Data::from_json(alloc, &json)?;
    let items = items_of(&data);
    drop(data);
    Ok(items)
}

#[test]
fn lists_nest_127_deep(rt: HostRuntime) {
    same(&rt, outermost(&rt, rt.alloc(), 127), Ok(1));
    let deeper = outermost(&rt, rt.alloc(), 128);
    same(&rt, deeper, Err(DataFault::NotJson));
}

const RELEASE: &[u8] = b"\x00\x00\x00\x01\x00\x00\x00\x00\x00\x00\x00\x05release\n";

const TICKET: Ticket = Ticket {
    editor: 1,
    number: 5,
};

#[test]
fn writing_values(rt: HostRuntime) {
    let value = write(rt.alloc(), TICKET, b"release\n").expect(&rt, "memory");
    assert!(rt; value.as_slice() == RELEASE);
}

/// The ticket of a value, and whether it is a release.
pub(crate) fn read_as(alloc: Global, value: &[u8]) -> Result<(Ticket, bool), CommandFault> {
    let command = read(alloc, value)?;
    let is_release = matches!(&command.action, Action::Release);
    Ok((command.ticket, is_release))
}

#[test]
fn reading_values(rt: HostRuntime) {
    let release = read_as(rt.alloc(), RELEASE);
    ensure(&rt, release == Ok((TICKET, true)), TICKET.number);
}

#[test]
fn printing_a_fault_of_a_template(rt: HostRuntime) {
    let fault = TemplateFault {
        kind: FaultKind::WrongEnd,
        place: 6,
    };
    let line = fault_line(rt.alloc(), &CommandFault::Template(fault)).expect(&rt, "a line");
    same(&rt, line.as_str(), "5 Template 6 WrongEnd at 6");
}

#[test]
fn printing_a_fault_of_data(rt: HostRuntime) {
    let fault = CommandFault::Data(DataFault::NotWhole);
    let line = fault_line(rt.alloc(), &fault).expect(&rt, "a line");
    same(&rt, line.as_str(), "6 Data 2 NotWhole");
}
