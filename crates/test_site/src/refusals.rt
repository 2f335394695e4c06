//! Each call with one failed allocation: it returns as ever; or it reports the failure, and then the next try
//! returns as ever. A try returns whether it found what it should, and drops that.
//!
//! Each test tries twice. The reason is a second program, `tools/gate/refuse-growths`: it runs each test once
//! for each allocation, and makes that one fail. The first try meets the failure, the second does not.
//! Without that program no allocation of a test fails.
use crate::calls::read_as;
use crate::comparing::{ensure, same};
use crate::releases::{V1, feed, new_releases, shows};
use crate::rows::{COMMANDS, is_answered, ticket};
use crate::sites::{Kind, copied, has, is_routed, new_site};
use command::{CommandFault, fault_line, write};
use content::{Applied, Site};
use context::{Data, DataFault};
use mustache_parse::parse;
use mustache_scan::{FaultKind, TemplateFault, scan};
use release::{AnswerFault, Releases};
use site_ids::Ticket;
use std::alloc::{AllocError, Global};
use std::process::Abort;

const TEMPLATE: &str =
    "{{#a}}\n- {{b.c}}\n{{/a}}{{^a}}{{{b}}}{{/a}}\n  {{>p}}\n{{=<% %>=}}<%! c %>";

fn has_tokens(alloc: Global) -> Result<bool, TemplateFault> {
    Ok(!scan(alloc, TEMPLATE)?.is_empty())
}

fn has_nodes(alloc: Global) -> Result<bool, TemplateFault> {
    Ok(!parse(alloc, TEMPLATE)?.nodes().is_empty())
}

/// Whether a try did not fail. Such a try must have found what it should.
fn is_found(rt: &impl Abort, tried: Result<bool, TemplateFault>) -> bool {
    match tried {
        Ok(found) => {
            ensure(rt, found, 0);
            true
        }
        Err(fault) => {
            same(rt, (fault.kind, fault.place), (FaultKind::OutOfMemory, 0));
            false
        }
    }
}

fn data_read(alloc: Global) -> Result<Data, DataFault> {
    Data::from_json(alloc, b"{\"a\":[\"x\",7,{}],\"b\":{\"c\":true},\"d\":null}")
}

fn data(rt: &impl Abort, alloc: Global) -> Data {
    match data_read(alloc) {
        Err(DataFault::OutOfMemory) => data_read(alloc).expect(rt, "data"),
        read => read.expect(rt, "data"),
    }
}

fn has_members(alloc: Global, data: &Data) -> Result<bool, AllocError> {
    let copy = data.copy(alloc)?;
    let is_whole = matches!(&copy, Data::Hash(members) if members.len() == 3);
    drop(copy);
    Ok(is_whole)
}

fn copy(rt: &impl Abort, alloc: Global, data: &Data) {
    let is_whole = match has_members(alloc, data) {
        Ok(is_whole) => is_whole,
        Err(_) => has_members(alloc, data).expect(rt, "a copy"),
    };
    ensure(rt, is_whole, 0);
}

fn check_templates(rt: &impl Abort, alloc: Global) {
    let scanned = is_found(rt, has_tokens(alloc)) || is_found(rt, has_tokens(alloc));
    let parsed = is_found(rt, has_nodes(alloc)) || is_found(rt, has_nodes(alloc));
    same(rt, (scanned, parsed), (true, true));
}

#[test]
fn templates_and_data(rt: HostRuntime) {
    check_templates(&rt, rt.alloc());
    copy(&rt, rt.alloc(), &data(&rt, rt.alloc()));
}

fn written(rt: &impl Abort, alloc: Global, ticket: Ticket, text: &str) -> Vec<u8> {
    match write(alloc, ticket, text.as_bytes()) {
        Ok(value) => value,
        Err(_) => write(alloc, ticket, text.as_bytes()).expect(rt, "a value"),
    }
}

fn is_of(rt: &impl Abort, alloc: Global, value: &[u8], ticket: Ticket) {
    let (found, _) = match read_as(alloc, value) {
        Err(CommandFault::OutOfMemory) => read_as(alloc, value).expect(rt, "a command"),
        other => other.expect(rt, "a command"),
    };
    same(rt, found, ticket);
}

const TICKET: Ticket = Ticket {
    editor: 7,
    number: 9,
};

const TEXTS: &[&str] = &[
    "put template t\n{{a}}",
    "put data d\n{\"a\":1}",
    "put route /x t d\n",
    "put redirect /y /x\n",
    "remove redirect /y\n",
    "release\n",
];

const LINE: CommandFault = CommandFault::Data(DataFault::NotJson);

fn line(rt: &impl Abort, alloc: Global) -> String {
    match fault_line(alloc, &LINE) {
        Ok(line) => line,
        Err(_) => fault_line(alloc, &LINE).expect(rt, "a line"),
    }
}

fn check_value(rt: &impl Abort, alloc: Global, text: &str) {
    let value = written(rt, alloc, TICKET, text);
    is_of(rt, alloc, value.as_slice(), TICKET);
}

fn check_line(rt: &impl Abort, alloc: Global) {
    same(rt, line(rt, alloc).as_str(), "6 Data 1 NotJson");
}

#[test]
fn values_and_lines(rt: HostRuntime) {
    for &text in TEXTS {
        check_value(&rt, rt.alloc(), text);
    }
    check_line(&rt, rt.alloc());
}

fn length_of(site: &Site) -> Option<usize> {
    match site.template("t") {
        Some(template) => Some(template.nodes().len()),
        None => None,
    }
}

/// Checks that the site takes the value with this answer. If an allocation failed, the site is as before.
fn take(rt: &impl Abort, site: &mut Site, value: &[u8], text: &str, applied: Applied) {
    let before = length_of(site);
    let mut answer = site.apply(value);
    if answer.is_err() {
        same(rt, length_of(site), before);
        answer = site.apply(value);
    }
    is_answered(rt, text, answer, applied);
}

/// Whether a site has what the commands leave.
fn is_left(site: &Site) -> bool {
    !has(site, Kind::Template, "t") && has(site, Kind::Data, "d") && is_routed(site)
}

fn is_left_in_copy(alloc: Global, site: &Site) -> Option<bool> {
    let copy = copied(alloc, site)?;
    Some(is_left(&copy))
}

fn check_copy(rt: &impl Abort, alloc: Global, site: &Site) {
    let is_left = match is_left_in_copy(alloc, site) {
        Some(is_left) => is_left,
        None => is_left_in_copy(alloc, site).expect(rt, "a copy"),
    };
    ensure(rt, is_left, 0);
}

fn take_each(rt: &impl Abort, alloc: Global, site: &mut Site) {
    for &(number, text, applied) in COMMANDS {
        let value = written(rt, alloc, ticket(number), text);
        take(rt, site, value.as_slice(), text, applied);
    }
}

fn fresh_site(rt: &impl Abort, alloc: Global) -> Box<Site> {
    match new_site(alloc) {
        Some(site) => site,
        None => new_site(alloc).expect(rt, "a site"),
    }
}

#[test]
fn sites(rt: HostRuntime) {
    let mut site = fresh_site(&rt, rt.alloc());
    take_each(&rt, rt.alloc(), &mut site);
    check_copy(&rt, rt.alloc(), &site);
}

fn lengths(releases: &Releases) -> (u64, usize) {
    (releases.newest(), releases.len())
}

/// Checks that the releases take the value with this answer. If an allocation failed, they are as before.
fn fed(rt: &impl Abort, releases: &mut Releases, value: &[u8], text: &str, applied: Applied) {
    let before = lengths(releases);
    let mut answer = feed(releases, value);
    if answer.is_err() {
        same(rt, lengths(releases), before);
        answer = feed(releases, value);
    }
    is_answered(rt, text, answer, applied);
}

/// Checks that the first release shows the first template.
fn show(rt: &impl Abort, releases: &Releases) {
    let is_right = match shows(releases, 1, "/", V1) {
        Err(AnswerFault::OutOfMemory) => shows(releases, 1, "/", V1).expect(rt, "a page"),
        other => other.expect(rt, "a page"),
    };
    ensure(rt, is_right, 1);
}

fn feed_each(rt: &impl Abort, alloc: Global, releases: &mut Releases) {
    for &(number, text, applied) in COMMANDS {
        let value = written(rt, alloc, ticket(number), text);
        fed(rt, releases, value.as_slice(), text, applied);
    }
}

fn fresh_releases(rt: &impl Abort, alloc: Global) -> Box<Releases> {
    match new_releases(alloc) {
        Some(releases) => releases,
        None => new_releases(alloc).expect(rt, "releases"),
    }
}

#[test]
fn releases(rt: HostRuntime) {
    let mut releases = fresh_releases(&rt, rt.alloc());
    feed_each(&rt, rt.alloc(), &mut releases);
    same(&rt, releases.newest(), 2);
    show(&rt, &releases);
}
