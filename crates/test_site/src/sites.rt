//! A site, by the values that it takes, and a copy of it. A site is boxed, since a box is dropped in one
//! step, and lent to what checks it.
use crate::comparing::ensure;
use crate::rows::{Row, is_answered, value_of};
use content::{Applied, Site};
use context::Data;
use mustache_parse::{Node, Template};
use std::alloc::Global;
use std::process::Abort;

/// A site of no values. None if an allocation failed.
pub(crate) fn new_site(alloc: Global) -> Option<Box<Site>> {
    Box::new(alloc, Site::new(alloc)).ok()
}

/// None if an allocation failed.
pub(crate) fn copied(alloc: Global, site: &Site) -> Option<Box<Site>> {
    Box::new(alloc, site.copy().ok()?).ok()
}

/// Checks the answers to these commands.
fn take_all(rt: &impl Abort, alloc: Global, site: &mut Site, rows: &[Row]) {
    for &(number, text, applied) in rows {
        let value = value_of(rt, alloc, number, text);
        is_answered(rt, text, site.apply(&value), applied);
    }
}

#[derive(Clone, Copy)]
pub(crate) enum Kind {
    Template,
    Partial,
    Data,
    Route,
    Redirect,
}

pub(crate) fn has(site: &Site, kind: Kind, name: &str) -> bool {
    match kind {
        Kind::Template => site.template(name).is_some(),
        Kind::Partial => site.partial(name).is_some(),
        Kind::Data => site.data(name).is_some(),
        Kind::Route => site.route(name).is_some(),
        Kind::Redirect => site.redirect(name).is_some(),
    }
}

/// Whether something of a kind has a name.
type Has = (Kind, &'static str, bool);

fn check_has(rt: &impl Abort, site: &Site, rows: &[Has]) {
    for &(kind, name, is_there) in rows {
        ensure(rt, has(site, kind, name) == is_there, name);
    }
}

/// Checks the answers to these commands, and what they leave.
fn check_step(rt: &impl Abort, alloc: Global, site: &mut Site, rows: &[Row], left: &[Has]) {
    take_all(rt, alloc, site, rows);
    check_has(rt, site, left);
}

/// Whether the template begins with that text.
fn prints(template: &Template, first: &str) -> bool {
    matches!(template.nodes().first(), Some(Node::Text { text, .. }) if text.as_str() == first)
}

fn has_text(site: &Site, first: &str) -> bool {
    matches!(site.template("t"), Some(t) if prints(t, first))
}

const ANSWERS: &[Row] = &[
    (1, "put template t\na", Applied::Changed),
    (1, "put template t\nb", Applied::Repeat),
    (2, "remove data absent\n", Applied::Changed),
    (3, "put template t\n{{#a}}", Applied::NotACommand),
    (3, "release\n", Applied::Released),
];

fn check_answers(rt: &impl Abort, alloc: Global, site: &mut Site) {
    take_all(rt, alloc, site, ANSWERS);
    is_answered(rt, "nothing", site.apply(b""), Applied::NotACommand);
    ensure(rt, has_text(site, "a"), 1);
}

#[test]
fn answers_of_values(rt: HostRuntime) {
    let mut site = new_site(rt.alloc()).expect(&rt, "memory");
    check_answers(&rt, rt.alloc(), &mut site);
}

/// Puts a greeting.
const GREETING: &[Row] = &[
    (1, "put template t\nHello, {{subject}}!\n", Applied::Changed),
    (2, "put partial t\n{{x}}", Applied::Changed),
    (
        3,
        "put data d\n[null,true,{\"a\":[7,\"x\"],\"b\":-1}]",
        Applied::Changed,
    ),
    (4, "put route / t d\n", Applied::Changed),
    (10, "put redirect /old /new\n", Applied::Changed),
];

/// Whether the template ends with that variable.
fn names(template: &Template, last: &str) -> bool {
    matches!(template.nodes().last(), Some(Node::Variable(name)) if name.as_str() == last)
}

fn has_name(site: &Site, last: &str) -> bool {
    matches!(site.partial("t"), Some(t) if names(t, last))
}

fn has_two(data: Option<&Data>) -> bool {
    matches!(data, Some(Data::Hash(members)) if members.len() == 2)
}

/// Whether there are three data, the last of them with two members.
fn has_three(data: Option<&Data>) -> bool {
    matches!(data, Some(Data::List(items)) if items.len() == 3 && has_two(items.last()))
}

/// Whether the root has its template and its data.
pub(crate) fn is_routed(site: &Site) -> bool {
    matches!(site.route("/"), Some(("t", "d")))
}

fn leads(site: &Site, to: &str) -> bool {
    site.redirect("/old") == Some(to)
}

fn check_greeting(rt: &impl Abort, site: &Site) {
    let shows = has_text(site, "Hello, ") && has_name(site, "x") && has_three(site.data("d"));
    ensure(rt, shows && is_routed(site) && leads(site, "/new"), shows);
}

/// A name of one kind is not a name of another.
const OTHER_KINDS: &[Has] = &[
    (Kind::Template, "d", false),
    (Kind::Data, "t", false),
    (Kind::Route, "t", false),
];

/// Commands one after another, and what each leaves.
const REMOVALS: &[(Row, &[Has])] = &[
    (
        (5, "remove template t\n", Applied::Changed),
        &[(Kind::Template, "t", false), (Kind::Partial, "t", true)],
    ),
    (
        (6, "remove route /\n", Applied::Changed),
        &[
            (Kind::Route, "/", false),
            (Kind::Redirect, "/", false),
            (Kind::Route, "/old", false),
        ],
    ),
    (
        (7, "remove route /old\n", Applied::Changed),
        &[(Kind::Redirect, "/old", true)],
    ),
];

const REDIRECTED: &[Row] = &[(8, "put redirect /old /\u{e9}?x\n", Applied::Changed)];

const UNREDIRECTED: &[Row] = &[(9, "remove redirect /old\n", Applied::Changed)];

fn check_removals(rt: &impl Abort, alloc: Global, site: &mut Site) {
    for &(row, left) in REMOVALS {
        check_step(rt, alloc, site, &[row], left);
    }
}

fn check_contents(rt: &impl Abort, alloc: Global, site: &mut Site) {
    check_step(rt, alloc, site, GREETING, OTHER_KINDS);
    check_greeting(rt, site);
    check_removals(rt, alloc, site);
    take_all(rt, alloc, site, REDIRECTED);
    ensure(rt, leads(site, "/\u{e9}?x"), 8);
    check_step(
        rt,
        alloc,
        site,
        UNREDIRECTED,
        &[(Kind::Redirect, "/old", false)],
    );
}

#[test]
fn contents_by_name(rt: HostRuntime) {
    let mut site = new_site(rt.alloc()).expect(&rt, "memory");
    check_contents(&rt, rt.alloc(), &mut site);
}

const OF_SITE: &[Row] = &[(5, "remove template t\n", Applied::Changed)];

/// A copy takes its own commands.
const OF_COPY: &[Row] = &[
    (4, "remove data d\n", Applied::Repeat),
    (5, "remove data d\n", Applied::Changed),
    (6, "remove redirect /old\n", Applied::Changed),
];

const LEFT_IN_SITE: &[Has] = &[
    (Kind::Data, "d", true),
    (Kind::Redirect, "/old", true),
    (Kind::Template, "t", false),
];

const LEFT_IN_COPY: &[Has] = &[(Kind::Data, "d", false), (Kind::Redirect, "/old", false)];

/// Checks that a site and its copy each take only their own commands.
fn check_copy(rt: &impl Abort, alloc: Global, site: &mut Site, copy: &mut Site) {
    take_all(rt, alloc, site, OF_SITE);
    check_greeting(rt, copy);
    check_step(rt, alloc, copy, OF_COPY, LEFT_IN_COPY);
    check_has(rt, site, LEFT_IN_SITE);
}

#[test]
fn a_copy_is_its_own(rt: HostRuntime) {
    let mut site = new_site(rt.alloc()).expect(&rt, "memory");
    take_all(&rt, rt.alloc(), &mut site, GREETING);
    let mut copy = copied(rt.alloc(), &site).expect(&rt, "memory");
    check_copy(&rt, rt.alloc(), &mut site, &mut copy);
}
