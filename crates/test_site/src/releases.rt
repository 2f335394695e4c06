//! Releases by number: the answer to each value, the newest, pages and receipts. Releases are boxed, since a
//! box is dropped in one step, and lent to what checks them.
use crate::comparing::{ensure, same};
use crate::rows::{COMMANDS, Row, is_answered, ticket, value_of};
use content::Applied;
use release::{AnswerFault, Releases};
use site_ids::MAX_INSTANCE;
use std::alloc::{AllocError, Global};
use std::process::Abort;

/// Releases of no values. None if an allocation failed.
pub(crate) fn new_releases(alloc: Global) -> Option<Box<Releases>> {
    Box::new(alloc, Releases::new(alloc)).ok()
}

/// Feeds a value, if there is an instance left for it.
pub(crate) fn feed(releases: &mut Releases, value: &[u8]) -> Result<Applied, AllocError> {
    if releases.len() >= MAX_INSTANCE as usize {
        return Err(AllocError);
    }
    releases.feed(value)
}

/// Checks the answers to the values of these commands.
fn feed_all(rt: &impl Abort, alloc: Global, releases: &mut Releases, rows: &[Row]) {
    for &(number, text, applied) in rows {
        let value = value_of(rt, alloc, number, text);
        is_answered(rt, text, feed(releases, &value), applied);
    }
}

fn receipt(releases: &Releases, number: u64) -> Option<u32> {
    let instance = releases.receipt(ticket(number))?;
    Some(instance.number())
}

/// The status of a page, its body, and the path that it moved to, if it did.
pub(crate) type Page = (u16, &'static str, Option<&'static str>);

/// Whether the page of a release at a path is this one.
pub(crate) fn shows(
    releases: &Releases,
    n: u64,
    path: &str,
    page: Page,
) -> Result<bool, AnswerFault> {
    let (status, body, location) = page;
    let answer = releases.answer(n, path)?;
    let moved = match &answer.location {
        Some(to) => location == Some(to.as_str()),
        None => location.is_none(),
    };
    let is_page = moved && answer.status == status && answer.body.as_str() == body;
    drop(answer);
    Ok(is_page)
}

/// Pages of releases by their paths.
type Pages = &'static [(u64, &'static str, Page)];

fn check_pages(rt: &impl Abort, releases: &Releases, pages: Pages) {
    for &(n, path, page) in pages {
        ensure(rt, shows(releases, n, path, page) == Ok(true), (path, n));
    }
}

pub(crate) const V1: Page = (200, "v1\n", None);

const PAGES: Pages = &[
    (1, "/", V1),
    (2, "/", (500, "template missing\n", None)),
    (1, "/x", (404, "not found\n", None)),
];

/// Whether the kept site of a release has the template.
fn has_template(releases: &Releases, n: u64) -> Option<bool> {
    let site = releases.site(n)?;
    Some(site.template("t").is_some())
}

/// Which releases there are, and whether their sites have the template.
const KEPT: &[(u64, Option<bool>)] = &[
    (0, None),
    (1, Some(true)),
    (2, Some(false)),
    (3, None),
    (u64::MAX, None),
];

fn check_kept(rt: &impl Abort, releases: &Releases) {
    for &(n, kept) in KEPT {
        let no_page = shows(releases, n, "/", V1) == Err(AnswerFault::NoSuchRelease);
        ensure(
            rt,
            has_template(releases, n) == kept && no_page == kept.is_none(),
            n,
        );
    }
}

const RECEIPTS: &[(u64, Option<u32>)] = &[(1, Some(1)), (7, Some(8)), (8, None)];

fn check_receipts(rt: &impl Abort, releases: &Releases) {
    for &(number, instance) in RECEIPTS {
        ensure(rt, receipt(releases, number) == instance, number);
    }
}

fn eight(rt: &impl Abort, alloc: Global, releases: &mut Releases) {
    same(rt, releases.newest(), 0);
    feed_all(rt, alloc, releases, COMMANDS);
    same(rt, releases.newest(), 2);
    check_pages(rt, releases, PAGES);
    check_kept(rt, releases);
    check_receipts(rt, releases);
}

#[test]
fn eight_commands(rt: HostRuntime) {
    let mut releases = new_releases(rt.alloc()).expect(&rt, "memory");
    eight(&rt, rt.alloc(), &mut releases);
}

const UNREAD: &[Row] = &[(1, "put template t\n{{", Applied::NotACommand)];

const RELEASED: &[Row] = &[
    (1, "release\n", Applied::Released),
    (1, "release\n", Applied::Repeat),
];

fn no_commands(rt: &impl Abort, alloc: Global, releases: &mut Releases) {
    is_answered(rt, "nothing", feed(releases, b""), Applied::NotACommand);
    feed_all(rt, alloc, releases, UNREAD);
    same(rt, receipt(releases, 1), None);
    feed_all(rt, alloc, releases, RELEASED);
    same(rt, releases.newest(), 1);
    same(rt, receipt(releases, 1), Some(3));
}

#[test]
fn values_that_are_no_commands(rt: HostRuntime) {
    let mut releases = new_releases(rt.alloc()).expect(&rt, "memory");
    no_commands(&rt, rt.alloc(), &mut releases);
}

/// A page that moved, in three releases: the second has a route for its path, and the third no longer has the
/// redirect.
const MOVES: &[Row] = &[
    (1, "put redirect /old /h\n", Applied::Changed),
    (2, "release\n", Applied::Released),
    (3, "put route /old t d\n", Applied::Changed),
    (4, "release\n", Applied::Released),
    (5, "remove route /old\n", Applied::Changed),
    (6, "remove redirect /old\n", Applied::Changed),
    (7, "release\n", Applied::Released),
];

const MOVED: Pages = &[
    (1, "/old", (301, "moved to /h\n", Some("/h"))),
    (2, "/old", (500, "template missing\n", None)),
    (3, "/old", (404, "not found\n", None)),
];

#[test]
fn a_page_that_moved(rt: HostRuntime) {
    let mut releases = new_releases(rt.alloc()).expect(&rt, "memory");
    feed_all(&rt, rt.alloc(), &mut releases, MOVES);
    check_pages(&rt, &releases, MOVED);
}
