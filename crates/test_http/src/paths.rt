//! Each path with each method.
use crate::desk::{Desk, open_desk, took};
use crate::ends::{HTML, PLAIN, Row, responds};
use crate::texts::joined;
use site_ids::Instance;
use std::process::Abort;

const NOT_FOUND: &Row = &("404 Not Found", PLAIN, "", "", "not found\n");

const NO_RELEASE: &Row = &("404 Not Found", PLAIN, "", "", "no release\n");

const UNKNOWN: &Row = &("404 Not Found", PLAIN, "", "", "unknown\n");

const LOST: &Row = &(
    "500 Internal Server Error",
    PLAIN,
    "",
    "",
    "template missing\n",
);

const FIRST: &Row = &("200 OK", HTML, "", "", "Hi\n");

const LATER: &Row = &("200 OK", HTML, "", "", "later\n");

const NONE: &Row = &("200 OK", PLAIN, "", "", "0\n");

const TWO: &Row = &("200 OK", PLAIN, "", "", "2\n");

const SEVEN: &Row = &("200 OK", PLAIN, "", "", "7\n");

const MOVED: &Row = &(
    "301 Moved Permanently",
    PLAIN,
    "Location: /h\r\n",
    "",
    "moved to /h\n",
);

const MOVED_FAR: &Row = &(
    "301 Moved Permanently",
    PLAIN,
    "Location: /%C3%A9\r\n",
    "",
    "moved to /é\n",
);

const WANTS_POST: &Row = &(
    "405 Method Not Allowed",
    PLAIN,
    "Allow: POST\r\n",
    "",
    "method not allowed\n",
);

const WANTS_GET: &Row = &(
    "405 Method Not Allowed",
    PLAIN,
    "Allow: GET, HEAD\r\n",
    "",
    "method not allowed\n",
);

/// Paths of two releases, and how GET is answered. HEAD is answered the same without the body. POST is
/// refused, as the methods are GET and HEAD.
const PATHS: &[(&str, &Row)] = &[
    ("/h", LATER),
    ("/@1/h", FIRST),
    ("/@2/h", LATER),
    ("/@0/h", NO_RELEASE),
    ("/@3/h", NO_RELEASE),
    ("/@18446744073709551615/", NO_RELEASE),
    ("/@1/", NOT_FOUND),
    ("/@1/%C3%A9/@2/h", NOT_FOUND),
    ("/lost", LOST),
    ("/old", MOVED),
    ("/@1/old", MOVED),
    ("/alt", MOVED_FAR),
    ("/", NOT_FOUND),
    ("/H", NOT_FOUND),
    ("/h/", NOT_FOUND),
    ("//h", NOT_FOUND),
    ("http://a/h", LATER),
    ("/_newest", TWO),
    ("/_ticket/1/5", UNKNOWN),
    ("/_ticket/4294967295/18446744073709551615", UNKNOWN),
];

/// Paths that are kept for the server and name nothing, whatever the method.
const RESERVED: &[&str] = &[
    "/_",
    "/_submit",
    "/_submit/1",
    "/_submit/1/",
    "/_submit//5",
    "/_submit/1/5/",
    "/_submit/01/5",
    "/_submit/1/05",
    "/_submit/+1/5",
    "/_submit/1/+5",
    "/_submit/1/%205",
    "/_submit/-1/5",
    "/_submit/1/x",
    "/_submit/4294967296/5",
    "/_submit/1/18446744073709551616",
    "/_submits/1/5",
    "/_ticket/00/0",
    "/_ticket/1",
    "/_newest/",
    "/_newest2",
    "/%5Fother",
    "/@",
    "/@1",
    "/@01/h",
    "/@+1/h",
    "/@x/h",
    "/@18446744073709551616/",
];

/// Checks that the method (with a space after it) and the path have this response, or only its head.
fn check_method(
    rt: &impl Abort,
    desk: &mut Desk<'_>,
    method: &str,
    path: &str,
    row: &Row,
    to_head: bool,
) {
    let request = joined(rt, desk.alloc, method, path, " HTTP/1.1\r\nHost: a\r\n\r\n");
    responds(rt, desk, request.as_str(), row, to_head);
}

/// Checks GET and HEAD.
fn check_asked(rt: &impl Abort, desk: &mut Desk<'_>, path: &str, asked: &Row) {
    check_method(rt, desk, "GET ", path, asked, false);
    check_method(rt, desk, "HEAD ", path, asked, true);
}

fn check_path(rt: &impl Abort, desk: &mut Desk<'_>, path: &str, asked: &Row, posted: &Row) {
    check_asked(rt, desk, path, asked);
    check_method(rt, desk, "POST ", path, posted, false);
}

fn check_paths(rt: &impl Abort, desk: &mut Desk<'_>, paths: &[(&str, &Row)]) {
    for &(path, row) in paths {
        check_path(rt, desk, path, row, WANTS_GET);
    }
}

fn check_reserved(rt: &impl Abort, desk: &mut Desk<'_>) {
    for path in RESERVED {
        check_path(rt, desk, path, NOT_FOUND, NOT_FOUND);
    }
}

/// Paths of submissions.
const SUBMISSIONS: &[&str] = &["/_submit/1/5", "/_submit/0/0"];

fn check_submissions(rt: &impl Abort, desk: &mut Desk<'_>) {
    for path in SUBMISSIONS {
        check_asked(rt, desk, path, WANTS_POST);
    }
}

#[test]
fn each_path_with_each_method(rt: HostRuntime) {
    let mut desk = open_desk(rt.alloc(), 2);
    check_paths(&rt, &mut desk, PATHS);
    check_reserved(&rt, &mut desk);
    check_submissions(&rt, &mut desk);
    took(&rt, &desk, 0);
    drop(desk);
}

/// Paths if there is no release, and how GET is answered if each ticket has a receipt.
const UNRELEASED: &[(&str, &Row)] = &[
    ("/h", NO_RELEASE),
    ("/@0/h", NO_RELEASE),
    ("/@1/h", NO_RELEASE),
    ("/_newest", NONE),
    ("/_ticket/1/5", SEVEN),
];

#[test]
fn without_a_release_and_with_a_receipt(rt: HostRuntime) {
    let mut desk = open_desk(rt.alloc(), 0);
    desk.receipt = Instance::new(7);
    check_paths(&rt, &mut desk, UNRELEASED);
    drop(desk);
}
