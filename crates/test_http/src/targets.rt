//! Request targets and the paths that they ask for.
use crate::pieces::{Row, check};

/// Targets of a GET request.
const TARGETS: &[Row] = &[
    ("/", "GET /"),
    ("/a/b", "GET /a/b"),
    ("//a/b", "GET //a/b"),
    ("/a/../b/.", "GET /a/../b/."),
    // Without the query.
    ("/a?b?c", "GET /a"),
    ("/?", "GET /"),
    ("/%3Fa?b", "GET /?a"),
    // Percent-decoded once; a `%` without two digits stays.
    ("/%68%C3%A9", "GET /hé"),
    ("/%c3%a9", "GET /é"),
    ("/%2541", "GET /%41"),
    ("/%2F", "GET //"),
    ("/%00", "GET /\0"),
    ("/%", "GET /%"),
    ("/%4", "GET /%4"),
    ("/%zz%41", "GET /%zzA"),
    ("/a%20b", "GET /a b"),
    ("/+", "GET /+"),
    // Bytes that are not UTF-8.
    ("/%ff", "400"),
    ("/%C3", "400"),
    // In absolute form.
    ("http://a/b?c", "GET /b"),
    ("http://a:80/%62", "GET /b"),
    ("HTTP://a/b", "GET /b"),
    ("http://a", "GET /"),
    ("http://a?b", "GET /"),
    ("http://", "400"),
    ("http:///b", "400"),
    // `*` asks for no path, and neither does a host by itself, nor a path without its slash.
    ("*", "400"),
    ("/*", "GET /*"),
    ("http://a/*", "GET /*"),
    ("*?a", "400"),
    ("a", "400"),
    ("a:80", "400"),
    ("a/b", "400"),
    // No fragment, no byte except visible ASCII, no byte that no target has.
    ("/a#b", "400"),
    ("/é", "400"),
    ("/\x7f", "400"),
    ("/<a>", "400"),
];

#[test]
fn targets(rt: HostRuntime) {
    check(
        &rt,
        rt.alloc(),
        "GET ",
        TARGETS,
        " HTTP/1.1\r\nHost: a\r\n\r\n",
    );
}
