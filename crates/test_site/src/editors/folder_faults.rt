//! The report of a folder's faults: the file, the place, the reason and what to do, and the line of the
//! formats.
use crate::comparing::ensure;
use crate::editors::folders::{folder, is_told};
use editor_folder::Folder;
use std::alloc::Global;
use std::process::Abort;

/// A file and its text, and the lines that report its faults.
const FILES: &[(&str, &[u8], &str)] = &[
    (
        "templates/a.mustache",
        b"a\n\xc3\xa4 {{#x}}\n{{/y}}\n",
        "templates/a.mustache:3:1: `{{/y}}` ends nothing: `{{#x}}` of line 2 is open, and ends with `{{/x}}` [5 Template 6 WrongEnd at 12]\n",
    ),
    (
        "templates/a.mustache",
        b"\xc3\xa4 {{#x}}\n",
        "templates/a.mustache:1:3: `{{#x}}` has no end: write `{{/x}}` where it ends [5 Template 7 UnclosedSection at 3]\n",
    ),
    (
        "partials/a.mustache",
        b"{{/x}}",
        "partials/a.mustache:1:1: `{{/x}}` ends nothing: no section is open: take it away, or open one before it [5 Template 5 NoSection at 0]\n",
    ),
    (
        "partials/a.mustache",
        b"<h1>{{title</h1>",
        "partials/a.mustache:1:5: the tag has no end: write `}}` after its name [5 Template 1 UnclosedTag at 4]\n",
    ),
    (
        "partials/a.mustache",
        b"{{}}",
        "partials/a.mustache:1:1: the tag has no name: write one into it, or take it away [5 Template 2 EmptyName at 0]\n",
    ),
    (
        "partials/a.mustache",
        b"{{a b}}",
        "partials/a.mustache:1:1: a name has no blank within, and no empty part between dots [5 Template 3 BadName at 0]\n",
    ),
    (
        "partials/a.mustache",
        b"{{=a=}}",
        "partials/a.mustache:1:1: the tag has to name two delimiters: `{{=<% %>=}}` [5 Template 4 BadDelimiters at 0]\n",
    ),
    (
        "data/a.json",
        b"{\"a\":1\n \"b\":2}",
        "data/a.json:2:2: no JSON: a comma is missing before this, or a colon after a key [6 Data 1 NotJson]\n",
    ),
    (
        "data/a.json",
        b"{\"a\":1,\n}",
        "data/a.json:2:1: no JSON: the comma before this has to go [6 Data 1 NotJson]\n",
    ),
    (
        "data/a.json",
        b"[1,,2]",
        "data/a.json:1:4: no JSON: one comma too many [6 Data 1 NotJson]\n",
    ),
    (
        "data/a.json",
        b"\xef\xbb\xbf{}",
        "data/a.json:1:1: the file begins with a byte order mark: save it as UTF-8 without one [6 Data 1 NotJson]\n",
    ),
    (
        "data/a.json",
        b"{\"a\": 'x'}",
        "data/a.json:1:7: no JSON: texts and keys stand between double quotes [6 Data 1 NotJson]\n",
    ),
    (
        "data/a.json",
        b"{} // x",
        "data/a.json:1:4: no JSON: there are no comments [6 Data 1 NotJson]\n",
    ),
    (
        "data/a.json",
        b"{\"a\":[1",
        "data/a.json:1:8: no JSON: the file ends too early: a `}`, a `]` or a double quote is missing [6 Data 1 NotJson]\n",
    ),
    (
        "data/a.json",
        b"{\"a\" 1}",
        "data/a.json:1:6: no JSON: a comma is missing before this, or a colon after a key [6 Data 1 NotJson]\n",
    ),
    (
        "data/a.json",
        b"[=]",
        "data/a.json:1:2: no JSON: `=` can't stand here [6 Data 1 NotJson]\n",
    ),
    (
        "data/a.json",
        b"{\"v 2.5\": 1,\n \"price\": 1.50}",
        "data/a.json:2:11: the number 1.50 is not whole, or too large: write it as a text, \"1.50\" [6 Data 2 NotWhole]\n",
    ),
    (
        "partials/a.mustache",
        b"a {{name} b\n{{x}}",
        "partials/a.mustache:1:3: the tag has one brace at its end: write `}}` after its name [5 Template 3 BadName at 2]\n",
    ),
    (
        "data/a.json",
        b"{\"a\": \"x,\n \"b\": \"y\"}",
        "data/a.json:1:10: no JSON: a text holds no line break and no tab: write \\n or \\t, or close it with a double quote [6 Data 1 NotJson]\n",
    ),
    (
        "data/a.json",
        b"{\"a\": \"x\ty\"}",
        "data/a.json:1:9: no JSON: a text holds no line break and no tab: write \\n or \\t, or close it with a double quote [6 Data 1 NotJson]\n",
    ),
    (
        "data/a.json",
        b"{\"\xc3\xa4\": \"C:\\temp\\x\"}",
        "data/a.json:1:15: no JSON: a backslash stands before one of \" \\ / b f n r t, or u and four digits: write \\\\ for itself [6 Data 1 NotJson]\n",
    ),
    (
        "data/a.json",
        b"[\"\\u00zz\"]",
        "data/a.json:1:3: no JSON: a backslash stands before one of \" \\ / b f n r t, or u and four digits: write \\\\ for itself [6 Data 1 NotJson]\n",
    ),
    (
        "data/a.json",
        b"{\"a\": \"x}",
        "data/a.json:1:10: no JSON: the file ends within a text: a double quote is missing [6 Data 1 NotJson]\n",
    ),
    (
        "data/a.json",
        b"{a: 1}",
        "data/a.json:1:2: no JSON: texts and keys stand between double quotes [6 Data 1 NotJson]\n",
    ),
    (
        "data/a.json",
        b"{\"a\": \xe2\x80\x9cx\xe2\x80\x9d}",
        "data/a.json:1:7: no JSON: texts and keys stand between double quotes (`\"`), and this is `\u{201c}` [6 Data 1 NotJson]\n",
    ),
    (
        "data/a.json",
        b"{\"a\": 1, \"b\": {\"a\": 2, \"c\": [\"a:\"]}, \"\\u0061\": 3}",
        "data/a.json:1:38: warning: the key `a` stands twice here: the later value counts\n",
    ),
    (
        "data/a.json",
        b"[18446744073709551615, true, 18446744073709551616]",
        "data/a.json:1:30: the number 18446744073709551616 is not whole, or too large: write it as a text, \"18446744073709551616\" [6 Data 2 NotWhole]\n",
    ),
    (
        "data/a.json",
        b"{\"a\":\"\xe4\"}",
        "data/a.json:1:7: no UTF-8 from here on: save the file as UTF-8\n",
    ),
    (
        "data/two words.json",
        b"{}",
        "data/two words.json: rename the file: a name is 1 to 64 of the letters a to z and A to Z, digits, _ - . and / [2 Form]\n",
    ),
    (
        "data/a!.json",
        b"{}",
        "data/a!.json: rename the file: a name is 1 to 64 of the letters a to z and A to Z, digits, _ - . and / [3 Name]\n",
    ),
    (
        "data/a.txt",
        b"",
        "data/a.txt: is no .json file: rename it, or move it out of the folder\n",
    ),
    (
        "photo.png",
        b"",
        "photo.png: is no part of a site (templates, partials, data, routes, redirects, removes): move it out of the folder, or --ignore\n",
    ),
    (
        "routes",
        b"/ t\na t d\n/a! t! d\n/a t d e\n",
        "routes:1:1: a line is PATH TEMPLATE DATA, three words\nroutes:2:1: a path begins with /, with neither /_ nor /@, has 200 bytes at most, and no blank\nroutes:3:1: a name is 1 to 64 of the letters a to z and A to Z, digits, _ - . and /\nroutes:4:1: a line is PATH TEMPLATE DATA, three words\n",
    ),
    (
        "redirects",
        b"/a\n/a b\n/a //b\n/@a /b\n/a /a\n/a /b c\n/a /c\n",
        "redirects:1:1: a line is PATH TARGET, two words\nredirects:2:1: a path and its target begin with /, with neither /_ nor /@, have 200 bytes at most, and no blank; a target begins with only one /\nredirects:3:1: a path and its target begin with /, with neither /_ nor /@, have 200 bytes at most, and no blank; a target begins with only one /\nredirects:4:1: a path and its target begin with /, with neither /_ nor /@, have 200 bytes at most, and no blank; a target begins with only one /\nredirects:6:1: a line is PATH TARGET, two words\nredirects:7:1: the redirect /a stands in line 5 already: take one of both away\nredirects:7:1: warning: no route of this folder has the path /c\n",
    ),
    (
        "removes",
        b"page a\ntemplate\nroute a\ndata !\n",
        "removes:1:1: a line is KIND NAME, two words, KIND one of template, partial, data, route and redirect\nremoves:2:1: a line is KIND NAME, two words, KIND one of template, partial, data, route and redirect\nremoves:3:1: a path begins with /, with neither /_ nor /@, has 200 bytes at most, and no blank\nremoves:4:1: a name is 1 to 64 of the letters a to z and A to Z, digits, _ - . and /\n",
    ),
];

#[test]
fn files_by_themselves(rt: HostRuntime) {
    for &(path, text, lines) in FILES {
        let folder = folder(&rt, rt.alloc(), &[(path, text)]);
        is_told(&rt, rt.alloc(), &folder, lines);
    }
}

/// Files that are ignored.
const PASSED: &[&str] = &[
    ".DS_Store",
    ".git/config",
    "README.md",
    "templates/page.mustache~",
    "data/.hidden.json",
];

fn is_empty(folder: &Folder) -> bool {
    folder.findings.is_empty() && folder.commands.is_empty()
}

#[test]
fn files_that_are_passed_over(rt: HostRuntime) {
    for &path in PASSED {
        let folder = folder(&rt, rt.alloc(), &[(path, b"\xff")]);
        ensure(&rt, is_empty(&folder), path);
    }
}

/// Files with faults of every kind, and the lines that report them. No missing name is reported, as not all
/// data could be read.
const FAULTY: &[(&str, &[u8])] = &[
    ("data/b.json", b"[1,]"),
    ("data/c.json", b"{}"),
    ("partials/q.mustache", b"{{>p}}\n {{>q}}{{>p}}{{name}}"),
    ("routes", b"/ t b\n/a u c\n/a/ u c\n/ u d\n"),
    ("templates/t.mustache", b"{{/x}}"),
];

const TOLD: &str =
    "templates/t.mustache:1:1: `{{/x}}` ends nothing: no section is open: take it away, or open one before it [5 Template 5 NoSection at 0]
data/b.json:1:4: no JSON: the comma before this has to go [6 Data 1 NotJson]
routes:4:1: the route / stands in line 1 already: take one of both away
routes:2:1: there is no templates/u.mustache: make it, or name another
routes:3:1: there is no templates/u.mustache: make it, or name another
routes:4:1: there is no templates/u.mustache: make it, or name another
routes:4:1: there is no data/d.json: make it, or name another
routes:3:1: warning: /a/ and /a are two paths, which readers take for one
partials/q.mustache:1:1: warning: there is no partials/p.mustache, so nothing is printed here
partials/q.mustache:2:8: warning: there is no partials/p.mustache, so nothing is printed here
";

#[test]
fn all_faults_of_all_files(rt: HostRuntime) {
    is_told(&rt, rt.alloc(), &folder(&rt, rt.alloc(), FAULTY), TOLD);
}

/// Names that no data have, each by its part; paths that a link has to spell otherwise; redirects that lead
/// on, in a circle, and to no page.
const WARNED: &[(&str, &[u8])] = &[
    ("data/a.json", b"{\"x\": {\"y\": [{\"z\\u0021\": 1}]}}"),
    ("partials/p.mustache", b"{{x.y.z!}}{{.}}{{&x}}"),
    (
        "redirects",
        b"/c /d\n/d /\n/e /f\n/f /g\n/g /f\n/h /h\n/i /d#y\n/j?k /\n/l /none\n",
    ),
    ("routes", b"/ t a\n/a?x=1 t a\n/b#c t a\n/%C3%BC t a\n"),
    (
        "templates/t.mustache",
        b"{{x}} {{txet}}\n{{#x.yy}}{{/x.yy}}{{^no}}{{/no}}{{{raw}}}{{>p}}{{!c}}",
    ),
];

const WARNINGS: &str = "redirects:3:1: warning: /f leads in a circle, so browsers give up
redirects:4:1: warning: /g leads in a circle, so browsers give up
redirects:5:1: warning: /f leads in a circle, so browsers give up
redirects:6:1: warning: /h leads in a circle, so browsers give up
redirects:7:1: warning: in /d#y `#` is part of the path, so a link has to spell it %23: browsers read it as where a place in the page begins
redirects:9:1: warning: no route of this folder has the path /none
routes:2:1: warning: in /a?x=1 `?` is part of the path, so a link has to spell it %3F: browsers read it as where a query begins
routes:3:1: warning: in /b#c `#` is part of the path, so a link has to spell it %23: browsers read it as where a place in the page begins
routes:4:1: warning: in /%C3%BC `%` is part of the path, so a link has to spell it %25: browsers read it as the first of three that stand for another character
redirects:8:1: warning: in /j?k `?` is part of the path, so a link has to spell it %3F: browsers read it as where a query begins
templates/t.mustache:1:7: warning: no data of this folder have the name `txet`
templates/t.mustache:2:1: warning: no data of this folder have the name `yy`
templates/t.mustache:2:19: warning: no data of this folder have the name `no`
templates/t.mustache:2:33: warning: no data of this folder have the name `raw`
";

#[test]
fn what_may_not_be_meant(rt: HostRuntime) {
    is_told(&rt, rt.alloc(), &folder(&rt, rt.alloc(), WARNED), WARNINGS);
}

/// Twenty-one redirects to a page, and eleven that lead into a circle of six.
const CHAINS: &[(&str, &[u8])] = &[
    ("data/a.json", b"{}"),
    (
        "redirects",
        b"/r1 /r2\n/r2 /r3\n/r3 /r4\n/r4 /r5\n/r5 /r6\n/r6 /r7\n/r7 /r8\n/r8 /r9\n/r9 /r10\n/r10 /r11\n/r11 /r12\n/r12 /r13\n/r13 /r14\n/r14 /r15\n/r15 /r16\n/r16 /r17\n/r17 /r18\n/r18 /r19\n/r19 /r20\n/r20 /r21\n/r21 /\n/c1 /c2\n/c2 /c3\n/c3 /c4\n/c4 /c5\n/c5 /c6\n/c6 /c7\n/c7 /c8\n/c8 /c9\n/c9 /c10\n/c10 /c11\n/c11 /c12\n/c12 /c7\n",
    ),
    ("routes", b"/ t a\n"),
    ("templates/t.mustache", b""),
];

const GIVEN_UP: &str =
    "redirects:1:1: warning: /r2 leads on and on: browsers follow 20 redirects, and then give up
redirects:22:1: warning: /c2 leads in a circle, so browsers give up
redirects:23:1: warning: /c3 leads in a circle, so browsers give up
redirects:24:1: warning: /c4 leads in a circle, so browsers give up
redirects:25:1: warning: /c5 leads in a circle, so browsers give up
redirects:26:1: warning: /c6 leads in a circle, so browsers give up
redirects:27:1: warning: /c7 leads in a circle, so browsers give up
redirects:28:1: warning: /c8 leads in a circle, so browsers give up
redirects:29:1: warning: /c9 leads in a circle, so browsers give up
redirects:30:1: warning: /c10 leads in a circle, so browsers give up
redirects:31:1: warning: /c11 leads in a circle, so browsers give up
redirects:32:1: warning: /c12 leads in a circle, so browsers give up
redirects:33:1: warning: /c7 leads in a circle, so browsers give up
";

#[test]
fn redirects_in_a_row(rt: HostRuntime) {
    is_told(&rt, rt.alloc(), &folder(&rt, rt.alloc(), CHAINS), GIVEN_UP);
}

/// How many bytes a template has, and how that is reported.
const LENGTHS: &[(usize, &str)] = &[
    (
        32_768,
        "templates/t.mustache: the file has 32768 bytes, and may have 32741: part it [1 TooLong]\n",
    ),
    (32_741, ""),
];

fn long(rt: &impl Abort, alloc: Global, length: usize, lines: &str) {
    let text = vec![in alloc; b'x'; length].expect(rt, "memory");
    let folder = folder(rt, alloc, &[("templates/t.mustache", text.as_slice())]);
    is_told(rt, alloc, &folder, lines);
}

#[test]
fn a_file_that_is_too_long(rt: HostRuntime) {
    for &(length, lines) in LENGTHS {
        long(&rt, rt.alloc(), length, lines);
    }
}
