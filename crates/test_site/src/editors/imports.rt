//! Another generator's pages: their templates, paths and addresses, and the folder that they make.
use crate::comparing::{ensure, same};
use crate::editors::folders::{files, is_told, push_file};
use editor_folder::{Folder, SiteFile, folder_of, pages_of, unused_of, views_of};
use editor_import::{Imported, LeftOut, NotTaken, alias_of, import_of, route_of, template_of};
use std::alloc::{AllocError, Global};
use std::process::Abort;

/// Pages that are shown as they are.
const SHOWN: &[&str] = &[
    "<p>Hello</p>\n",
    "",
    "\n",
    " \t\n<p>blanks, and a line of its own</p>",
    "\r\n<p>\r\nlines that end in two bytes\r\n",
    "<code>{{name}} {{{raw}}} {{#open}} {{/other}} {{>part}} {{!",
    "{{=<% %>=}}\n<%name%>",
    "{{=^ ^=}}\n^name^ ^^name^^",
    "^",
    "^^^^^^^^ ^^^\n^^\n",
    "=}}\n{{=",
    "caf\u{e9} \u{4f60}",
];

/// What a template shows, over data that has each of its names.
fn shown(alloc: Global, template: &str) -> Result<String, AllocError> {
    let put = format!(in alloc; "put template t\n{template}")?;
    let texts = [
        put.as_str(),
        "put data d\n{\"name\":\"x\",\"raw\":\"x\",\"open\":true}",
        "put partial part\nx",
        "put route / t d\n",
    ];
    let mut paths = Vec::new(alloc);
    paths.push(String::from_str(alloc, "/")?)?;
    let mut views = views_of(alloc, &texts, &paths)?;
    match views.pop() {
        Some(view) if view.status == 200 => Ok(view.body),
        _ => String::from_str(alloc, "no page"),
    }
}

fn shown_page(alloc: Global, page: &str) -> Result<String, AllocError> {
    let template = template_of(alloc, page)?;
    shown(alloc, template.as_str())
}

#[test]
fn pages_as_they_are(rt: HostRuntime) {
    for page in SHOWN {
        let came = shown_page(rt.alloc(), page).expect(&rt, "memory");
        same(&rt, came.as_str(), *page);
    }
}

#[test]
fn the_template_of_a_page(rt: HostRuntime) {
    let template = template_of(rt.alloc(), "<p>^</p>\n").expect(&rt, "memory");
    same(&rt, template.as_str(), "{{=^^ ^^=}}\n<p>^</p>\n");
}

/// Files, and the paths of their pages.
const ROUTES: &[(&str, &str)] = &[
    ("index.html", "/"),
    ("guide/index.html", "/guide/"),
    ("guide/first/index.html", "/guide/first/"),
    ("a.html", "/a.html"),
    ("myindex.html", "/myindex.html"),
    ("guide/index.html.html", "/guide/index.html.html"),
    ("index.html/index.html", "/index.html/"),
];

#[test]
fn paths_of_files(rt: HostRuntime) {
    for &(file, path) in ROUTES {
        let came = route_of(rt.alloc(), file).expect(&rt, "memory");
        same(&rt, came.as_str(), path);
    }
}

/// Pages, and the addresses to which they lead on: a page that leads nowhere, the two forms of a page that
/// leads on, and pages that say it only in part or of two addresses.
const ALIASES: &[(&str, Option<&str>)] = &[
    ("<p>Hello</p>", None),
    (
        "<link rel=\"canonical\" href=\"https://example.org/new/\"><meta http-equiv=\"refresh\" content=\"0; url=https://example.org/new/\">",
        Some("https://example.org/new/"),
    ),
    (
        "<!doctype html><link rel=canonical href=/new/><meta http-equiv=refresh content=\"0; url=/new/\"></html>",
        Some("/new/"),
    ),
    (
        "<meta http-equiv=\"refresh\" content=\"0; url=../a\"><meta http-equiv=\"refresh\" content=\"0; url=../b\"><link rel=\"canonical\" href=\"../a\">",
        Some("../a"),
    ),
    (
        "<link rel=\"canonical\" href=\"/new/\"><meta http-equiv=\"refresh\" content=\"0; url=",
        None,
    ),
    (
        "<link rel=\"canonical\" href=\"/later/\"><meta http-equiv=\"refresh\" content=\"5; url=/later/\">",
        None,
    ),
    (
        "<link rel=\"canonical\" href=\"/quoted/\"><p>&lt;meta http-equiv=\"refresh\" content=\"0; url=/quoted/\"&gt;</p>",
        None,
    ),
    (
        "<noscript><meta http-equiv=\"refresh\" content=\"0; url=/plain/\"></noscript><p>Hello</p>",
        None,
    ),
    (
        "<link rel=\"canonical\" href=\"/page/\"><!-- <meta http-equiv=\"refresh\" content=\"0; url=/old/\"> --><p>Hello</p>",
        None,
    ),
    (
        "<!-- <link rel=\"canonical\" href=\"/new/\"><meta http-equiv=\"refresh\" content=\"0; url=/new/\"> --><p>Hello</p>",
        None,
    ),
    (
        "<link rel=\"canonical\" href=\"/new/\"><noscript><meta http-equiv=\"refresh\" content=\"0; url=/new/\"></noscript><p>Hello</p>",
        None,
    ),
    ("<link rel=\"canonical\" href=\"/new/\"><p>Hello</p>", None),
];

#[test]
fn addresses_of_pages_that_lead_on(rt: HostRuntime) {
    for &(page, address) in ALIASES {
        ensure(&rt, alias_of(page) == address, page);
    }
}

/// What a generator wrote: pages of three kinds, pages that lead on, files that are not pages.
const PUBLIC: &[(&str, &[u8])] = &[
    ("404.html", b"none"),
    ("_draft/index.html", b"x"),
    (
        "alt/index.html",
        b"<link rel=\"canonical\" href=\"https://example.org/caf%C3%A9/\"><meta http-equiv=\"refresh\" content=\"0; url=https://example.org/caf%C3%A9/\">",
    ),
    (
        "away.html",
        b"<link rel=\"canonical\" href=\"https://other.example/\"><meta http-equiv=\"refresh\" content=\"0; url=https://other.example/\">",
    ),
    ("bytes.html", b"\xff"),
    ("caf\u{e9}/index.html", b"{{x}}"),
    ("index.html", b"<a href=\"/caf%C3%A9/\">"),
    (
        "old/index.html",
        b"<link rel=\"canonical\" href=\"../index.html\"><meta http-equiv=\"refresh\" content=\"0; url=../index.html\">",
    ),
    (
        "older/index.html",
        b"<link rel=\"canonical\" href=\"../\"><meta http-equiv=\"refresh\" content=\"0; url=../\">",
    ),
    ("picture.png", b""),
    (
        "place.html",
        b"<link rel=\"canonical\" href=\"/#top\"><meta http-equiv=\"refresh\" content=\"0; url=/#top\">",
    ),
    (
        "sitemap.xml",
        b"<urlset><url><loc>\n https://example.org/caf%C3%A9/ </loc></url></urlset>",
    ),
];

/// The folder of that output. A page that leads to no page of the site, or to a place within a page, stays a
/// page.
const FOLDER: &[(&str, &str)] = &[
    ("templates/404.mustache", "{{=^ ^=}}\nnone"),
    (
        "templates/away.mustache",
        "{{=^ ^=}}\n<link rel=\"canonical\" href=\"https://other.example/\"><meta http-equiv=\"refresh\" content=\"0; url=https://other.example/\">",
    ),
    (
        "templates/6132c6f4def63039581a825fc4cbc2defe1fecdceec5e5622c0d8a03c87a0743.mustache",
        "{{=^ ^=}}\n{{x}}",
    ),
    (
        "templates/index.mustache",
        "{{=^ ^=}}\n<a href=\"/caf%C3%A9/\">",
    ),
    (
        "templates/old/index.mustache",
        "{{=^ ^=}}\n<link rel=\"canonical\" href=\"../index.html\"><meta http-equiv=\"refresh\" content=\"0; url=../index.html\">",
    ),
    (
        "templates/place.mustache",
        "{{=^ ^=}}\n<link rel=\"canonical\" href=\"/#top\"><meta http-equiv=\"refresh\" content=\"0; url=/#top\">",
    ),
    ("data/none.json", "{}\n"),
    (
        "routes",
        "/404.html 404 none\n/404 404 none\n/away.html away none\n/caf\u{e9}/ 6132c6f4def63039581a825fc4cbc2defe1fecdceec5e5622c0d8a03c87a0743 none\n/ index none\n/old/ old/index none\n/place.html place none\n",
    ),
    (
        "redirects",
        "/alt/ /caf\u{e9}/\n/caf\u{e9}/index.html /caf\u{e9}/\n/index.html /\n/old/index.html /old/\n/older/ /\n",
    ),
];

/// The pages of the output that became redirects.
const LED_ON: &[(&str, &str)] = &[("alt/index.html", "/caf\u{e9}/"), ("older/index.html", "/")];

/// What the import leaves out of the output.
const LEFT_OUT: &[(&str, &str)] = &[
    (
        "_draft/index.html",
        "a page without a path: one has neither /_ nor /@ in front, 200 bytes at most, and no blank",
    ),
    ("bytes.html", "a page that is no UTF-8"),
    ("picture.png", "no page"),
    ("sitemap.xml", "no page"),
];

fn taken(alloc: Global, rows: &[(&str, &[u8])]) -> Result<Imported, AllocError> {
    let found = files(alloc, rows)?;
    import_of(alloc, &found)
}

fn has_files(rt: &impl Abort, made: &Imported) {
    same(rt, made.files.len(), FOLDER.len());
    for (file, &(path, text)) in made.files.iter().zip(FOLDER) {
        same(rt, file.path.as_str(), path);
        same(rt, file.text.as_str(), text);
    }
}

fn is_left_out(rt: &impl Abort, alloc: Global, left: &LeftOut, wanted: (&str, &str)) {
    let why = left.why;
    let why = format!(in alloc; "{why}").expect(rt, "memory");
    same(rt, left.file.as_str(), wanted.0);
    same(rt, why.as_str(), wanted.1);
}

fn leaves_out(rt: &impl Abort, alloc: Global, made: &Imported) {
    same(rt, made.left_out.len(), LEFT_OUT.len());
    for (left, &wanted) in made.left_out.iter().zip(LEFT_OUT) {
        is_left_out(rt, alloc, left, wanted);
    }
}

fn leads_on(rt: &impl Abort, made: &Imported) {
    same(rt, made.led_on.len(), LED_ON.len());
    for (page, &(file, target)) in made.led_on.iter().zip(LED_ON) {
        same(rt, page.file.as_str(), file);
        same(rt, page.target.as_str(), target);
    }
}

#[test]
fn a_folder_of_pages(rt: HostRuntime) {
    let made = taken(rt.alloc(), PUBLIC).expect(&rt, "memory");
    same(&rt, (made.pages, made.redirects), (7, 5));
    leads_on(&rt, &made);
    has_files(&rt, &made);
    leaves_out(&rt, rt.alloc(), &made);
}

/// The folder that the files of an import make.
fn read(alloc: Global, made: &Imported) -> Result<Folder, AllocError> {
    let mut found = Vec::new(alloc);
    for file in made.files.iter() {
        push_file(alloc, &mut found, file.path.as_str(), file.text.as_bytes())?;
    }
    folder_of(alloc, &found)
}

fn is_whole(rt: &impl Abort, alloc: Global, folder: &Folder) {
    is_told(rt, alloc, folder, "");
    same(rt, folder.commands.len(), 19);
    same(rt, pages_of(alloc, folder).expect(rt, "memory").len(), 12);
    same(rt, unused_of(alloc, folder).expect(rt, "memory").len(), 0);
}

#[test]
fn nothing_is_wrong_with_it(rt: HostRuntime) {
    let made = taken(rt.alloc(), PUBLIC).expect(&rt, "memory");
    let folder = read(rt.alloc(), &made).expect(&rt, "memory");
    is_whole(&rt, rt.alloc(), &folder);
}

/// A page of this many bytes, below a folder.
fn long_page(alloc: Global, len: usize) -> Result<Vec<SiteFile>, AllocError> {
    let page = "x".repeat(alloc, len)?;
    files(alloc, &[("long.html", page.as_bytes())])
}

fn takes_page(alloc: Global, len: usize) -> Result<Option<NotTaken>, AllocError> {
    let found = long_page(alloc, len)?;
    let made = import_of(alloc, &found)?;
    Ok(made.left_out.first().map(|left| left.why))
}

/// The longest page: a value's bytes, less those of its ticket, of its command's first line and of the
/// template's first line.
const LONGEST: usize = 32_768 - 12 - 18 - 10;

#[test]
fn the_longest_page(rt: HostRuntime) {
    let kept = takes_page(rt.alloc(), LONGEST).expect(&rt, "memory");
    ensure(&rt, kept.is_none(), LONGEST);
    let left = takes_page(rt.alloc(), LONGEST + 1).expect(&rt, "memory");
    ensure(&rt, left.is_some(), LONGEST + 1);
}
