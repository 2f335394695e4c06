//! Files of a static copy.
use crate::comparing::ensure;
use editor_folder::{Copies, NoCopy};
use std::process::Abort;

/// Paths in order, and the file of each.
const TAKEN: &[(&str, Result<&str, NoCopy>)] = &[
    ("/", Ok("index.html")),
    ("/a", Ok("a/index.html")),
    ("/a/", Err(NoCopy::Taken)),
    ("/a/b/", Ok("a/b/index.html")),
    ("/feed.xml", Ok("feed.xml")),
    ("/feed.xml/more", Err(NoCopy::Taken)),
    ("/v1.2", Ok("v1.2/index.html")),
    ("/x.css/", Ok("x.css/index.html")),
    ("/x.css", Err(NoCopy::Taken)),
    ("/../x", Err(NoCopy::NoPath)),
    ("/a//b", Err(NoCopy::NoPath)),
    ("/./c", Err(NoCopy::NoPath)),
    ("//", Err(NoCopy::NoPath)),
    ("/index.html", Err(NoCopy::Taken)),
    ("/a/index.html", Err(NoCopy::Taken)),
    ("/.html", Ok(".html")),
];

fn is_taken(taken: &Result<String, NoCopy>, wanted: Result<&str, NoCopy>) -> bool {
    match taken {
        Ok(file) => wanted == Ok(file.as_str()),
        Err(why) => wanted == Err(*why),
    }
}

fn takes(rt: &impl Abort, copies: &mut Copies, path: &str, wanted: Result<&str, NoCopy>) {
    let taken = copies.take(path).expect(rt, "memory");
    ensure(rt, is_taken(&taken, wanted), path);
}

fn take_all(rt: &impl Abort, copies: &mut Copies) {
    for &(path, wanted) in TAKEN {
        takes(rt, copies, path, wanted);
    }
}

#[test]
fn files_of_pages(rt: HostRuntime) {
    take_all(&rt, &mut Copies::new(rt.alloc()));
}
