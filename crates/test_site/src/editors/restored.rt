//! A folder's files, from the texts of its commands.
use crate::comparing::{ensure, same};
use crate::editors::folders::{SITE, folder};
use editor_folder::{Folder, SiteFile, files_of, folder_of};
use std::alloc::{AllocError, Global};
use std::process::Abort;

/// The files that put what that site puts: without comments, and without what it removes.
const FILES: &[(&str, &str)] = &[
    ("templates/t.mustache", "{{>p}}"),
    ("partials/p.mustache", "<{{x}}>\n"),
    ("data/a.json", "{\"x\":1}"),
    ("routes", "/ t a\n/b t a\n"),
    ("redirects", "/b /\n/c /b\n"),
];

fn restored(alloc: Global, folder: &Folder) -> Result<Vec<SiteFile>, AllocError> {
    let mut texts = Vec::new(alloc);
    for command in folder.commands.iter() {
        texts.push(str::from_utf8(command.text()).unwrap_or(""))?;
    }
    files_of(alloc, &texts)
}

fn are_files(rt: &impl Abort, files: &[SiteFile]) {
    same(rt, files.len(), FILES.len());
    for (file, &(path, text)) in files.iter().zip(FILES) {
        same(rt, file.path.as_str(), path);
        ensure(rt, file.bytes.as_slice() == text.as_bytes(), path);
    }
}

fn is_again(rt: &impl Abort, alloc: Global, folder: &Folder) {
    let files = restored(alloc, folder).expect(rt, "memory");
    are_files(rt, &files);
    let again = folder_of(alloc, &files).expect(rt, "memory");
    same(rt, again.commands.len(), 7);
}

#[test]
fn restored_files(rt: HostRuntime) {
    let site = folder(&rt, rt.alloc(), SITE);
    is_again(&rt, rt.alloc(), &site);
}
