//! The commands of a folder as `siterender` reads them, for an editor without a group.
use editor_common::EditorFault;
use editor_files::{read_clean, texts_of};
use editor_folder::Folder;
use engine_page::frame_of;
use site_ids::Ticket;
use std::alloc::{AllocError, Global};
use std::io::Write;
use std::rt::Files;

/// What makes a folder's commands one release.
const RELEASE: &str = "release\n";

/// The frames of texts, under an editor's tickets from 1 on.
fn frames_of(alloc: Global, editor: u32, texts: &[&str]) -> Result<String, AllocError> {
    let mut frames = String::new(alloc);
    let mut number = 1u64;
    for text in texts {
        let frame = frame_of(alloc, Ticket { editor, number }, text)?;
        frames.push_str(frame.as_str())?;
        number = number.saturating_add(1);
    }
    Ok(frames)
}

/// The frames of a folder's commands, and of a release after them.
fn input_of(alloc: Global, editor: u32, folder: &Folder) -> Result<String, AllocError> {
    let mut texts = texts_of(alloc, folder)?;
    texts.push(RELEASE)?;
    frames_of(alloc, editor, &texts)
}

fn write_input<W: Write>(
    alloc: Global,
    out: &mut W,
    editor: u32,
    folder: &Folder,
) -> Result<u8, EditorFault> {
    let input = input_of(alloc, editor, folder)?;
    match out.write_all(input.as_bytes()) {
        Ok(()) => Ok(0),
        Err(_) => Err(EditorFault::Write),
    }
}

/// Writes the commands of a folder as `siterender` reads them, and returns the exit status. If the folder has
/// a fault, the fault is reported, and no command is written.
pub fn frame<R: Files + AllocGlobal + Clone + Drop, W: Write, E: Write>(
    rt: &R,
    out: &mut W,
    err: &mut E,
    folder: &str,
    editor: u32,
    ignore: bool,
) -> Result<u8, EditorFault> {
    match read_clean(rt, err, folder, ignore)? {
        Some(clean) => write_input(rt.alloc(), out, editor, &clean.folder),
        None => Ok(1),
    }
}
