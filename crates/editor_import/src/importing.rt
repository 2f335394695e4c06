//! A generator's pages, read from their folder and written as the folder of a site.
use crate::imported::{Imported, LedOn, SiteText, import_of};
use crate::left_out::{LeftOut, NotTaken};
use editor_common::{EditorFault, say_made};
use editor_files::{below, pages_below, write_file};
use editor_words::takes_files;
use std::alloc::Global;
use std::io::Write;
use std::rt::Files;

/// Writes the files of a folder.
fn write_all<R: Files + AllocGlobal>(
    rt: &R,
    folder: &str,
    files: &[SiteText],
) -> Result<(), EditorFault> {
    for file in files {
        let path = below(rt.alloc(), folder, file.path.as_str())?;
        write_file(rt, path.as_str(), file.text.as_str())?;
    }
    Ok(())
}

/// Writes a line for each file that was left out.
fn tell_left_out<W: Write>(
    alloc: Global,
    out: &mut W,
    left_out: &[LeftOut],
) -> Result<(), EditorFault> {
    for left in left_out {
        let (file, why) = (left.file.as_str(), left.why);
        say_made(out, format!(in alloc; "{file}: {why}"))?;
    }
    Ok(())
}

/// Writes a line for each page that became a redirect: what else it shows is lost.
fn tell_led_on<W: Write>(alloc: Global, out: &mut W, led_on: &[LedOn]) -> Result<(), EditorFault> {
    for page in led_on {
        let (file, target) = (page.file.as_str(), page.target.as_str());
        say_made(out, format!(in alloc; "{file}: a redirect to {target}"))?;
    }
    Ok(())
}

/// Writes what the folder has, and how many files were left out of it.
fn tell_folder<W: Write>(
    alloc: Global,
    out: &mut W,
    folder: &str,
    made: &Imported,
) -> Result<(), EditorFault> {
    let (pages, redirects, left) = (made.pages, made.redirects, made.left_out.len());
    Ok(say_made(
        out,
        format!(in alloc; "{folder}: pages: {pages}, redirects: {redirects}; left out: {left}"),
    )?)
}

/// Writes what can be done about pages that are too long, if some are.
fn tell_too_long<E: Write>(
    alloc: Global,
    err: &mut E,
    left_out: &[LeftOut],
) -> Result<(), EditorFault> {
    let count = left_out
        .iter()
        .filter(|left| left.why.is_too_long())
        .count();
    if count == 0 {
        return Ok(());
    }
    Ok(say_made(
        err,
        format!(in alloc;
            "pages too long: {count}. If each page repeats the navigation of the whole site, have the \
             generator write less of it (fewer levels, or only the section of the page), and import again. \
             Or nginx shows these pages beside the others: docs/GUIDE.md, \"From another generator\""
        ),
    )?)
}

/// Writes that no page was taken: none is there, or each was left out.
fn tell_no_page<E: Write>(
    alloc: Global,
    err: &mut E,
    pages: &str,
    left_out: &[LeftOut],
) -> Result<(), EditorFault> {
    let line = if left_out.iter().all(|left| left.why == NotTaken::Other) {
        format!(in alloc; "{pages}: no page: one is a file whose name ends in .html")
    } else {
        format!(in alloc; "{pages}: each of its pages is left out, so no folder was written")
    };
    Ok(say_made(err, line)?)
}

/// Writes a folder of the pages that a generator wrote, reports what it leaves out of them, and returns the
/// exit status.
pub fn import<R: Files + AllocGlobal + Clone + Drop, W: Write, E: Write>(
    rt: &R,
    out: &mut W,
    err: &mut E,
    pages: &str,
    folder: &str,
) -> Result<u8, EditorFault> {
    if !takes_files(rt, err, folder)? {
        return Ok(1);
    }
    let files = pages_below(rt, pages)?;
    let made = import_of(rt.alloc(), &files)?;
    tell_left_out(rt.alloc(), out, &made.left_out)?;
    tell_too_long(rt.alloc(), err, &made.left_out)?;
    if made.pages == 0 {
        tell_no_page(rt.alloc(), err, pages, &made.left_out)?;
        return Ok(1);
    }
    write_all(rt, folder, &made.files)?;
    tell_led_on(rt.alloc(), out, &made.led_on)?;
    tell_folder(rt.alloc(), out, folder, &made)?;
    Ok(0)
}
