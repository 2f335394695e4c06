//! The renderer: framed commands in, one page out.
ghost use Rattle.std.specs.Prelude.{◌≡◌, ◌==◌, IfOk, if◌then◌else◌};
ghost use Rattle.http_read.specs.Bytes.{end_of};
ghost use Rattle.release.specs.Page.{answer, asked};
ghost use Rattle.engine_page.specs.Ends.{HasRun};
ghost use Rattle.engine_page.specs.View.{verdict_view};
ghost use Rattle.engine_page.specs.Verdict.{IsVerdict, or_no_release};

use crate::input::{Input, fed};
use engine_common::{InputFault, read_all, say};
use http_read::{Counted, write_all};
use release::{Answer, AnswerFault, Releases};
use std::alloc::{AllocError, Global};
use std::io::{Read, Write};

/// A page, or a line.
#[derive(Drop)]
pub(crate) enum Outcome {
    Shows(Answer),
    Says(String),
}

/// The page of the release that is asked for, the newest if none is named; or the line that there is no such
/// release.
fn answered(
    alloc: Global,
    releases: &Releases,
    release: Option<u64>,
    path: &str,
) -> Result<Outcome, AllocError>
    ensures { IfOk result (λ o. verdict_view o
        ≡ or_no_release (answer releases.now (asked releases.now release) path.now)) }
{
    let n = release.unwrap_or(releases.newest());
    match releases.answer(n, path) {
        Ok(answer) => Ok(Outcome::Shows(answer)),
        Err(AnswerFault::NoSuchRelease) => {
            Ok(Outcome::Says(String::from_str(alloc, "no release\n")?))
        }
        Err(AnswerFault::OutOfMemory) => Err(AllocError),
    }
}

/// The page or the line for an input.
fn outcome_of(
    alloc: Global,
    input: &[u8],
    release: Option<u64>,
    path: &str,
) -> Result<Outcome, AllocError>
    ensures { IfOk result (λ o. IsVerdict input.now release path.now (verdict_view o)) }
{
    match fed(alloc, input)? {
        Input::Fault(line) => Ok(Outcome::Says(line)),
        Input::Fed(releases) => answered(alloc, &releases, release, path),
    }
}

fn exit_status(page_status: u16) -> u8
    ensures { result ≡ (if page_status == 200 then 0 else 1) }
{
    if page_status == 200 { 0 } else { 1 }
}

/// Reads commands, and writes the page for a path, or one line on the other writer.
pub fn siterender<R: Read, W: Write, E: Write>(
    alloc: Global,
    reader: &mut Counted<R>,
    out: &mut Counted<W>,
    err: &mut Counted<E>,
    release: Option<u64>,
    path: &str,
) -> u8
    ensures { HasRun (end_of R.remaining reader.old reader.new) (end_of W.contents out.old out.new)
        (end_of E.contents err.old err.new) release path.now result }
{
    let input = match read_all(alloc, reader) {
        Ok(input) => input,
        Err(InputFault::Read) => return say(err, "read failed\n"),
        Err(InputFault::OutOfMemory) => return say(err, "out of memory\n"),
    };
    match outcome_of(alloc, &input, release, path) {
        Err(_) => say(err, "out of memory\n"),
        Ok(Outcome::Says(line)) => say(err, line.as_str()),
        Ok(Outcome::Shows(page)) => match write_all(out, page.body.as_bytes()) {
            Ok(()) => exit_status(page.status),
            Err(_) => say(err, "write failed\n"),
        },
    }
}
