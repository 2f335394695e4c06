//! A folder becomes the next release of a group.
ghost use Rattle.std.specs.Prelude.{◌≡◌, [], false, IfOk, IsErr};
ghost use Rattle.editor_shown.specs.Endings.{IsStatus, MayEnd};

use crate::next_release::NextRelease;
use crate::publisher::Publisher;
use editor_common::{EditorFault, Outcome};
use editor_files::hold;
use editor_group::Group;
use editor_options::PublishWord;
use editor_shown::Ending;
use serde_json::Value;
use std::fs::File;
use std::io::Write;
use std::net::{Net, TcpStream};
use std::random::RandomSource;
use std::rt::{Clock, Files};

/// The folder, held while it is published; a dry run holds nothing.
fn held<R: Files<File = File> + AllocGlobal>(
    rt: &R,
    how: &PublishWord<'_>,
) -> Result<Option<File>, EditorFault> {
    if how.dry_run {
        return Ok(None);
    }
    Ok(Some(hold(rt, how.folder)?))
}

/// Publishes what becomes the next release, or in a dry run prints what would be sent.
fn run_or_tell<
    'a,
    R: Files + Net<Stream = TcpStream> + Clock + RandomSource + AllocGlobal,
    W: Write,
    E: Write,
>(
    rt: &'a R,
    out: &mut W,
    err: &'a mut E,
    outcome: &'a mut Outcome,
    group: &'a mut Group,
    how: &'a PublishWord<'a>,
    next: NextRelease,
) -> Result<Ending, EditorFault>
    ensures { IfOk result (MayEnd how.now.dry_run how.now.exit_code) }
{
    let NextRelease { texts, mut ledger } = next;
    let wanted = texts.lent(rt.alloc())?;
    let mut publisher = Publisher {
        rt,
        err,
        outcome,
        group,
        ledger: &mut ledger,
        how,
    };
    if how.dry_run {
        let found = publisher.tell_plan(out, &wanted)?;
        return Ok(Ending::of_dry_run(found, how.exit_code));
    }
    Ok(Ending::of(publisher.run(out, &wanted)?))
}

/// Publishes a folder to the nodes of these URLs, which have the logins of the file that `how` names. It
/// returns the exit status: 1 if the folder has a fault, or if the group does not show it afterwards. The
/// outcome keeps the results.
pub fn publish<
    R: Files<File = File>
        + Net<Stream = TcpStream>
        + Clock
        + RandomSource
        + AllocGlobal
        + Clone
        + Drop,
    W: Write,
    E: Write,
>(
    rt: &R,
    out: &mut W,
    err: &mut E,
    outcome: &mut Outcome,
    how: &PublishWord<'_>,
    urls: &[&str],
) -> Result<u8, EditorFault>
    ensures nobody { urls.now ≡ [] → how.now.dry_run ≡ false → IsErr result }
    ensures status { IfOk result (IsStatus how.now.dry_run how.now.exit_code) }
{
    outcome.put(rt.alloc(), "dry_run", Value::from(how.dry_run))?;
    if urls.is_empty() && !how.dry_run {
        return Err(EditorFault::NoNodes);
    }
    let mut group = Group::of(rt.alloc(), urls)?;
    let held = held(rt, how)?;
    let ending = match NextRelease::of(rt, err, outcome, how)? {
        Some(next) => run_or_tell(rt, out, err, outcome, &mut group, how, next)?,
        None => Ending::Bad,
    };
    drop(held);
    Ok(ending.status())
}
