//! Prints what each node of a group says of itself.
ghost use Rattle.std.specs.Prelude.{◌≡◌, ◌==◌, ◌&&◌, nat_le, if◌then◌else◌, length, IfErr, IfOk, OnOk, Some};
ghost use Rattle.std.specs.Prelude.{None};
ghost use Rattle.serde_json.specs.View.{view};
ghost use Rattle.editor_common.specs.Outcomes.{kept};
ghost use Rattle.editor_group.specs.Statuses.{is_well, EndsStatus, EndsTelling, IsNode, TellsCommands};
ghost use Rattle.editor_group.specs.Statuses.{TellsNodes};

use crate::group::Group;
use crate::reports::{Published, Range, Report, range_of, reports_of};
use editor_common::{EditorFault, Outcome, TalkFault, say_made};
use editor_http::NodeAnswer;
use serde_json::{Map, Value, put};
use site_ids::MAX_INSTANCE;
use std::alloc::{AllocError, Global};
use std::io::Write;
use std::net::{Net, TcpStream};
use std::rt::Clock;

fn are_same(page: Option<&NodeAnswer>, other: Option<&NodeAnswer>) -> bool {
    match (page, other) {
        (Some(page), Some(other)) => page.status == other.status && page.body == other.body,
        _ => false,
    }
}

/// Whether a node's start page is that of the others; `None` if they have no release in common, or the node
/// says none.
fn same_page(report: &Report<'_>, first: Option<&NodeAnswer>, range: Range) -> Option<bool> {
    if range.common == 0 || report.newest.is_none() {
        return None;
    }
    Some(are_same(report.page.as_ref(), first))
}

/// What decides whether all is well with a node: its newest release, and whether its start page is that of
/// the others.
#[derive(Clone, Copy)]
struct Row {
    newest: Option<u64>,
    same: Option<bool>,
}

fn row_of(report: &Report<'_>, first: Option<&NodeAnswer>, range: Range) -> Row {
    Row {
        newest: report.newest,
        same: same_page(report, first, range),
    }
}

/// The word for one that does not say its newest release: it keeps this client out, is another server, or is
/// a node that is silent.
fn silence_of(report: &Report<'_>) -> &'static str {
    match (report.barred, report.answered) {
        (Some(_), _) => "barred",
        (None, true) => "no node",
        (None, false) => "silent",
    }
}

/// Whether all is well with a node: it shows the newest release, and the same page as the others.
fn is_well(row: Row, last: u64) -> bool
    ensures { result ≡ is_well last row }
{
    match row.newest {
        Some(newest) => newest == last && row.same.unwrap_or(true),
        None => false,
    }
}

/// Writes what a node said, in columns.
fn tell_answer<W: Write>(
    alloc: Global,
    out: &mut W,
    url: &str,
    millis: u64,
    newest: u64,
    range: Range,
    same: Option<bool>,
) -> Result<(), TalkFault> {
    let behind = range.last.saturating_sub(newest);
    let page = match same {
        None => "-",
        Some(true) => "same",
        Some(false) => "differs",
    };
    say_made(
        out,
        format!(in alloc; "{url:<32} {millis:>6} {newest:>8} {behind:>7}  {page}"),
    )
}

fn tell<W: Write>(
    alloc: Global,
    out: &mut W,
    report: &Report<'_>,
    row: Row,
    range: Range,
) -> Result<(), TalkFault> {
    let url = report.node.url.as_str();
    match row.newest {
        Some(newest) => tell_answer(alloc, out, url, report.millis, newest, range, row.same),
        None => {
            let why = silence_of(report);
            say_made(
                out,
                format!(in alloc; "{url:<32} {why:<7}       -       -  -"),
            )
        }
    }
}

/// A node as one JSON object.
fn node_value(alloc: Global, report: &Report<'_>, row: Row) -> Result<Value, AllocError>
    ensures { IfOk result (λ value. IsNode row (view value)) }
{
    let answers = match row.newest {
        Some(_) => "yes",
        None => silence_of(report),
    };
    let url = Value::try_from_str(alloc, report.node.url.as_str())?;
    let answers = Value::try_from_str(alloc, answers)?;
    let millis = Value::from(row.newest.map(|_| report.millis));
    let mut members = Map::new(alloc);
    put(&mut members, alloc, "url", url)?;
    put(&mut members, alloc, "answers", answers)?;
    put(&mut members, alloc, "millis", millis)?;
    put(&mut members, alloc, "release", Value::from(row.newest))?;
    put(&mut members, alloc, "same_page", Value::from(row.same))?;
    Ok(Value::Object(members))
}

fn tell_head<W: Write>(alloc: Global, out: &mut W, common: u64) -> Result<(), TalkFault> {
    say_made(
        out,
        format!(in alloc; "node                                 ms  release  behind  /@{common}/"),
    )
}

/// Writes a line for each node, and keeps them all in the outcome. The result says whether all is well.
fn tell_all<W: Write>(
    alloc: Global,
    out: &mut W,
    outcome: &mut Outcome,
    reports: &[Report<'_>],
    range: Range,
) -> Result<bool, TalkFault>
    ensures is { IfOk result (λ well. TellsNodes (length reports.now) range.last well (kept outcome.new)) }
{
    tell_head(alloc, out, range.common)?;
    let first = reports.iter().find_map(|report| report.page.as_ref());
    let mut values = Vec::new(alloc);
    let mut well = true;
    for report in reports {
        let row = row_of(report, first, range);
        tell(alloc, out, report, row, range)?;
        values.push(node_value(alloc, report, row)?)?;
        well &= is_well(row, range.last);
    }
    outcome.put(alloc, "nodes", Value::Array(values))?;
    outcome.put(alloc, "release", Value::from(range.last))?;
    Ok(well)
}

/// Writes why nodes keep this client out, for each that does.
fn tell_barred<W: Write>(
    alloc: Global,
    out: &mut W,
    reports: &[Report<'_>],
) -> Result<(), TalkFault> {
    for report in reports {
        if let Some(why) = report.barred {
            let url = report.node.url.as_str();
            say_made(out, format!(in alloc; "{url}: {why}"))?;
        }
    }
    Ok(())
}

/// Writes how many commands the group has at least, if a node said the instance of a folder's last ticket.
fn tell_commands<W: Write>(
    alloc: Global,
    out: &mut W,
    outcome: &mut Outcome,
    reports: &[Report<'_>],
) -> Result<(), TalkFault>
    ensures is { OnOk result (TellsCommands (kept outcome.old) (kept outcome.new)) }
{
    let least = reports.iter().filter_map(|report| report.instance).max();
    outcome.put(alloc, "commands_at_least", Value::from(least))?;
    outcome.put(alloc, "commands_at_most", Value::from(MAX_INSTANCE))?;
    if let Some(least) = least {
        say_made(
            out,
            format!(in alloc; "commands: at least {least} of {MAX_INSTANCE}"),
        )?;
    }
    Ok(())
}

/// Writes that no node shows a folder's last release, if none of those that answer does. The result says
/// whether all is well.
fn tell_returning<W: Write>(
    alloc: Global,
    out: &mut W,
    last: u64,
    shown: u64,
) -> Result<bool, TalkFault>
    ensures is { IfOk result (λ is. is ≡ nat_le shown last) }
{
    if last >= shown {
        return Ok(true);
    }
    say_made(
        out,
        format!(in alloc;
            "release {shown} of the folder is shown by no node: the group is still coming back, or is \
             another one"
        ),
    )?;
    Ok(false)
}

/// Whether a folder's release is shown; `None` if it has none.
fn shows_of(release: u64, shown: bool) -> Option<bool>
    ensures { result ≡ (if release == 0 then None else Some shown) }
{
    match release {
        0 => None,
        _ => Some(shown),
    }
}

fn status_of(well: bool, shown: bool) -> u8
    ensures { result ≡ (if well && shown then 0 else 1) }
{
    if well && shown { 0 } else { 1 }
}

/// Writes a table of nodes: URL, milliseconds to an answer, newest release, how many releases it is behind,
/// and whether its start page in the newest release that all have is that of the others. Then it writes how
/// many commands the group has at least, by the last ticket of a folder. The status is 1 if a node is silent,
/// behind or differs, or if no node shows a release that the folder made. The outcome keeps all of it. `err`
/// gets the nodes that are silent at first.
pub fn tell_status<R: Net<Stream = TcpStream> + Clock + AllocGlobal, W: Write, E: Write>(
    rt: &R,
    out: &mut W,
    err: &mut E,
    outcome: &mut Outcome,
    urls: &[&str],
    published: Published,
) -> Result<u8, EditorFault>
    ensures is { IfOk result (λ status.
        EndsStatus (length urls.now) published.release status (kept outcome.new)) }
    ensures faults { IfErr result (EndsTelling (λ url. url.now) urls.now) }
{
    let alloc = rt.alloc();
    let group = Group::of(alloc, urls)?;
    let reports = reports_of(rt, err, group.nodes(), published)?;
    let range = range_of(&reports);
    let well = tell_all(alloc, out, outcome, &reports, range)?;
    tell_barred(alloc, out, &reports)?;
    tell_commands(alloc, out, outcome, &reports)?;
    let shown = tell_returning(alloc, out, range.last, published.release)?;
    let shows = shows_of(published.release, shown);
    outcome.put(alloc, "shows_folder", Value::from(shows))?;
    Ok(status_of(well, shown))
}
