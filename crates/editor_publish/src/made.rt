//! The release that a publication made.
use editor_common::{EditorFault, say_made};
use editor_ledger::Ledger;
use serde_json::{Value, json};
use std::alloc::{AllocError, Global};
use std::io::Write;

/// A release that was made. Its number is `release`, or possibly a lower one if it is not `exact`, since
/// others released as well. If `begun`, an interrupted run had begun it. It shows `commands` commands that no
/// release showed before.
#[derive(Clone, Copy)]
pub(crate) struct Made {
    pub release: u64,
    pub exact: bool,
    pub begun: bool,
    pub commands: u64,
}

/// The ticket of the release that is on its way, if one is.
pub(crate) fn release_ticket(ledger: &Ledger) -> Option<u64> {
    match ledger.sent() {
        [sent] if sent.text.as_str() == "release\n" => Some(sent.number),
        _ => None,
    }
}

/// Why a publication stops at a node that does not report its newest release.
pub(crate) fn untold(alloc: Global, url: &str) -> Result<EditorFault, AllocError> {
    Ok(EditorFault::Stop(format!(in alloc; "{url}: does not report its newest release")?))
}

/// Why a publication stops at a node that made a release and does not report its number.
pub(crate) fn unnumbered(alloc: Global, url: &str) -> Result<EditorFault, AllocError> {
    Ok(EditorFault::Stop(format!(in alloc;
        "{url}: does not report the number of the release that was made: run it again, and the number is in \
         the log"
    )?))
}

/// Writes which release was made.
pub(crate) fn tell_made<W: Write>(
    alloc: Global,
    out: &mut W,
    url: &str,
    made: Made,
) -> Result<(), EditorFault> {
    let Made {
        release,
        exact,
        begun,
        commands,
    } = made;
    let whose = match (exact, begun) {
        (true, false) => "",
        (true, true) => " (an interrupted run had begun it)",
        (false, false) => " or an earlier one (another editor released as well)",
        (false, true) => {
            " or an earlier one (an interrupted run had begun it, and another editor released as well)"
        }
    };
    let noun = if commands == 1 { "command" } else { "commands" };
    Ok(say_made(
        out,
        format!(in alloc; "release {release}{whose}, of {commands} {noun}: {url}/@{release}/"),
    )?)
}

/// A release that was made, as one JSON object.
pub(crate) fn made_value(alloc: Global, url: &str, made: Made) -> Result<Value, AllocError> {
    let Made {
        release,
        exact,
        commands,
        ..
    } = made;
    let address = format!(in alloc; "{url}/@{release}/")?;
    json!(in alloc; {"number": release, "exact": exact, "commands": commands, "url": &address})
}
