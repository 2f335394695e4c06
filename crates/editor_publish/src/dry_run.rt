//! What would be published.
use crate::comparing::{Change, changes_of, changes_since, with_taken};
use crate::taking_over::{Taken, plan_again, with_staying};
use editor_common::{EditorFault, Outcome, say, say_made};
use editor_files::lent;
use editor_ledger::{Ledger, Sent};
use editor_plan::{Stage, advance};
use serde_json::{Value, json};
use std::alloc::{AllocError, Global};
use std::io::Write;

/// What a dry run sees of the group.
#[derive(Drop)]
pub(crate) enum Seen {
    /// Nothing: no node is named.
    NoNode,
    /// What the publication would take over.
    Taken(Taken),
    /// Why the publication would be refused.
    Refused(EditorFault),
}

impl Seen {
    pub(crate) fn taken(&self) -> Option<&Taken> {
        match self {
            Seen::Taken(taken) => Some(taken),
            Seen::NoNode | Seen::Refused(_) => None,
        }
    }
}

/// The first line of a command.
fn head_of(text: &str) -> &str {
    text.lines().next().unwrap_or("")
}

/// The first lines of commands, for programs.
fn heads_value(alloc: Global, sent: &[Sent]) -> Result<Value, AllocError> {
    let mut heads = Vec::new(alloc);
    for sent in sent {
        heads.push(Value::try_from_str(alloc, head_of(sent.text.as_str()))?)?;
    }
    Ok(Value::Array(heads))
}

/// Treats what is on its way as received.
fn settle(ledger: &mut Ledger) -> Result<(), AllocError> {
    for _ in 0..ledger.sent().len() {
        if let Some(sent) = ledger.sent().first() {
            let number = sent.number;
            ledger.receive(number)?;
        }
    }
    Ok(())
}

/// Prints what is already on its way.
fn tell_sent<W: Write>(alloc: Global, out: &mut W, sent: &[Sent]) -> Result<(), EditorFault> {
    for sent in sent {
        let head = head_of(sent.text.as_str());
        say_made(out, format!(in alloc; "{head} (on its way)"))?;
    }
    Ok(())
}

/// What happens to a page.
fn change_name(change: &Change) -> &'static str {
    if change.is_new() {
        "is new"
    } else if change.goes() {
        "goes"
    } else {
        "changes"
    }
}

fn tell_page<W: Write>(alloc: Global, out: &mut W, change: &Change) -> Result<(), EditorFault> {
    let (path, what) = (change.view.path.as_str(), change_name(change));
    Ok(say_made(out, format!(in alloc; "page {path} {what}"))?)
}

/// The pages that change, for programs.
fn pages_value(alloc: Global, changes: &[Change]) -> Result<Value, AllocError> {
    let mut pages = Vec::new(alloc);
    for change in changes {
        let path = change.view.path.as_str();
        let page = json!(in alloc; {"path": path, "page": change_name(change)})?;
        pages.push(page)?;
    }
    Ok(Value::Array(pages))
}

/// Prints what is planned, and which pages change by it.
fn tell_planned<W: Write>(
    alloc: Global,
    out: &mut W,
    outcome: &mut Outcome,
    sent: &[Sent],
    changes: &[Change],
) -> Result<(), EditorFault> {
    outcome.put(alloc, "commands", heads_value(alloc, sent)?)?;
    outcome.put(alloc, "changes", pages_value(alloc, changes)?)?;
    for sent in sent {
        say(out, head_of(sent.text.as_str()))?;
    }
    for change in changes {
        tell_page(alloc, out, change)?;
    }
    Ok(())
}

/// The texts of the folder's last release, if something was sent since. Readers see the pages of these texts.
fn released_texts(alloc: Global, ledger: &Ledger) -> Result<Option<Vec<String>>, AllocError> {
    let last = ledger.last_release();
    if ledger.has_unshown() && ledger.reaches(last) {
        Ok(Some(ledger.texts_at(alloc, last)?))
    } else {
        Ok(None)
    }
}

/// The pages that change if a ledger with nothing on its way becomes the wanted texts. If something was sent
/// after the last release, they are compared with that release.
fn changes_by(
    alloc: Global,
    ledger: &Ledger,
    released: Option<&[String]>,
    wanted: &[&str],
    taken: Option<&Taken>,
) -> Result<Vec<Change>, AllocError> {
    let changes = match released {
        Some(texts) => changes_of(alloc, &lent(alloc, texts)?, wanted)?,
        None => changes_since(alloc, ledger, wanted)?,
    };
    match taken {
        Some(taken) => with_taken(alloc, changes, wanted, &taken.paths, &taken.left),
        None => Ok(changes),
    }
}

/// The texts that stay although the folder no longer has them, and those that are put again.
fn kept_and_again(taken: Option<&Taken>) -> (&[String], &[String]) {
    match taken {
        Some(taken) => (taken.stays.as_slice(), taken.again.as_slice()),
        None => (&[], &[]),
    }
}

/// Prints what would be put and removed by a ledger with nothing on its way, and which pages change. It
/// returns whether anything would be sent.
fn tell_next<W: Write>(
    alloc: Global,
    out: &mut W,
    outcome: &mut Outcome,
    ledger: &mut Ledger,
    released: Option<&[String]>,
    wanted: &[&str],
    taken: Option<&Taken>,
) -> Result<bool, EditorFault> {
    let changes = changes_by(alloc, ledger, released, wanted, taken)?;
    let (stays, again) = kept_and_again(taken);
    let texts = with_staying(alloc, wanted, stays)?;
    plan_again(alloc, ledger, &texts, again)?;
    let stage = advance(alloc, ledger, &texts)?;
    match stage {
        Stage::Done => {
            tell_planned(alloc, out, outcome, &[], &changes)?;
            if changes.is_empty() {
                say(out, "nothing would change")?;
            }
        }
        Stage::Sends => tell_planned(alloc, out, outcome, ledger.sent(), &changes)?,
    }
    Ok(stage == Stage::Sends)
}

/// Prints what would be put and removed, and which pages change, if `taken` is taken over. It asks, sends and
/// saves nothing. It returns whether anything would be sent.
pub(crate) fn tell_plan<W: Write>(
    alloc: Global,
    out: &mut W,
    outcome: &mut Outcome,
    ledger: &mut Ledger,
    wanted: &[&str],
    taken: Option<&Taken>,
) -> Result<bool, EditorFault> {
    let waits = !ledger.is_idle();
    let released = released_texts(alloc, ledger)?;
    outcome.put(alloc, "on_their_way", heads_value(alloc, ledger.sent())?)?;
    tell_sent(alloc, out, ledger.sent())?;
    settle(ledger)?;
    let released = released.as_deref();
    Ok(tell_next(alloc, out, outcome, ledger, released, wanted, taken)? || waits)
}
