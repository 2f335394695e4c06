//! Whether a ledger is the newest of its editor, as the group says.
ghost use Rattle.std.specs.Prelude.{◌≡◌, ◌<◌, length, vec_len, false, IfErr, IfOk, OnOk};
ghost use Rattle.std.specs.Prelude.{string_bytes};
ghost use Rattle.editor_plan.specs.Standings.{last_shown as shown_last, last_ticket as ticket_last};
ghost use Rattle.editor_group.specs.Confirming.{EndsAsking, EndsConfirming, IsConfirmed, LooksSo, Refuses};
ghost use Rattle.editor_group.specs.Confirming.{SaysWhy, Stands, waited_for};

use crate::address::Address;
use crate::asking::number_in;
use crate::asking_all::{Said, ask_each, silent_urls};
use crate::group::Group;
use editor_common::{EditorFault, TalkFault, now, passed, rest, say_made};
use editor_http::{NodeAnswer, Question};
use editor_ledger::Ledger;
use editor_plan::{
    FIRST_ANSWERS, Standing, Told, Witness, answers_within, last_shown, last_ticket, standing_of,
    told_by,
};
use site_ids::Ticket;
use std::alloc::{AllocError, Global};
use std::io::Write;
use std::net::{Net, TcpStream};
use std::rt::Clock;
use std::time::Instant;

/// How many milliseconds pass before all nodes are asked again.
const AGAIN: u64 = 500;

/// What a ledger says: its editor, the last ticket that has its receipt, the next one, and the newest release
/// of the folder that the group has shown.
#[derive(Clone, Copy)]
struct Claim {
    editor: u32,
    last: u64,
    next: u64,
    shown: u64,
}

fn claim_of(ledger: &Ledger) -> Claim
    ensures { result ≡ record {
      editor = ledger.now.editor;
      last = ticket_last ledger.now;
      next = ledger.now.next;
      shown = shown_last ledger.now;
    } }
{
    Claim {
        editor: ledger.editor(),
        last: last_ticket(ledger),
        next: ledger.next(),
        shown: last_shown(ledger),
    }
}

/// One that does not say its newest release is no node, or says nothing that can be used.
const SILENT: Witness = Witness {
    last: Told::Nothing,
    next: Told::Nothing,
    newest: None,
};

fn told(answer: Option<&NodeAnswer>) -> Told {
    told_by(answer.map(|answer| answer.status))
}

/// What is asked of each node: the receipts of two tickets, and its newest release.
fn questions_of<'a>(claim: Claim) -> [Question<'a>; 3] {
    let Claim {
        editor,
        last,
        next,
        ..
    } = claim;
    [
        Question::Receipt(Ticket {
            editor,
            number: next,
        }),
        Question::Receipt(Ticket {
            editor,
            number: last,
        }),
        Question::Newest,
    ]
}

/// What a node's answers say of two tickets, and which release it shows.
fn witness_in(said: &Said<'_>) -> Witness {
    let newest = said.answers.get(2).and_then(number_in);
    match newest {
        Some(_) => Witness {
            next: told(said.answers.get(0)),
            last: told(said.answers.get(1)),
            newest,
        },
        None => SILENT,
    }
}

/// What each node says.
fn witnesses_in(alloc: Global, all: &[Said<'_>]) -> Result<Vec<Witness>, AllocError>
    ensures { IfOk result (λ found. vec_len found ≡ length all.now) }
{
    let mut witnesses = Vec::new(alloc);
    for said in all {
        witnesses.push(witness_in(said))?;
    }
    Ok(witnesses)
}

/// The place of the first node that confirms a ledger.
fn confirming(claim: Claim, witnesses: &[Witness]) -> Option<usize> {
    witnesses.iter().position(|witness| standing_of(claim.last, claim.shown, &[*witness])
        == Standing::Newest)
}

/// Why a ledger is refused that is not the newest.
fn reason(
    alloc: Global,
    folder: &str,
    claim: Claim,
    found: Standing,
) -> Result<String, AllocError> {
    let Claim {
        editor,
        last,
        next,
        shown,
    } = claim;
    match found {
        Standing::Older => {
            format!(in alloc;
                "its file published is older than what the group has of editor {editor}, whose command \
                 {next} is in the log already. Another copy of this folder has published, or this file went \
                 back.\nTake the newest copy of the file and publish again. Or move it away (log, restore \
                 and publish --release need it), and publish with --take-over: what the folder has no more \
                 is then to be listed in its file removes"
            )
        }
        Standing::Elsewhere => {
            format!(in alloc;
                "no node that answers has command {last} of editor {editor}, which is in the file published, \
                 so nothing was sent. Nodes that were down need a majority to learn what they had: see that \
                 one runs, and publish again.\nIf this is another group, or a new one, move the file away \
                 (log, restore and publish --release need it), and publish with --take-over: mv \
                 '{folder}/published' '{folder}.published'"
            )
        }
        Standing::Returning => {
            format!(in alloc;
                "no node that answers shows release {shown}, which this folder made, so nothing was sent: \
                 the group is still coming back, or is another one. See that a majority of its nodes runs \
                 (sitepub status), and publish again.\nIf this is another group, or a new one, move the file \
                 published away (log, restore and publish --release need it), and publish with --take-over: \
                 mv '{folder}/published' '{folder}.published'"
            )
        }
        Standing::Unanswered | Standing::Newest => {
            String::from_str(alloc, "no node answers: nothing was sent")
        }
    }
}

/// The same, with the folder first; then the number of seconds that the run waited for another standing, if
/// it did.
fn refusal(
    alloc: Global,
    folder: &str,
    claim: Claim,
    found: Standing,
    waited: Option<u64>,
) -> Result<String, AllocError>
    ensures { IfOk result (λ words. SaysWhy folder.now waited (string_bytes words)) }
{
    let why = reason(alloc, folder, claim, found)?;
    match waited {
        Some(patience) => format!(in alloc; "{folder}: after {patience} seconds {why}"),
        None => format!(in alloc; "{folder}: {why}"),
    }
}

/// The fault of a ledger that is refused for this.
fn refused(
    alloc: Global,
    folder: &str,
    claim: Claim,
    found: Standing,
    waited: Option<u64>,
) -> EditorFault
    ensures { Refuses folder.now waited result }
{
    match refusal(alloc, folder, claim, found, waited) {
        Ok(words) => EditorFault::Stop(words),
        Err(lack) => EditorFault::from(lack),
    }
}

/// How many seconds a publication waits for another standing before it is refused for this one; `None` if it
/// does not wait.
fn waited_for(found: Standing, patience: u64) -> Option<u64>
    ensures { result ≡ waited_for patience found }
{
    match found {
        Standing::Older | Standing::Newest => None,
        Standing::Elsewhere | Standing::Returning | Standing::Unanswered => Some(patience),
    }
}

/// Why a node says nothing that can be used.
fn why_silent(alloc: Global, said: &Said<'_>) -> Result<String, AllocError> {
    let url = said.node.url.as_str();
    match (&said.fault, said.barred()) {
        (Some(fault), _) => format!(in alloc; "{url}: {fault}"),
        (None, Some(why)) => format!(in alloc; "{url}: {why}"),
        (None, None) if said.is_answered() => {
            format!(in alloc; "{url}: answers, but is no node of Deskrauf")
        }
        (None, None) => format!(in alloc; "{url}: does not answer, or is too busy"),
    }
}

/// The fault of a group that is not waited for.
fn nothing_sent(alloc: Global) -> EditorFault
    ensures { EndsAsking result }
{
    match String::from_str(alloc, "nothing was sent") {
        Ok(words) => EditorFault::Stop(words),
        Err(lack) => EditorFault::from(lack),
    }
}

/// Prints why no node answers. If one keeps this client out, it fails and nothing is waited for.
#[tactic(auto, using(crate::proofs::Faults::talk_ends_asking))]
fn tell_unanswered<E: Write>(
    alloc: Global,
    err: &mut E,
    all: &[Said<'_>],
) -> Result<(), EditorFault>
    ensures faults { IfErr result EndsAsking }
{
    let mut barred = false;
    for said in all {
        say_made(err, why_silent(alloc, said))?;
        barred |= said.barred().is_some();
    }
    if barred {
        return Err(nothing_sent(alloc));
    }
    Ok(())
}

/// Prints which nodes were waited for in vain, if some were.
fn tell_waited<E: Write>(alloc: Global, err: &mut E, all: &[Said<'_>]) -> Result<(), TalkFault> {
    let silent = silent_urls(alloc, all)?;
    if silent.is_empty() {
        return Ok(());
    }
    say_made(err, format!(in alloc; "no answer from{silent}"))
}

/// Prints why questions were not answered, the first time that nodes were asked.
#[tactic(auto, using(crate::proofs::Faults::talk_ends_asking))]
fn tell_first<E: Write>(
    alloc: Global,
    err: &mut E,
    all: &[Said<'_>],
    found: Standing,
    times: u64,
) -> Result<(), EditorFault>
    ensures faults { IfErr result EndsAsking }
{
    if times != 0 || all.is_empty() {
        return Ok(());
    }
    if found == Standing::Unanswered {
        tell_unanswered(alloc, err, all)
    } else {
        Ok(tell_waited(alloc, err, all)?)
    }
}

/// How a ledger stands to a group, and the place of the first node that confirms it, if it is the newest.
#[derive(Clone, Copy)]
struct Found {
    standing: Standing,
    first: Option<usize>,
}

/// Asks all nodes at once, which were asked `times` times before and have `within` milliseconds to answer.
/// The first time it prints why some do not answer.
#[tactic(auto, using(crate::proofs::Faults::talk_ends_asking))]
fn ask_group<R: Net<Stream = TcpStream> + Clock + AllocGlobal, E: Write>(
    rt: &R,
    err: &mut E,
    group: &Group,
    claim: Claim,
    times: u64,
    within: u64,
) -> Result<Found, EditorFault>
    ensures is { IfOk result (λ found.
        Stands (length group.now.nodes.items) claim.last claim.shown found.standing) }
    ensures faults { IfErr result EndsAsking }
{
    let alloc = rt.alloc();
    let nodes: Vec<&Address> = group.nodes().iter().collect(alloc)?;
    let all = ask_each(rt, &nodes, &questions_of(claim), within)?;
    let witnesses = witnesses_in(alloc, &all)?;
    let standing = standing_of(claim.last, claim.shown, &witnesses);
    tell_first(alloc, err, &all, standing, times)?;
    Ok(Found {
        standing,
        first: confirming(claim, &witnesses),
    })
}

/// Prints what the run waits for and for how many seconds, after it found a standing that may change.
fn tell_waiting<E: Write>(
    alloc: Global,
    err: &mut E,
    folder: &str,
    claim: Claim,
    patience: u64,
    found: Standing,
) -> Result<(), TalkFault> {
    let Claim {
        editor,
        last,
        shown,
        ..
    } = claim;
    let line = match found {
        Standing::Returning => format!(in alloc;
            "no node that answers shows release {shown}, which is in {folder}/published: waiting {patience} \
             seconds, as a group that comes back may. If this is another group, or a new one, stop this, and \
             move that file away: mv '{folder}/published' '{folder}.published'"
        ),
        Standing::Elsewhere => format!(in alloc;
            "no node that answers has command {last} of editor {editor}, which is in {folder}/published: \
             waiting {patience} seconds, as a group that comes back may. If this is another group, or a new \
             one, stop this, and move that file away: mv '{folder}/published' '{folder}.published'"
        ),
        _ => String::from_str(alloc, "no node answers: waiting"),
    };
    say_made(err, line)
}

/// Whether the run stops waiting at this standing, after `passed` milliseconds.
fn is_final(passed: u64, patience: u64, found: Standing) -> bool
    ensures { result ≡ false → 0 < patience }
{
    found == Standing::Newest || found == Standing::Older || passed / 1000 >= patience
}

/// How a ledger stands to a group, after it is confirmed or refused, or after `patience` seconds.
#[tactic(auto, using(crate::proofs::Faults::talk_ends_asking))]
fn settled<R: Net<Stream = TcpStream> + Clock + AllocGlobal, E: Write>(
    rt: &R,
    err: &mut E,
    folder: &str,
    group: &mut Group,
    claim: Claim,
    patience: u64,
) -> Result<Standing, EditorFault>
    ensures stands { IfOk result (Stands (length group.old.nodes.items) claim.last claim.shown) }
    ensures nodes { group.new.nodes ≡ group.old.nodes }
    ensures faults { IfErr result EndsAsking }
{
    let since = now(rt)?;
    for times in 0..u64::MAX {
        let within = answers_within(times, passed(rt, since)?, patience);
        let Found { standing, first } = ask_group(rt, err, group, claim, times, within)?;
        if is_final(passed(rt, since)?, patience, standing) {
            group.speak_to(first);
            return Ok(standing);
        }
        if times == 0 {
            tell_waiting(rt.alloc(), err, folder, claim, patience, standing)?;
        }
        rest(rt, AGAIN);
    }
    Err(EditorFault::Clock)
}

/// What a group that is asked once says of a folder's ledger.
#[derive(Drop)]
pub enum Look {
    /// A node confirms that it is the newest of its editor.
    Confirmed,
    /// A publication would be refused, unless this changes.
    Refused(EditorFault),
}

/// Asks all nodes once whether a folder's ledger is the newest of its editor. The first node that confirms it
/// is spoken to from then on. It prints which nodes do not answer.
pub fn look_at<R: Net<Stream = TcpStream> + Clock + AllocGlobal, E: Write>(
    rt: &R,
    err: &mut E,
    folder: &str,
    group: &mut Group,
    ledger: &Ledger,
) -> Result<Look, EditorFault>
    ensures looks { IfOk result (LooksSo (length group.old.nodes.items) folder.now ledger.now) }
    ensures nodes { group.new.nodes ≡ group.old.nodes }
    ensures faults { IfErr result EndsAsking }
{
    let claim = claim_of(ledger);
    let Found { standing, first } = ask_group(rt, err, group, claim, 0, FIRST_ANSWERS)?;
    group.speak_to(first);
    Ok(match standing {
        Standing::Newest => Look::Confirmed,
        found => Look::Refused(refused(rt.alloc(), folder, claim, found, None)),
    })
}

/// Asks until a node confirms that a folder's ledger is the newest of its editor. That node is spoken to from
/// then on. The ledger is refused if a node says that there is a newer one, or after `patience` seconds.
#[tactic(auto, using(crate::proofs::Faults::asking_ends_confirming, crate::proofs::Faults::refusal_ends_confirming,))]
pub fn confirm<R: Net<Stream = TcpStream> + Clock + AllocGlobal, E: Write>(
    rt: &R,
    err: &mut E,
    folder: &str,
    group: &mut Group,
    ledger: &Ledger,
    patience: u64,
) -> Result<(), EditorFault>
    ensures confirmed { OnOk result (IsConfirmed (length group.old.nodes.items) ledger.now) }
    ensures nodes { group.new.nodes ≡ group.old.nodes }
    ensures faults { IfErr result
        (EndsConfirming (length group.old.nodes.items) folder.now patience ledger.now) }
{
    let claim = claim_of(ledger);
    match settled(rt, err, folder, group, claim, patience)? {
        Standing::Newest => Ok(()),
        found => {
            let waited = waited_for(found, patience);
            Err(refused(rt.alloc(), folder, claim, found, waited))
        }
    }
}
