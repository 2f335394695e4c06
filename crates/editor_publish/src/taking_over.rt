//! What a publication takes over from others who have published in the group, and what it leaves to them.
//!
//! It compares each path whose page the publication changes, and each path at which it puts or removes
//! something. A path is another editor's if the group's newest release has something there that none of the
//! folder's own texts show: neither those of its last release nor those since (`states_of` in `editor_plan`).
//! The folder takes such a path over if it puts something there, or if the user asks for that. If the folder
//! no longer has anything there, the path is left to the other editor. A folder that takes over one path
//! takes over all of its paths: it compares each of them, and puts again all texts that make a page which is
//! not the folder's (`renewing.rt`).
//!
//! No node reports the names of templates, partials and data. So a folder without any receipt joins a group
//! that has releases only if the user asks for that.
//!
//! `asked.rt` finds what another editor puts there after this, and `replacing.rt` what an interrupted run has
//! replaced.
use crate::asked::{Asked, Compared, apart, compare};
use crate::comparing::{Change, TOLD, add_paths, changes_of};
use crate::made::release_ticket;
use crate::own::{OwnTexts, texts_since};
use crate::renewing::{apart_from, texts_of_pages};
use crate::replacing::replaced;
use editor_common::{EditorFault, say_made};
use editor_files::lent;
use editor_group::Address;
use editor_ledger::{Ledger, LedgerFault};
use editor_plan::{LeftOver, joins, last_shown, left_by, states_of, touched};
use std::alloc::{AllocError, Global};
use std::collections::BTreeSet;
use std::io::Write;
use std::net::{Net, TcpStream};

/// What a publication does to what others have put, by the group's newest release, and whether it joins what
/// they have published. It also says what an interrupted run of the folder left.
#[derive(Drop)]
pub(crate) struct Taken {
    pub release: u64,
    /// Paths that become the folder's, or that it removes, although others put what is there.
    pub paths: Vec<String>,
    /// Texts of the folder that are put again, whatever its ledger says.
    pub again: Vec<String>,
    /// Paths that were the folder's, are another's now, and stay so.
    pub left: Vec<String>,
    /// Texts that the folder put for the paths of `left`, and no longer has. They are not removed, since the
    /// other editor may use them.
    pub stays: Vec<String>,
    pub joins: bool,
    pub left_over: LeftOver,
    /// The paths that are asked for again.
    pub asked: Asked,
}

/// The paths of pages that change, and those that texts are about, each once.
fn paths_of(
    alloc: Global,
    changes: &[Change],
    texts: &[String],
) -> Result<Vec<String>, AllocError> {
    let mut paths = BTreeSet::new(alloc);
    for change in changes {
        let _ = paths.insert(change.view.path.clone()?)?;
    }
    add_paths(alloc, &mut paths, &lent(alloc, texts)?)?;
    paths.into_iter().collect(alloc)
}

/// Whether a folder's release is on its way. It counts as made, since the run that began it has already asked
/// for the paths of its commands.
fn is_begun(ledger: &Ledger) -> bool {
    release_ticket(ledger).is_some()
}

/// The paths that are compared: those whose page a publication changes, and those at which it puts or removes
/// something. The states are the folder's (`states_of` in `editor_plan`).
fn compared_paths(
    alloc: Global,
    ledger: &Ledger,
    states: &[Vec<String>],
    wanted: &[&str],
) -> Result<Vec<String>, AllocError> {
    let (before, touched) = if is_begun(ledger) {
        (states.last(), ledger.next_texts(alloc, wanted)?)
    } else {
        (states.first(), touched(alloc, ledger, wanted)?)
    };
    let changes = match before {
        Some(before) if !touched.is_empty() => { changes_of(alloc, &lent(alloc, before)?, wanted)? }
        _ => Vec::new(alloc),
    };
    paths_of(alloc, &changes, &touched)
}

/// These paths, each once.
fn set_of(alloc: Global, paths: &[String]) -> Result<BTreeSet<String>, AllocError> {
    let mut set = BTreeSet::new(alloc);
    for path in paths {
        let _ = set.insert(path.clone()?)?;
    }
    Ok(set)
}

/// These paths, and all that the wanted texts are about.
fn with_all(alloc: Global, paths: &[String], wanted: &[&str]) -> Result<Vec<String>, AllocError> {
    let mut all = set_of(alloc, paths)?;
    add_paths(alloc, &mut all, wanted)?;
    all.into_iter().collect(alloc)
}

/// The paths of those commands of a folder that none of its releases has. These commands are in the log, or
/// on their way there.
fn unreleased(alloc: Global, ledger: &Ledger) -> Result<BTreeSet<String>, AllocError> {
    let last = ledger.last_release();
    let mut paths = BTreeSet::new(alloc);
    if is_begun(ledger) {
        return Ok(paths);
    }
    for had in ledger.past() {
        if last < had.since {
            add_paths(alloc, &mut paths, &[had.text.as_str()])?;
        }
    }
    Ok(paths)
}

/// Those of the paths that are in `first`, and the others.
fn parted(
    alloc: Global,
    paths: Vec<String>,
    first: &BTreeSet<String>,
) -> Result<(Vec<String>, Vec<String>), AllocError> {
    let (mut some, mut others) = (Vec::new(alloc), Vec::new(alloc));
    for path in paths {
        if first.contains(path.as_str()) {
            some.push(path)?;
        } else {
            others.push(path)?;
        }
    }
    Ok((some, others))
}

/// Which of another editor's paths are taken over, and which are left to the other. Without `take_over`, a
/// path is left if the folder no longer has anything there and none of its commands about the path may still
/// be released.
fn taken_and_left(
    alloc: Global,
    ledger: &Ledger,
    wanted: &[&str],
    paths: Vec<String>,
    take_over: bool,
) -> Result<(Vec<String>, Vec<String>), AllocError> {
    if take_over {
        return Ok((paths, Vec::new(alloc)));
    }
    let mut about = unreleased(alloc, ledger)?;
    add_paths(alloc, &mut about, wanted)?;
    parted(alloc, paths, &about)
}

/// Returns the paths that are taken over, and those that are not the folder's. Taken over are the paths that
/// others took over, and those at which commands of an interrupted run, after the release `shown`, replaced
/// what others had put. It compares the paths that a publication changes. If some of them are taken over, or
/// `take_over` asks for that, it compares all of the folder's.
fn compare_all<N: Net<Stream = TcpStream>>(
    net: &N,
    alloc: Global,
    node: &Address,
    shown: u64,
    release: u64,
    own: OwnTexts<'_>,
    wanted: &[&str],
    paths: &[String],
    take_over: bool,
) -> Result<(Vec<String>, Vec<String>), EditorFault> {
    let all = with_all(alloc, paths, wanted)?;
    let first = if take_over { all.as_slice() } else { paths };
    let Compared {
        mut taken,
        others,
        fresh,
    } = compare(net, alloc, node, release, own, first)?;
    let mut more = replaced(net, alloc, node, shown, release, own, fresh)?;
    let found = is_about_some(alloc, &taken, wanted)? || is_about_some(alloc, &more, wanted)?;
    if all.len() == first.len() || !found {
        taken.append(&mut more)?;
        return Ok((taken, others));
    }
    let mut compared = compare(net, alloc, node, release, own, &all)?;
    compared.taken.append(&mut more)?;
    Ok((compared.taken, compared.others))
}

/// Whether a wanted text is about one of the paths.
fn is_about_some(alloc: Global, paths: &[String], wanted: &[&str]) -> Result<bool, AllocError> {
    let mut about = BTreeSet::new(alloc);
    add_paths(alloc, &mut about, wanted)?;
    Ok(paths.iter().any(|path| about.contains(path.as_str())))
}

/// The texts that a folder has put, by its ledger, for the pages at these paths. It leaves out those that are
/// about what a wanted text is about.
fn staying(
    alloc: Global,
    ledger: &Ledger,
    wanted: &[&str],
    paths: &[String],
) -> Result<Vec<String>, AllocError> {
    let kept = lent(alloc, ledger.kept())?;
    let texts = texts_of_pages(alloc, &kept, paths)?;
    apart_from(alloc, texts, wanted)
}

/// What a publication of texts takes over in a node's newest release, `release`, and what it leaves there.
pub(crate) fn taken_over<N: Net<Stream = TcpStream>>(
    net: &N,
    alloc: Global,
    node: &Address,
    release: u64,
    ledger: &Ledger,
    wanted: &[&str],
    take_over: bool,
) -> Result<Taken, EditorFault> {
    let states = states_of(alloc, ledger)?;
    let compared = compared_paths(alloc, ledger, &states, wanted)?;
    let shown = if is_begun(ledger) {
        release
    } else {
        last_shown(ledger)
    };
    let plan = texts_since(alloc, &states)?;
    let own = OwnTexts {
        states: &states,
        plan: &plan,
    };
    let (taken, others) = compare_all(
        net, alloc, node, shown, release, own, wanted, &compared, take_over,
    )?;
    drop(plan);
    let (paths, left) = taken_and_left(alloc, ledger, wanted, taken, take_over)?;
    let asked = apart(alloc, compared, &set_of(alloc, &paths)?)?;
    let asked = apart(alloc, asked, &set_of(alloc, &left)?)?;
    Ok(Taken {
        release,
        paths,
        again: texts_of_pages(alloc, wanted, &others)?,
        stays: staying(alloc, ledger, wanted, &left)?,
        left,
        joins: joins(ledger.kept().len(), release),
        left_over: left_by(ledger),
        asked: Asked {
            release,
            paths: asked,
            taken: Vec::new(alloc),
            states,
        },
    })
}

/// The wanted texts, and those that stay although the folder no longer has them.
pub(crate) fn with_staying<'a>(
    alloc: Global,
    wanted: &[&'a str],
    stays: &'a [String],
) -> Result<Vec<&'a str>, AllocError> {
    let mut texts = Vec::from_slice(alloc, wanted)?;
    for text in stays {
        texts.push(text.as_str())?;
    }
    Ok(texts)
}

/// Plans texts, those of `again` again. It does nothing if `again` is empty or if something is on its way.
pub(crate) fn plan_again(
    alloc: Global,
    ledger: &mut Ledger,
    texts: &[&str],
    again: &[String],
) -> Result<(), LedgerFault> {
    if again.is_empty() || !ledger.is_idle() {
        return Ok(());
    }
    ledger.plan(alloc, texts, again)
}

/// How a refusal says that nothing was sent: `nothing more` if an earlier run left commands.
fn what_was_sent(left: LeftOver) -> &'static str {
    if left.is_none() {
        "nothing"
    } else {
        "nothing more"
    }
}

/// Why a publication stops that would replace or remove what others have put.
pub(crate) fn others_have_put(alloc: Global, left: LeftOver) -> Result<EditorFault, AllocError> {
    let nothing = what_was_sent(left);
    Ok(EditorFault::Stop(format!(in alloc;
        "{nothing} was sent: others have put what this folder would replace or remove. With --take-over the \
         paths above become this folder's"
    )?))
}

/// Why nothing was sent of what a publication would take over; `None` if it takes over nothing.
pub(crate) fn refusal_of(alloc: Global, taken: &Taken) -> Result<Option<EditorFault>, AllocError> {
    let (release, nothing) = (taken.release, what_was_sent(taken.left_over));
    if taken.joins {
        return Ok(Some(EditorFault::Stop(format!(in alloc;
            "{nothing} was sent: the group has release {release}, and nothing in it is known to be from this \
             folder. If others have templates, partials or data of the same names, this folder would replace \
             them: no node says which names others use. With --take-over it does"
        )?)));
    }
    if taken.paths.is_empty() {
        return Ok(None);
    }
    Ok(Some(others_have_put(alloc, taken.left_over)?))
}

/// Reports how many commands of a folder are in the log although no release of it has them, if there are
/// some.
pub(crate) fn tell_left_over<E: Write>(
    alloc: Global,
    err: &mut E,
    folder: &str,
    left: LeftOver,
) -> Result<(), EditorFault> {
    let LeftOver {
        logged: least,
        on_their_way,
    } = left;
    if left.is_none() {
        return Ok(());
    }
    let most = least.saturating_add(on_their_way as u64);
    Ok(say_made(
        err,
        format!(in alloc;
            "{folder}: commands of this folder that are in the log without a release of it: {least} at \
             least, {most} at most. They go live with the next release that any editor makes"
        ),
    )?)
}

/// Reports paths after a word: the first `TOLD` of them one by one, then how many more there are.
pub(crate) fn tell_paths<E: Write>(
    alloc: Global,
    err: &mut E,
    what: &str,
    paths: &[String],
) -> Result<(), EditorFault> {
    for path in paths.iter().take(TOLD) {
        say_made(err, format!(in alloc; "{what} {path}"))?;
    }
    let more = paths.len().saturating_sub(TOLD);
    if more != 0 {
        say_made(err, format!(in alloc; "{what} {more} more paths"))?;
    }
    Ok(())
}

/// Reports the paths that are taken over, and those that are left to others.
pub(crate) fn tell_taken_over<E: Write>(
    alloc: Global,
    err: &mut E,
    taken: &Taken,
) -> Result<(), EditorFault> {
    tell_paths(alloc, err, "takes over", &taken.paths)?;
    tell_paths(alloc, err, "leaves to another editor:", &taken.left)
}
