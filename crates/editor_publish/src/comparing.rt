//! What a publication changes, and whether its release shows the folder.
//!
//! Each page of the folder is compared with the release, and each path at which the folder no longer has
//! anything.
use editor_common::{EditorFault, say_made};
use editor_files::lent;
use editor_folder::{View, path_in, views_of};
use editor_group::{Address, ask};
use editor_http::{NodeAnswer, Question};
use editor_ledger::Ledger;
use editor_plan::is_of_page;
use editor_shown::{NOTHING, is_compared, shows};
use std::alloc::{AllocError, Global};
use std::collections::BTreeSet;
use std::io::Write;
use std::net::{Net, TcpStream};

/// A page that changes: the status shown before, as far as the ledger knows, and the view shown after.
#[derive(Drop)]
pub(crate) struct Change {
    pub before: u16,
    pub view: View,
}

impl Change {
    /// Whether nothing was there before.
    pub(crate) fn is_new(&self) -> bool {
        self.before == NOTHING
    }

    /// Whether nothing is there any more.
    pub(crate) fn goes(&self) -> bool {
        self.view.status == NOTHING
    }
}

/// The status of a page that another editor put, as far as a change shows it: something is there.
const THERE: u16 = 200;

/// Adds the paths that texts are about.
pub(crate) fn add_paths(
    alloc: Global,
    paths: &mut BTreeSet<String>,
    texts: &[&str],
) -> Result<(), AllocError> {
    for text in texts {
        if let Some(path) = path_in(text) {
            let _ = paths.insert(String::from_str(alloc, path)?)?;
        }
    }
    Ok(())
}

/// The paths that the texts or the others are about, each once.
fn paths_of(alloc: Global, texts: &[&str], others: &[&str]) -> Result<Vec<String>, AllocError> {
    let mut paths = BTreeSet::new(alloc);
    add_paths(alloc, &mut paths, texts)?;
    add_paths(alloc, &mut paths, others)?;
    paths.into_iter().collect(alloc)
}

/// The views that differ from those before, which are of the same paths.
fn differing(alloc: Global, olds: &[View], news: Vec<View>) -> Result<Vec<Change>, AllocError> {
    let mut changes = Vec::new(alloc);
    for (old, view) in olds.iter().zip(news) {
        if old.status != view.status || old.body != view.body {
            changes.push(Change {
                before: old.status,
                view,
            })?;
        }
    }
    Ok(changes)
}

/// The pages that differ between the texts before and those after.
pub(crate) fn changes_of(
    alloc: Global,
    before: &[&str],
    after: &[&str],
) -> Result<Vec<Change>, AllocError> {
    let paths = paths_of(alloc, before, after)?;
    let olds = views_of(alloc, before, &paths)?;
    let news = views_of(alloc, after, &paths)?;
    differing(alloc, &olds, news)
}

/// What the release of a publication of these texts has to show. The texts of `touched` are about what it
/// changes; if `all`, every path counts as changed. The paths of `left` are left to another editor.
pub(crate) fn expected(
    alloc: Global,
    wanted: &[&str],
    touched: &[&str],
    all: bool,
    left: &[String],
) -> Result<Vec<View>, AllocError> {
    let paths = paths_of(alloc, wanted, touched)?;
    let mut about = BTreeSet::new(alloc);
    add_paths(alloc, &mut about, touched)?;
    let mut views = Vec::new(alloc);
    for view in views_of(alloc, wanted, &paths)? {
        let touched = all || about.contains(view.path.as_str());
        if is_compared(view.status, touched, left.contains(&view.path)) {
            views.push(view)?;
        }
    }
    Ok(views)
}

/// The same changes without the pages that are left to another editor, and with the pages that are taken
/// over.
pub(crate) fn with_taken(
    alloc: Global,
    changes: Vec<Change>,
    wanted: &[&str],
    taken: &[String],
    left: &[String],
) -> Result<Vec<Change>, AllocError> {
    let mut all = Vec::new(alloc);
    for change in changes {
        if !left.contains(&change.view.path) && !taken.contains(&change.view.path) {
            all.push(change)?;
        }
    }
    for view in views_of(alloc, wanted, taken)? {
        all.push(Change {
            before: THERE,
            view,
        })?;
    }
    Ok(all)
}

/// The pages that differ between what a ledger says that the group has and the texts after.
pub(crate) fn changes_since(
    alloc: Global,
    ledger: &Ledger,
    after: &[&str],
) -> Result<Vec<Change>, AllocError> {
    if ledger.next_texts(alloc, after)?.is_empty() {
        return Ok(Vec::new(alloc));
    }
    changes_of(alloc, &lent(alloc, ledger.kept())?, after)
}

fn is_shown(answer: Option<&NodeAnswer>, view: &View) -> bool {
    answer.is_some_and(|answer| shows(answer, view))
}

/// Whether a node answered, and not a proxy before it.
fn is_answered(answer: Option<&NodeAnswer>) -> bool {
    answer.is_some_and(|answer| is_of_page(answer.status))
}

/// Reports that a page is not shown, and why.
fn tell_difference<E: Write>(
    alloc: Global,
    err: &mut E,
    url: &str,
    release: u64,
    path: &str,
    answered: bool,
) -> Result<(), EditorFault> {
    let why = if answered {
        "is not what this folder renders"
    } else {
        "was not answered"
    };
    Ok(say_made(err, format!(in alloc; "{url}/@{release}{path}: {why}"))?)
}

/// How many pages or paths are reported one by one. After them comes how many more there are.
pub(crate) const TOLD: usize = 10;

/// Reports how many more pages are not shown than were reported one by one.
fn tell_more<E: Write>(
    alloc: Global,
    err: &mut E,
    url: &str,
    release: u64,
    differing: usize,
) -> Result<(), EditorFault> {
    let more = differing.saturating_sub(TOLD);
    if more == 0 {
        return Ok(());
    }
    Ok(say_made(
        err,
        format!(in alloc; "{url}/@{release}/: and {more} more pages"),
    )?)
}

/// Says once why pages may be shown differently, how many there are, and what to do.
fn tell_why<E: Write>(alloc: Global, err: &mut E, otherwise: usize) -> Result<(), EditorFault> {
    if otherwise == 0 {
        return Ok(());
    }
    Ok(say_made(
        err,
        format!(in alloc;
            "pages that this folder renders otherwise, or removes: {otherwise}. Another editor has put them, \
             or has put or removed a name that they use, or another copy of this folder was published at the \
             same time. To have them as this folder has them publish with --take-over"
        ),
    )?)
}

/// Reports each page whose answer is not the wanted one, and says once why that may be. It returns their
/// paths.
fn tell_all<E: Write>(
    alloc: Global,
    err: &mut E,
    url: &str,
    release: u64,
    views: &[View],
    answers: &[NodeAnswer],
) -> Result<Vec<String>, EditorFault> {
    let mut differing = Vec::new(alloc);
    let mut otherwise: usize = 0;
    for (i, view) in views.iter().enumerate() {
        let answer = answers.get(i);
        if !is_shown(answer, view) {
            let answered = is_answered(answer);
            if differing.len() < TOLD {
                tell_difference(alloc, err, url, release, view.path.as_str(), answered)?;
            }
            otherwise = otherwise.saturating_add(usize::from(answered));
            differing.push(view.path.clone()?)?;
        }
    }
    tell_more(alloc, err, url, release, differing.len())?;
    tell_why(alloc, err, otherwise)?;
    Ok(differing)
}

/// The answers of a node for paths of a release.
pub(crate) fn pages_at<N: Net<Stream = TcpStream>>(
    net: &N,
    alloc: Global,
    node: &Address,
    release: u64,
    paths: &[&str],
) -> Result<Vec<NodeAnswer>, AllocError> {
    let questions: Vec<Question<'_>> = paths
        .iter()
        .map(|path| Question::Page(release, *path))
        .collect(alloc)?;
    ask(net, alloc, node, &questions)
}

/// Reports each page of a release that differs from its view, and returns their paths.
pub(crate) fn tell_differences<N: Net<Stream = TcpStream>, E: Write>(
    net: &N,
    alloc: Global,
    err: &mut E,
    node: &Address,
    release: u64,
    views: &[View],
) -> Result<Vec<String>, EditorFault> {
    let paths: Vec<&str> = views.iter().map(|view| view.path.as_str()).collect(alloc)?;
    let answers = pages_at(net, alloc, node, release, &paths)?;
    tell_all(alloc, err, node.url.as_str(), release, views, &answers)
}
