//! Which of the paths that a publication asks a group for are another editor's.
//!
//! The publication asks for them before it sends anything. Another editor may put something at one of the
//! paths at the same moment. So the publication asks again once the folder's commands are in the log, before
//! it releases them. The other editor's release may show a part of these commands, since they came into the
//! log one after another.

use crate::comparing::pages_at;
use crate::own::OwnTexts;
use editor_common::EditorFault;
use editor_files::lent;
use editor_folder::View;
use editor_group::Address;
use editor_http::NodeAnswer;
use editor_shown::{Which, is_own, those_of};
use std::alloc::{AllocError, Global};
use std::collections::BTreeSet;
use std::net::{Net, TcpStream};

/// The paths that a publication changes, adds or removes, and the newest release that was asked for them.
#[derive(Drop)]
pub(crate) struct Asked {
    pub release: u64,
    pub paths: Vec<String>,
    /// Those that are taken over.
    pub taken: Vec<String>,
    /// The folder's texts as a release may have them (`states_of` in `editor_plan`).
    pub states: Vec<Vec<String>>,
}

/// The paths that were compared, by `Which`. A path that shows a part of the folder's plan is fresh.
#[derive(Drop)]
pub(crate) struct Compared {
    pub taken: Vec<String>,
    pub others: Vec<String>,
    pub fresh: Vec<String>,
}

impl Compared {
    /// Of no path.
    fn none(alloc: Global) -> Compared {
        Compared {
            taken: Vec::new(alloc),
            others: Vec::new(alloc),
            fresh: Vec::new(alloc),
        }
    }
}

/// Those of the paths that a node's answers show as no state of the folder has them, but as the folder has
/// them while its commands come into the log.
fn parts_of(
    alloc: Global,
    paths: &[String],
    answers: &[NodeAnswer],
    views: &[Vec<View>],
    own: OwnTexts<'_>,
) -> Result<BTreeSet<String>, AllocError> {
    let mut parts = BTreeSet::new(alloc);
    for (i, (path, answer)) in paths.iter().zip(answers).enumerate() {
        if !is_own(answer, views, i)
            && is_own(answer, &own.views_between(alloc, path.as_str())?, 0)
        {
            let _ = parts.insert(path.clone()?)?;
        }
    }
    Ok(parts)
}

/// Those of the paths that are not in the set.
pub(crate) fn apart(
    alloc: Global,
    paths: Vec<String>,
    set: &BTreeSet<String>,
) -> Result<Vec<String>, AllocError> {
    let mut others = Vec::new(alloc);
    for path in paths {
        if !set.contains(path.as_str()) {
            others.push(path)?;
        }
    }
    Ok(others)
}

/// Compares paths with a node's release. The folder may have the texts of `own`.
pub(crate) fn compare<N: Net<Stream = TcpStream>>(
    net: &N,
    alloc: Global,
    node: &Address,
    release: u64,
    own: OwnTexts<'_>,
    paths: &[String],
) -> Result<Compared, EditorFault> {
    if release == 0 || paths.is_empty() {
        return Ok(Compared::none(alloc));
    }
    let views = own.views(alloc, paths)?;
    let answers = pages_at(net, alloc, node, release, &lent(alloc, paths)?)?;
    let url = node.url.as_str();
    let parts = parts_of(alloc, paths, &answers, &views, own)?;
    let taken = those_of(alloc, url, Which::Taken, paths, &answers, &views)?;
    let others = those_of(alloc, url, Which::Others, paths, &answers, &views)?;
    let mut fresh = those_of(alloc, url, Which::Fresh, paths, &answers, &views)?;
    let (taken, others) = (apart(alloc, taken, &parts)?, apart(alloc, others, &parts)?);
    let mut parts: Vec<String> = parts.into_iter().collect(alloc)?;
    fresh.append(&mut parts)?;
    Ok(Compared {
        taken,
        others,
        fresh,
    })
}

impl Asked {
    /// Those of the paths that were another editor's in one of the releases after `self.release`, up to
    /// `newest`, once `plan` was sent. It asks each of these releases, since a release of a third editor may
    /// show the folder's commands in the other's place again.
    pub(crate) fn taken_by<N: Net<Stream = TcpStream>>(
        &self,
        net: &N,
        alloc: Global,
        node: &Address,
        newest: u64,
        plan: &[&str],
    ) -> Result<Vec<String>, EditorFault> {
        let mut taken = BTreeSet::new(alloc);
        let own = OwnTexts {
            states: &self.states,
            plan,
        };
        for release in self.release.saturating_add(1)..newest.saturating_add(1) {
            for path in compare(net, alloc, node, release, own, &self.paths)?.taken {
                let _ = taken.insert(path)?;
            }
        }
        Ok(taken.into_iter().collect(alloc)?)
    }
}
