//! What releases may show of a folder's own texts.
use crate::renewing::{Course, course_of};
use editor_files::lent;
use editor_folder::{View, views_of};
use std::alloc::{AllocError, Global};
use std::collections::BTreeSet;

/// A folder's texts as releases may have them: those of one of its states (`states_of` in `editor_plan`),
/// possibly with the first texts of a plan, which come into the log one after another.
#[derive(Clone, Copy)]
pub(crate) struct OwnTexts<'a> {
    pub states: &'a [Vec<String>],
    pub plan: &'a [&'a str],
}

impl OwnTexts<'_> {
    /// What each of the states shows at paths.
    pub(crate) fn views(
        self,
        alloc: Global,
        paths: &[String],
    ) -> Result<Vec<Vec<View>>, AllocError> {
        let mut views = Vec::new(alloc);
        for texts in self.states {
            views.push(views_of(alloc, &lent(alloc, texts)?, paths)?)?;
        }
        Ok(views)
    }

    /// What each of the states shows at a path after one text of the plan has come into the log, after two,
    /// and so on, up to all of them.
    pub(crate) fn views_between(
        self,
        alloc: Global,
        path: &str,
    ) -> Result<Vec<Vec<View>>, AllocError> {
        let mut views = Vec::new(alloc);
        if self.plan.is_empty() {
            return Ok(views);
        }
        let mut paths = Vec::with_capacity(alloc, 1)?;
        paths.push(String::from_str(alloc, path)?)?;
        for state in self.states {
            let before = lent(alloc, state)?;
            let Course {
                before: mut texts,
                steps,
            } = course_of(alloc, &before, self.plan, &paths)?;
            for step in &steps {
                texts.push(*step)?;
                views.push(views_of(alloc, &texts, &paths)?)?;
            }
        }
        Ok(views)
    }
}

/// The texts of the last of these states that the first one does not have, in the order in which they came,
/// or will come, into the log.
pub(crate) fn texts_since(alloc: Global, states: &[Vec<String>]) -> Result<Vec<&str>, AllocError> {
    let mut since = Vec::new(alloc);
    let (Some(first), Some(last)) = (states.first(), states.last()) else {
        return Ok(since);
    };
    let mut released = BTreeSet::new(alloc);
    for text in first {
        let _ = released.insert(text.as_str())?;
    }
    for text in last {
        if !released.contains(text.as_str()) {
            since.push(text.as_str())?;
        }
    }
    Ok(since)
}
