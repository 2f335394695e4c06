//! Redirects that lead on and on.
use std::alloc::{AllocError, Global};
use std::collections::BTreeMap;

/// The most redirects in a row that browsers follow.
const FOLLOWED: usize = 20;

/// Where `FOLLOWED` redirects lead; `None` if fewer lead to a path without a redirect.
fn led_on<'a>(targets: &'a BTreeMap<String, String>, path: &'a str) -> Option<&'a str> {
    let mut at = path;
    for _ in 0..FOLLOWED {
        at = targets.get(at)?.as_str();
    }
    Some(at)
}

/// Whether at most `FOLLOWED` redirects lead back to a path.
fn comes_back(targets: &BTreeMap<String, String>, path: &str) -> bool {
    let mut at = path;
    for _ in 0..FOLLOWED {
        match targets.get(at) {
            Some(next) => at = next.as_str(),
            None => return false,
        }
        if at == path {
            return true;
        }
    }
    false
}

/// Why browsers give up at the target of a redirect that leads on; `None` if they do not.
pub(crate) fn endless(
    alloc: Global,
    targets: &BTreeMap<String, String>,
    target: &str,
) -> Result<Option<String>, AllocError> {
    let Some(later) = led_on(targets, target) else {
        return Ok(None);
    };
    let reason = if comes_back(targets, later) {
        format!(in alloc; "{target} leads in a circle, so browsers give up")?
    } else {
        format!(in alloc;
            "{target} leads on and on: browsers follow 20 redirects, and then give up"
        )?
    };
    Ok(Some(reason))
}
