//! Paths that a link has to spell otherwise.
use std::alloc::{AllocError, Global};

/// The marks that browsers do not read as part of a path: what a link has to write for each, and what
/// browsers read it as.
const MARKS: [(char, &str, &str); 3] = [
    ('?', "%3F", "where a query begins"),
    ('#', "%23", "where a place in the page begins"),
    (
        '%',
        "%25",
        "the first of three that stand for another character",
    ),
];

/// Why a browser does not ask for a path as a link spells it; `None` if it does.
pub(crate) fn mark_in(alloc: Global, path: &str) -> Result<Option<String>, AllocError> {
    for (mark, spelling, what) in MARKS {
        if path.contains(mark) {
            return Ok(Some(format!(in alloc;
                "in {path} `{mark}` is part of the path, so a link has to spell it {spelling}: browsers read \
                 it as {what}"
            )?));
        }
    }
    Ok(None)
}
