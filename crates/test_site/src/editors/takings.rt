//! What a publication takes over from other editors, as tables.
use crate::comparing::{ensure, same};
use editor_plan::{is_of_page, is_taken, joins};

/// The statuses of answers for a path, whether each is one that a node gives for a page, and whether the path
/// is taken over: if the folder's own texts answer otherwise, and if they answer so.
const ANSWERS: &[(u16, bool, Option<bool>, Option<bool>)] = &[
    (200, true, Some(true), Some(false)),
    (301, true, Some(true), Some(false)),
    (500, true, Some(true), Some(false)),
    // Nothing is there.
    (404, true, Some(false), Some(false)),
    // A proxy before a node answers so.
    (302, false, None, None),
    (401, false, None, None),
    (403, false, None, None),
    (429, false, None, None),
    (502, false, None, None),
    (503, false, None, None),
    (504, false, None, None),
];

#[test]
fn paths_of_others(rt: HostRuntime) {
    for &(status, of_page, other, own) in ANSWERS {
        ensure(&rt, is_of_page(status) == of_page, status);
        same(&rt, is_taken(status, false), other);
        same(&rt, is_taken(status, true), own);
    }
}

/// How many texts of a folder have their receipts, the group's newest release, and whether the folder joins
/// what others have published there.
const FOLDERS: &[(usize, u64, bool)] = &[
    (0, 0, false),
    (0, 1, true),
    (0, u64::MAX, true),
    (1, 0, false),
    (1, 1, false),
    (2_000, 60, false),
];

#[test]
fn folders_that_join_others(rt: HostRuntime) {
    for &(receipts, newest, joined) in FOLDERS {
        ensure(&rt, joins(receipts, newest) == joined, newest);
    }
}
