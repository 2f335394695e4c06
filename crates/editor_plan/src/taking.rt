//! What a publication may take over from others: a path of theirs, or names that no node reports.
ghost use Rattle.std.specs.Prelude.{◌≡◌};
ghost use Rattle.editor_plan.specs.Takings.{is_of_page, is_taken, joins, takes_over};

/// Whether a node gives this status for a page. Any other comes from a proxy before the node.
pub fn is_of_page(status: u16) -> bool
    ensures { result ≡ is_of_page status }
{
    status == 200 || status == 301 || status == 404 || status == 500
}

fn takes_over(status: u16, own: bool) -> bool
    ensures { result ≡ takes_over status own }
{
    status != 404 && !own
}

/// Whether a publication takes over a path for which its folder has no receipt. The group answers the path
/// with `status`, and `own` says whether the folder's own texts give that answer. `None` if no node gives
/// such a status for a page.
pub fn is_taken(status: u16, own: bool) -> Option<bool>
    ensures { result ≡ is_taken status own }
{
    if is_of_page(status) {
        Some(takes_over(status, own))
    } else {
        None
    }
}

/// Whether a publication joins what others have published: its folder has `receipts` receipts, and the
/// group's newest release is `newest`. No node reports which names of templates, partials and data the others
/// use.
pub fn joins(receipts: usize, newest: u64) -> bool
    ensures { result ≡ joins receipts newest }
{
    receipts == 0 && newest != 0
}
