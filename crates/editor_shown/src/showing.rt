//! Whether a release shows what a folder renders.
ghost use Rattle.std.specs.Prelude.{◌≡◌};
ghost use Rattle.editor_shown.specs.Comparing.{is_compared, shows};

use editor_folder::View;
use editor_http::NodeAnswer;

/// What a node answers for a path that has nothing.
pub const NOTHING: u16 = 404;

/// Whether an answer is what a view shows.
pub fn shows(answer: &NodeAnswer, view: &View) -> bool
    ensures { result ≡ shows answer.now view.now }
{
    answer.status == view.status && answer.body.as_slice() == view.body.as_bytes()
}

/// Whether a release is compared with the view of a path. If `touched`, the publication has a text about the
/// path; if `left`, it leaves the path to another editor.
pub fn is_compared(status: u16, touched: bool, left: bool) -> bool
    ensures { result ≡ is_compared status touched left }
{
    (status != NOTHING || touched) && !left
}
