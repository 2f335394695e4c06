//! Which of the paths that were compared are another editor's.
ghost use Rattle.std.specs.Prelude.{◌≡◌, map, slice_get, true, Some, None, IfOk, IfErr, string_bytes};
ghost use Rattle.std.specs.Prelude.{option_copied};
ghost use Rattle.editor_plan.specs.Takings.{is_of_page};
ghost use Rattle.editor_shown.specs.Taking.{shows_some, is_own, is_fresh, has, those_of};
ghost use Rattle.editor_shown.specs.Unanswered.{TellsPath, TellsUnanswered};

use crate::showing::shows;
use editor_common::EditorFault;
use editor_folder::View;
use editor_http::NodeAnswer;
use editor_plan::{is_of_page, is_taken};
use std::alloc::{AllocError, Global};

/// Whether the view at that place is what was answered.
fn shows_at(answer: &NodeAnswer, views: &[View], place: usize) -> bool
    ensures { result ≡ shows_some answer.now (slice_get views.now place) }
{
    match views.get(place) {
        Some(view) => shows(answer, view),
        None => false,
    }
}

/// Whether one of the folder's states shows what was answered at that place.
pub fn is_own(answer: &NodeAnswer, states: &[Vec<View>], place: usize) -> bool
    ensures { result ≡ is_own answer.now place states.now }
{
    states
        .iter()
        .any(|views| shows_at(answer, views.as_slice(), place))
}

/// Whether one of the folder's states after the first shows what was answered at that place, and the first
/// does not.
fn is_fresh(answer: &NodeAnswer, states: &[Vec<View>], place: usize) -> bool
    ensures { result ≡ is_fresh answer.now place states.now }
{
    match states.first() {
        Some(released) => {
            is_own(answer, states, place) && !shows_at(answer, released.as_slice(), place)
        }
        None => false,
    }
}

/// The fault of a path that no node answered.
fn unanswered(alloc: Global, url: &str, path: &str) -> Result<EditorFault, AllocError>
    ensures { IfOk result (λ why. TellsPath url.now path.now None why) }
{
    Ok(EditorFault::Stop(format!(in alloc; "{url}{path}: was not answered")?))
}

/// The answer for a path. It is a fault if no answer came, or if its status is one that no node gives.
fn page_answer<'a>(
    alloc: Global,
    url: &str,
    path: &str,
    answer: Option<&'a NodeAnswer>,
) -> Result<&'a NodeAnswer, EditorFault>
    ensures answered { IfOk result (λ found. (answer.entry ≡ Some found)
        × (is_of_page found.now.status ≡ true)) }
    ensures unanswered { IfErr result (TellsPath url.now path.now (option_copied answer.entry)) }
{
    match answer {
        Some(answer) if is_of_page(answer.status) => Ok(answer),
        _ => Err(unanswered(alloc, url, path)?),
    }
}

/// Which of the paths that were compared.
#[derive(Clone, Copy)]
pub enum Which {
    /// Those that others took over.
    Taken,
    /// Those that are not shown as the folder's, even if nothing is there any more.
    Others,
    /// Those that are shown as what the folder has put since its last release.
    Fresh,
}

impl Which {
    /// Whether the path at that place is one of them, by what a node answered for it.
    fn has(self, answer: &NodeAnswer, states: &[Vec<View>], place: usize) -> bool
        ensures { result ≡ has self answer.now place states.now }
    {
        let own = is_own(answer, states, place);
        match self {
            Which::Taken => is_taken(answer.status, own).unwrap_or(false),
            Which::Others => !own,
            Which::Fresh => is_fresh(answer, states, place),
        }
    }
}

/// Those of the paths that `which` names, by a node's answers and the views of the folder's states.
pub fn those_of(
    alloc: Global,
    url: &str,
    which: Which,
    paths: &[String],
    answers: &[NodeAnswer],
    states: &[Vec<View>],
) -> Result<Vec<String>, EditorFault>
    ensures those { IfOk result (λ those. map string_bytes those.items
        ≡ those_of which states.now 0 (map string_bytes paths.now) answers.now) }
    ensures unanswered { IfErr result
        (TellsUnanswered url.now (map string_bytes paths.now) answers.now) }
{
    let mut those = Vec::new(alloc);
    for (i, path) in paths.iter().enumerate() {
        let answer = page_answer(alloc, url, path.as_str(), answers.get(i))?;
        if which.has(answer, states, i) {
            those.push(path.clone()?)?;
        }
    }
    Ok(those)
}
