//! A folder as a service: one release, of the folder as it was read; or what is wrong with it at each path.
ghost use Rattle.std.specs.Prelude.{◌≡◌, ◌↔◌, ◌<◌, ◌-◌, ◌^◌, suc, string_bytes, Some, None, ⊤, IfOk, IsErrOf};
ghost use Rattle.std.specs.Prelude.{IsTrue};
ghost use Rattle.release.specs.Standing.{answer_view};
ghost use Rattle.editor_preview.specs.Previews.{page_in, shown_at};

use crate::script::with_script;
use crate::shown::Shown;
use http_serve::{Service, Submission, SubmitFault};
use release::{Answer, AnswerFault};
use site_ids::{Instance, Ticket};
use std::alloc::Global;

/// A folder as it was read, and how its files looked then (`seen`). With each change its number becomes
/// larger.
#[derive(Drop)]
pub struct Previewed {
    number: u64,
    seen: String,
    shown: Shown,
}

/// What is shown at a path.
fn answer_at(shown: &Shown, path: &str) -> Result<Answer, AnswerFault>
    ensures page { IfOk result (λ a. shown_at shown.now path.now ≡ Some (answer_view a)) }
    ensures none { IsErrOf result AnswerFault.NoSuchRelease → shown_at shown.now path.now ≡ None }
{
    match shown {
        Shown::Pages(releases) => releases.answer(1, path),
        Shown::Faults(text) => Ok(Answer {
            status: 500,
            body: text.clone()?,
            location: None,
        }),
    }
}

impl Previewed {
    /// What is shown first, under a number.
    pub fn new(number: u64, seen: String, shown: Shown) -> Previewed
        ensures { result ≡ record { number = number; seen = seen; shown = shown } }
    {
        Previewed {
            number,
            seen,
            shown,
        }
    }

    /// Whether the files look as they did when they were read.
    pub fn is_as(&self, seen: &str) -> bool
        ensures { IsTrue result ↔ (string_bytes self.now.seen ≡ seen.now) }
    {
        self.seen.as_str() == seen
    }

    /// Shows the folder as it was read once more. The number grows, up to the last one there is.
    pub fn change(&mut self, seen: String, shown: Shown)
        ensures number { self.old.number < 2 ^ 64 - 1 → self.new.number ≡ suc self.old.number }
        ensures shown { (self.new.seen ≡ seen) × (self.new.shown ≡ shown) }
    {
        self.number = self.number.saturating_add(1);
        self.seen = seen;
        self.shown = shown;
    }
}

impl Service for Previewed {
    ghost offered = { record {
      newest_is = λ previewed. previewed.number;
      page_is = page_in;
      receipt_is = λ _ _. None;
      takes = λ _ _ _ _ _. ⊤;
      stays = λ old new. new ≡ old;
    } };

    fn newest(&self) -> u64 {
        self.number
    }

    fn answer(&self, alloc: Global, n: u64, path: &str) -> Result<Answer, AnswerFault> {
        if n != self.number {
            return Err(AnswerFault::NoSuchRelease);
        }
        let answer = answer_at(&self.shown, path)?;
        Ok(with_script(alloc, n, path, answer)?)
    }

    fn receipt(&self, _ticket: Ticket) -> Option<Instance> {
        None
    }

    fn submit(
        &mut self,
        _alloc: Global,
        _ticket: Ticket,
        _text: &[u8],
    ) -> Result<Submission, SubmitFault> {
        Err(SubmitFault::Stopped)
    }
}
