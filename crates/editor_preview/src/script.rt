//! The script by which a browser shows a page anew once the folder has changed.
ghost use Rattle.std.specs.Prelude.{◌≡◌, IfOk};
ghost use Rattle.release.specs.Standing.{answer_view};
ghost use Rattle.editor_preview.specs.Scripts.{in_browser, is_html as is_html_path};

use release::Answer;
use std::alloc::{AllocError, Global};

/// What comes in the script before the number of what a page shows. Twice a second the script asks for the
/// newest number. If that is another number, it loads the page again, or shows in place of the page what is
/// wrong with it.
pub(crate) const BEFORE: &str = "<script>
(function (shown) {
  function put(text) {
    var told = document.createElement('pre');
    told.textContent = text;
    document.body.replaceChildren(told);
  }
  function show(page) {
    if (page.ok) location.reload();
    else return page.text().then(put);
  }
  function compare(newest) {
    if (Number(newest) === shown) return;
    return fetch(location.href, { cache: 'no-store' })
      .then(function (page) {
        shown = Number(newest);
        return show(page);
      });
  }
  function look() {
    fetch('/_newest', { cache: 'no-store' })
      .then(function (answer) { return answer.text(); })
      .then(compare)
      .catch(function () {})
      .then(function () { setTimeout(look, 500); });
  }
  look();
})(";

/// What comes in the script after that number.
pub(crate) const BEHIND: &str = ");
</script>
";

/// Whether the page of a path is read as HTML: its name has no ending of another kind of file.
fn is_html(path: &str) -> bool
    ensures { result ≡ is_html_path path.now }
{
    let path = path.as_bytes();
    !(path.ends_with(b".css")
        || path.ends_with(b".js")
        || path.ends_with(b".json")
        || path.ends_with(b".svg")
        || path.ends_with(b".txt")
        || path.ends_with(b".xml"))
}

/// The page as a browser receives it, under the number of what is shown.
pub(crate) fn with_script(
    alloc: Global,
    number: u64,
    path: &str,
    answer: Answer,
) -> Result<Answer, AllocError>
    ensures { IfOk result (λ a. answer_view a ≡ in_browser number path.now (answer_view answer)) }
{
    if answer.status != 200 || !is_html(path) {
        return Ok(answer);
    }
    let Answer {
        status,
        body,
        location,
    } = answer;
    let (text, before, behind) = (body.as_str(), BEFORE, BEHIND);
    Ok(Answer {
        status,
        body: format!(in alloc; "{text}{before}{number}{behind}")?,
        location,
    })
}
