ghost use Rattle.std.specs.Prelude.{◌≡◌, ◌<◌, ◌||◌, ◌&&◌, ◌==◌, not, true, Bool, List, ℕ, IfSome};
ghost use Rattle.std.specs.Prelude.{MatchOption, ◌∷◌, ◌++◌, length};
ghost use Rattle.mustache_parse.specs.Margin.{literal_under};
ghost use Rattle.render.specs.Margin.{lead, margin_text, margin_at};
ghost use Rattle.render.specs.Meaning.{prints};
ghost use Rattle.render.specs.Rendering.{Adds};

use crate::fault::RenderFault;
use crate::margin::{Margin, print_line};
use crate::output::Output;

/// The first line, without its newline, and what follows it; `None` if the text has no newline.
fn first_line(text: &str) -> Option<(&str, &str)>
    ensures line { MatchOption result
        ((w : List ℕ) (leads trails : Bool)
        → literal_under w leads trails text.now
        ≡ lead w (leads && (trails || not (length text.now == 0))) ++ text.now)
        (λ x. (w : List ℕ) (leads trails : Bool)
        → literal_under w leads trails text.now
        ≡ (lead w leads ++ x.0.now) ++ 10 ∷ literal_under w true trails x.1.now) }
    ensures shorter { IfSome result (λ x. length x.1.now < length text.now) }
{
    text.split_once('\n')
}

/// Prints a text line by line, each line after the margin.
fn print_lines(
    text: &str,
    leads: bool,
    trails: bool,
    margin: &Margin<'_>,
    out: &mut Output,
) -> Result<(), RenderFault>
    ensures { Adds out.old out.new
        (prints (literal_under (margin_text margin.now) leads trails text.now)) result }
{
    let mut rest = text;
    let mut begins = leads;
    while let Some((line, after)) = first_line(rest) {
        print_line(line, begins, margin, out)?;
        out.print("\n")?;
        rest = after;
        begins = true;
    }
    print_line(rest, begins && (trails || !rest.is_empty()), margin, out)
}

/// Prints a template's text under a margin. Without a margin it is printed whole.
pub(crate) fn print_text(
    text: &str,
    leads: bool,
    trails: bool,
    margin: Option<&Margin<'_>>,
    out: &mut Output,
) -> Result<(), RenderFault>
    ensures { Adds out.old out.new
        (prints (literal_under (margin_at margin.entry) leads trails text.now)) result }
{
    match margin {
        None => out.print(text),
        Some(margin) => print_lines(text, leads, trails, margin, out),
    }
}
