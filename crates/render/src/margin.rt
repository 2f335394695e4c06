//! A margin is a list of borrowed parts, so a call copies nothing.

ghost use Rattle.std.specs.Prelude.{◌≡◌, ◌++◌};
ghost use Rattle.mustache_parse.specs.View.{own_under};
ghost use Rattle.render.specs.Margin.{lead, margin_text, margin_of, margin_at};
ghost use Rattle.render.specs.Meaning.{prints};
ghost use Rattle.render.specs.Rendering.{Adds};

use crate::fault::RenderFault;
use crate::output::Output;

/// The blanks before each line of a partial: those of the tags that called its caller, and after them those
/// of its own tag.
#[derive(Clone, Copy)]
pub(crate) struct Margin<'a> {
    pub own: &'a str,
    pub outer: Option<&'a Margin<'a>>,
}

/// The margin of a partial under another one. If its tag is standalone, it is longer by the tag's own blanks,
/// and the same if there are none. If its tag is not standalone, there is no margin.
#[tactic(auto, using(crate::proofs::Margins::longer))]
pub(crate) fn margin_within<'a>(
    own: &'a Option<String>,
    outer: Option<&'a Margin<'a>>,
) -> Option<Margin<'a>>
    ensures { margin_of result ≡ own_under (margin_at outer.entry) own.now }
{
    match own {
        Some(own) if own.is_empty() => outer.copied(),
        Some(own) => Some(Margin {
            own: own.as_str(),
            outer,
        }),
        None => None,
    }
}

/// Prints a margin, the outermost blanks first. It is paid for by its bytes, and no deeper than partials
/// nest.
pub(crate) fn print_margin(margin: &Margin<'_>, out: &mut Output) -> Result<(), RenderFault>
    ensures { Adds out.old out.new (prints (margin_text margin.now)) result }
{
    if let Some(outer) = margin.outer {
        print_margin(outer, out)?;
    }
    out.print(margin.own)
}

/// Prints what is on one line, after the margin if it begins the line.
pub(crate) fn print_line(
    line: &str,
    leads: bool,
    margin: &Margin<'_>,
    out: &mut Output,
) -> Result<(), RenderFault>
    ensures { Adds out.old out.new (prints (lead (margin_text margin.now) leads ++ line.now)) result }
{
    if leads {
        print_margin(margin, out)?;
    }
    out.print(line)
}
