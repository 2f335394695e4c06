//! Laws of indented partials.
//!
//! They cost some 2,100 of this crate's 3,400 lines of proof. They allow a partial to be read once and
//! printed under a margin, so a page with a thousand calls of one takes 31 µs in place of 288
//! (docs/MEASURED.md).

ghost use Rattle.mustache_parse.specs.BlankIndents.{IndentsAreBlank};
ghost use Rattle.mustache_parse.specs.Indenting.{IndentsPieces, KeepsTrees, NothingToIndent};
ghost use Rattle.mustache_parse.specs.Margin.{MarginMakesTree};

/// Blanks before the lines of a text neither give it a tree nor take one away: they come outside its tags, or
/// beside padding within them.
pub fn indenting_keeps_trees()
    ensures pieces { IndentsPieces }
    ensures trees { KeepsTrees }
    ensures nothing { NothingToIndent }
{}

/// A partial in a tree is indented only by blanks, so its text also has a tree after it is indented.
pub fn indents_are_blank()
    ensures { IndentsAreBlank }
{}

/// The tree of an indented text is that of the text's own tokens under a margin: nothing has to be read
/// again.
pub fn margin_makes_tree()
    ensures { MarginMakesTree }
{}
