//! A page pays for an escaped text after it was added, by how much the page grew. So it may grow past its
//! limit by one value at most.

ghost use Rattle.std.specs.Prelude.{◌≡◌, [], string_bytes};
ghost use Rattle.render.specs.Printed.{escaped};
ghost use Rattle.render.specs.Meaning.{Costs, prints, max_cost};
ghost use Rattle.render.specs.Rendering.{Adds};

use crate::escape::escape_into;
use crate::fault::RenderFault;
use std::alloc::Global;

/// What a page may cost: 1 for each tag rendered, each item pushed and each byte printed.
const MAX_COST: usize = 1_000_000;

/// The text of a page so far, and what the rest of it may cost.
#[derive(Drop)]
pub(crate) struct Output {
    pub text: String,
    pub left: usize,
}

impl Output {
    pub fn new(alloc: Global) -> Output
        ensures empty { string_bytes result.text ≡ [] }
        ensures all { result.left ≡ max_cost }
    {
        Output {
            text: String::new(alloc),
            left: MAX_COST,
        }
    }

    pub fn charge(&mut self, cost: usize) -> Result<(), RenderFault>
        ensures { Adds self.old self.new (Costs [] cost) result }
    {
        if cost > self.left {
            return Err(RenderFault::OverLimit);
        }
        self.left -= cost;
        Ok(())
    }

    pub fn print(&mut self, text: &str) -> Result<(), RenderFault>
        ensures { Adds self.old self.new (prints text.now) result }
    {
        self.charge(text.len())?;
        self.text.push_str(text)?;
        Ok(())
    }

    pub fn print_escaped(&mut self, text: &str) -> Result<(), RenderFault>
        ensures { Adds self.old self.new (prints (escaped text.now)) result }
    {
        let page = &mut self.text;
        let before = page.len();
        escape_into(text, page)?;
        let added = page.len() - before;
        self.charge(added)
    }
}
