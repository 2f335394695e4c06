//! The cost of a section, an item or a partial is paid before it is entered. So recursive partials end, too.
//! The depth is checked after the text of a partial was read.

ghost use Rattle.std.specs.Prelude.{◌≡◌, [], IfOk, IsErrOf, Some, None, string_bytes};
ghost use Rattle.context.specs.View.{data_view};
ghost use Rattle.mustache_parse.specs.Template.{template_tree};
ghost use Rattle.render.specs.Meaning.{Partials as Texts, rendering};

use crate::fault::RenderFault;
use crate::nodes::{Scope, render_nodes};
use crate::output::Output;
use crate::partials::Partials;
use context::{Data, Frame};
use mustache_parse::Template;
use std::alloc::Global;

/// How many partials may nest in a page.
const MAX_NESTED: u32 = 32;

/// The text of a template over data (mustache(5)). It is over the limit if it costs more than a page may, or
/// if partials nest too deep.
pub fn render<P: Partials>(
    alloc: Global,
    template: &Template,
    page_data: &Data,
    partials: &P,
) -> Result<String, RenderFault>
    ensures text { IfOk result (λ s. (texts : Texts) → P.stands partials.now texts
        → rendering texts (template_tree [] template.now) (data_view page_data.now) ≡ Some (string_bytes s)) }
    ensures over { IsErrOf result RenderFault.OverLimit → (texts : Texts) → P.stands partials.now texts
        → rendering texts (template_tree [] template.now) (data_view page_data.now) ≡ None }
{
    let mut out = Output::new(alloc);
    let frame = Frame {
        data: page_data,
        below: None,
    };
    let scope = Scope {
        margin: None,
        frame: &frame,
        partials,
        depth: MAX_NESTED,
    };
    match render_nodes(template.nodes(), &scope, &mut out) {
        Ok(()) => Ok(out.text),
        Err(fault) => Err(fault),
    }
}
