ghost use Rattle.std.specs.Prelude.{◌≡◌, ◌≢◌, IfOk, IfErr, Err};
ghost use Rattle.mustache_scan.specs.declared.fault.FaultKind.TheVariants.{OutOfMemory};
ghost use Rattle.mustache_parse.specs.Template.{IsTemplateOf};
ghost use Rattle.mustache_parse.specs.Tree.{tree_of};

use crate::nesting::nodes_of;
use crate::template::Template;
use mustache_scan::{TemplateFault, scan};
use std::alloc::Global;

/// Reads a template: its tree, or what is wrong with it.
pub fn parse(alloc: Global, source: &str) -> Result<Template, TemplateFault>
    ensures ok { IfOk result (λ t. IsTemplateOf t source.now) }
    ensures fault { IfErr result (λ f. f.kind ≢ OutOfMemory → tree_of source.now ≡ Err f) }
    ensures memory { IfErr result (λ f. f.kind ≡ OutOfMemory → f.place ≡ 0) }
{
    let tokens = scan(alloc, source)?;
    let nodes = nodes_of(alloc, &tokens)?;
    Ok(Template::new(nodes))
}
