ghost use Rattle.std.specs.Prelude.{◌≡◌, ◌≤◌, [], ◌∷◌, map, OnOk};
ghost use Rattle.context.specs.View.{data_view};
ghost use Rattle.context.specs.Stack.{stack_of};
ghost use Rattle.context.specs.LookUp.{look_up, items_of};
ghost use Rattle.mustache_parse.specs.Tree.{nothing};
ghost use Rattle.mustache_parse.specs.View.{node_onto, tree_view, own_under};
ghost use Rattle.mustache_parse.specs.BlankIndents.{HasBlankIndents};
ghost use Rattle.mustache_parse.specs.Indenting.{AreBlank};
ghost use Rattle.render.specs.Margin.{margin_at};
ghost use Rattle.render.specs.Printed.{printed, escaped};
ghost use Rattle.render.specs.Meaning.{and_then, costs_one, prints, for_each, where_none, Partials as Texts};
ghost use Rattle.render.specs.Meaning.{meaning_to};
ghost use Rattle.render.specs.Rendering.{Adds, called_at};

use crate::fault::RenderFault;
use crate::lines::print_text;
use crate::margin::{Margin, margin_within};
use crate::output::Output;
use crate::partials::Partials;
use crate::printed::printed;
use context::{Data, Frame, items, resolve};
use itoa::Buffer;
use mustache_parse::Node;

/// Where nodes are printed: under which margin, over which frame, with which partials, and how many more of
/// these may nest.
#[derive(Drop)]
pub(crate) struct Scope<'a, P: Partials> {
    pub margin: Option<&'a Margin<'a>>,
    pub frame: &'a Frame<'a>,
    pub partials: &'a P,
    pub depth: u32,
}

fn render_variable(name: &str, frame: &Frame<'_>, out: &mut Output) -> Result<(), RenderFault>
    ensures { Adds out.old out.new
        (and_then costs_one (prints (escaped (printed (look_up name.now (stack_of frame.now)))))) result }
{
    out.charge(1)?;
    let mut buffer = Buffer::new();
    out.print_escaped(printed(resolve(frame, name), &mut buffer))
}

fn render_raw(name: &str, frame: &Frame<'_>, out: &mut Output) -> Result<(), RenderFault>
    ensures { Adds out.old out.new
        (and_then costs_one (prints (printed (look_up name.now (stack_of frame.now))))) result }
{
    out.charge(1)?;
    let mut buffer = Buffer::new();
    out.print(printed(resolve(frame, name), &mut buffer))
}

/// The items of what a name means; none if it means nothing.
fn items_named<'a>(name: &str, frame: &Frame<'a>) -> &'a [Data]
    ensures { map data_view result.now ≡ items_of (look_up name.now (stack_of frame.now)) }
{
    match resolve(frame, name) {
        Some(value) => items(value),
        None => &[],
    }
}

/// Prints nodes at a scope. Each part is paid for before it is entered, so this ends.
#[cycle(nodes)]
pub(crate) fn render_nodes<P: Partials>(
    nodes: &[Node],
    scope: &Scope<'_, P>,
    out: &mut Output,
) -> Result<(), RenderFault>
    ensures adds { (texts : Texts) → P.stands scope.now.partials.now texts
        → AreBlank (margin_at scope.now.margin) → HasBlankIndents (tree_view [] nodes.now)
        → Adds out.old out.new
        (meaning_to scope.now.depth texts (tree_view (margin_at scope.now.margin) nodes.now)
        (stack_of scope.now.frame.now)) result }
    ensures spent { OnOk result (out.new.left ≤ out.old.left) }
{
    for node in nodes {
        render_node(node, scope, out)?;
    }
    Ok(())
}

#[cycle(nodes)]
fn render_node<P: Partials>(
    node: &Node,
    scope: &Scope<'_, P>,
    out: &mut Output,
) -> Result<(), RenderFault>
    ensures adds { (texts : Texts) → P.stands scope.now.partials.now texts
        → AreBlank (margin_at scope.now.margin) → HasBlankIndents (node_onto [] node.now nothing)
        → Adds out.old out.new
        (meaning_to scope.now.depth texts (node_onto (margin_at scope.now.margin) node.now nothing)
        (stack_of scope.now.frame.now)) result }
    ensures spent { OnOk result (out.new.left ≤ out.old.left) }
{
    match node {
        Node::Text {
            text,
            leads,
            trails,
        } => print_text(text.as_str(), *leads, *trails, scope.margin, out),
        Node::Variable(name) => render_variable(name.as_str(), scope.frame, out),
        Node::Raw(name) => render_raw(name.as_str(), scope.frame, out),
        Node::Section { name, block } => {
            out.charge(1)?;
            let pushed = items_named(name.as_str(), scope.frame);
            render_items(block, pushed, scope, out)
        }
        Node::Inverted { name, block } => {
            out.charge(1)?;
            let found = items_named(name.as_str(), scope.frame);
            render_where_none(block, found, scope, out)
        }
        Node::Partial { name, own } => {
            out.charge(1)?;
            render_partial(name.as_str(), own, scope, out)
        }
    }
}

/// Prints a block once for each item, with the item pushed.
#[cycle(nodes)]
fn render_items<P: Partials>(
    block: &[Node],
    pushed: &[Data],
    scope: &Scope<'_, P>,
    out: &mut Output,
) -> Result<(), RenderFault>
    ensures adds { (texts : Texts) → P.stands scope.now.partials.now texts
        → AreBlank (margin_at scope.now.margin) → HasBlankIndents (tree_view [] block.now)
        → Adds out.old out.new
        (for_each (λ v. meaning_to scope.now.depth texts (tree_view (margin_at scope.now.margin) block.now)
        (v ∷ stack_of scope.now.frame.now)) (map data_view pushed.now)) result }
    ensures spent { OnOk result (out.new.left ≤ out.old.left) }
{
    for item in pushed {
        out.charge(1)?;
        let top = Frame {
            data: item,
            below: Some(scope.frame),
        };
        let above = Scope {
            frame: &top,
            ..*scope
        };
        render_nodes(block, &above, out)?;
    }
    Ok(())
}

/// Prints a block if there is no item. Nothing is pushed.
#[cycle(nodes)]
fn render_where_none<P: Partials>(
    block: &[Node],
    found: &[Data],
    scope: &Scope<'_, P>,
    out: &mut Output,
) -> Result<(), RenderFault>
    ensures adds { (texts : Texts) → P.stands scope.now.partials.now texts
        → AreBlank (margin_at scope.now.margin) → HasBlankIndents (tree_view [] block.now)
        → Adds out.old out.new
        (where_none (meaning_to scope.now.depth texts (tree_view (margin_at scope.now.margin) block.now)
        (stack_of scope.now.frame.now)) (map data_view found.now)) result }
    ensures spent { OnOk result (out.new.left ≤ out.old.left) }
{
    if found.is_empty() {
        render_nodes(block, scope, out)
    } else {
        Ok(())
    }
}

/// Prints a partial: under a longer margin if its tag is standalone, and under none if it is not. A missing
/// partial prints nothing.
#[cycle(nodes)]
fn render_partial<P: Partials>(
    name: &str,
    own: &Option<String>,
    scope: &Scope<'_, P>,
    out: &mut Output,
) -> Result<(), RenderFault>
    ensures adds { (texts : Texts) → P.stands scope.now.partials.now texts
        → AreBlank (margin_at scope.now.margin) → AreBlank (own_under (margin_at scope.now.margin) own.now)
        → Adds out.old out.new
        (called_at scope.now.depth texts name.now (own_under (margin_at scope.now.margin) own.now)
        (stack_of scope.now.frame.now)) result }
    ensures spent { OnOk result (out.new.left ≤ out.old.left) }
{
    let Some(found) = scope.partials.find(name) else {
        return Ok(());
    };
    let Some(depth) = scope.depth.checked_sub(1) else {
        return Err(RenderFault::OverLimit);
    };
    let margin = margin_within(&*own, scope.margin);
    let within = Scope {
        depth,
        margin: margin.as_ref(),
        ..*scope
    };
    render_nodes(found.nodes(), &within, out)
}
