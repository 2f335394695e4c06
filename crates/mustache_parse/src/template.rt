ghost use Rattle.std.specs.Prelude.{◌≡◌, []};
ghost use Rattle.mustache_parse.specs.BlankIndents.{HasBlankIndents};
ghost use Rattle.mustache_parse.specs.View.{tree_view};
ghost use Rattle.mustache_parse.specs.Template.{TemplateSeen, template_tree};
ghost use Rattle.mustache_parse.specs.contracts.node.Node as node_type;
ghost use Rattle.std.specs.Coded.{codes};

use crate::node::Node;
use std::marker::Model;

/// A template that was read: the nodes of its tree, which know where its lines begin.
#[derive(Debug, Drop)]
pub struct Template {
    nodes: Vec<Node>,
}

impl Model for Template {
    ghost Value = { TemplateSeen };

    ghost coded = { Prim.hlevel (codes, node_type.the_row.coded) };

    ghost view = { λ t. record { nodes = t.nodes.items } };

    ghost invariant = { λ t. HasBlankIndents (tree_view [] t.nodes.items) };
}

impl Template {
    pub(crate) fn new(nodes: Vec<Node>) -> Template
        requires { HasBlankIndents (tree_view [] nodes.items) }
        ensures { result.nodes ≡ nodes.items }
    {
        Template { nodes }
    }

    /// The nodes of its tree, the outermost ones in order.
    pub fn nodes(&self) -> &[Node]
        ensures nodes { result.now ≡ self.now.nodes }
        ensures blanks { HasBlankIndents (template_tree [] self.now) }
    {
        &self.nodes
    }
}
