ghost use Rattle.std.specs.Prelude.{◌≡◌, ◌≢◌, ◌++◌, ℕ, List, [], ◌∷◌, map, true, false, not, ◌&&◌, IfOk};
ghost use Rattle.std.specs.Prelude.{IfErr, OnOk, MatchResult, IsTrue, Err, Some, string_bytes};
ghost use Rattle.mustache_scan.specs.Faults.{memory_wanted};
ghost use Rattle.mustache_scan.specs.Standalone.{is_literal};
ghost use Rattle.mustache_scan.specs.View.{token_view, tokens_view};
ghost use Rattle.mustache_scan.specs.declared.fault.FaultKind.TheVariants.{OutOfMemory};
ghost use Rattle.mustache_parse.specs.Nesting.{is_opening};
ghost use Rattle.mustache_parse.specs.Margin.{literal_under, text_onto, indent_under, goes_on};
ghost use Rattle.mustache_parse.specs.Stack.{made_by, opens_view, levels_with, marked_view, tag_makes};
ghost use Rattle.mustache_parse.specs.Stack.{token_makes, Reads, AreNodesOf};
ghost use Rattle.mustache_parse.specs.Tree.{nest, opening, ending, left_open, Levels, onto, nested};
ghost use Rattle.mustache_parse.specs.View.{node_onto, tree_view, own_under};

use crate::node::Node;
use mustache_scan::{FaultKind, TemplateFault, Token, TokenKind};
use std::alloc::Global;
use std::mem;

/// How many sections may be open at once.
const MAX_OPEN: usize = 64;

/// A section whose end is still to come, with the place of its tag.
#[derive(Drop)]
struct OpenSection {
    name: String,
    place: usize,
    is_inverted: bool,
    /// The nodes before it in its list.
    before: Vec<Node>,
}

/// What was read of a template: the open sections, the outermost first, and the nodes since the innermost one
/// opened.
#[derive(Drop)]
struct Nesting {
    opened: Vec<OpenSection>,
    nodes: Vec<Node>,
}

/// The node of a section with its block.
fn ended(name: String, is_inverted: bool, block: Vec<Node>) -> Node
    ensures { (w : List ℕ) → node_onto w result
        ≡ made_by is_inverted (string_bytes name) (tree_view w block.items) }
{
    if is_inverted {
        Node::Inverted { name, block }
    } else {
        Node::Section { name, block }
    }
}

/// The blanks before a standalone partial.
fn own_of(alloc: Global, token: &Token) -> Result<Option<String>, TemplateFault>
    ensures ok { IfOk result (λ own. (w : List ℕ)
        → own_under w own ≡ indent_under w token.now.is_alone token.now.indent.now) }
    ensures fault { IfErr result (λ f. f ≡ memory_wanted) }
{
    if token.is_alone {
        Ok(Some(String::from_str(alloc, token.indent)?))
    } else {
        Ok(None)
    }
}

/// Whether a tag begins a line that stays, as the tag is not standalone.
fn stands_first(leads: bool, token: &Token) -> bool
    ensures { result ≡ (leads && not token.now.is_alone) }
{
    leads && !token.is_alone
}

impl Nesting {
    fn new(alloc: Global) -> Nesting
        ensures opened { result.opened.items ≡ [] }
        ensures nodes { result.nodes.items ≡ [] }
    {
        Nesting {
            opened: Vec::new(alloc),
            nodes: Vec::new(alloc),
        }
    }

    /// Puts a node at the end of the innermost list.
    fn add(&mut self, node: Node) -> Result<(), TemplateFault>
        ensures opened { OnOk result (self.new.opened.items ≡ self.old.opened.items) }
        ensures nodes { OnOk result (self.new.nodes.items ≡ self.old.nodes.items ++ node ∷ []) }
        ensures fault { IfErr result (λ f. f ≡ memory_wanted) }
    {
        self.nodes.push(node)?;
        Ok(())
    }

    /// Opens the section of a tag.
    fn open(&mut self, alloc: Global, token: &Token) -> Result<(), TemplateFault>
        requires { IsTrue (is_opening token.now.kind) }
        ensures ok { OnOk result (Reads (token_view token.now) (tag_makes token.now) self.old self.new) }
        ensures fault { IfErr result (λ f. f.kind ≢ OutOfMemory
            → opening token.now.inside.now token.now.place (opens_view self.old) ≡ Err f) }
        ensures memory { IfErr result (λ f. f.kind ≡ OutOfMemory → f.place ≡ 0) }
    {
        if self.opened.len() >= MAX_OPEN {
            return Err(TemplateFault {
                kind: FaultKind::TooDeep,
                place: token.place,
            });
        }
        let name = String::from_str(alloc, token.inside)?;
        let is_inverted = token.kind == TokenKind::Inverted;
        let before = mem::replace(&mut self.nodes, Vec::new(alloc));
        self.opened.push(OpenSection {
            name,
            place: token.place,
            is_inverted,
            before,
        })?;
        Ok(())
    }

    /// Ends the innermost section.
    fn end(&mut self, token: &Token) -> Result<(), TemplateFault>
        requires { token.now.kind ≡ TokenKind.End }
        ensures ok { OnOk result (Reads (token_view token.now) (tag_makes token.now) self.old self.new) }
        ensures fault { IfErr result (λ f. f.kind ≢ OutOfMemory
            → ending token.now.inside.now token.now.place (opens_view self.old) ≡ Err f) }
        ensures memory { IfErr result (λ f. f.kind ≡ OutOfMemory → f.place ≡ 0) }
    {
        let Some(section) = self.opened.pop() else {
            return Err(TemplateFault {
                kind: FaultKind::NoSection,
                place: token.place,
            });
        };
        if section.name.as_str() != token.inside {
            return Err(TemplateFault {
                kind: FaultKind::WrongEnd,
                place: token.place,
            });
        }
        let OpenSection {
            name,
            place: _,
            is_inverted,
            before,
        } = section;
        let block = mem::replace(&mut self.nodes, before);
        self.add(ended(name, is_inverted, block))
    }

    /// Reads a tag.
    fn read_tag(&mut self, alloc: Global, token: &Token) -> Result<(), TemplateFault>
        requires { is_literal token.now.kind ≡ false }
        ensures ok { OnOk result (Reads (token_view token.now) (tag_makes token.now) self.old self.new) }
        ensures fault { IfErr result (λ f. f.kind ≢ OutOfMemory
            → nest token.now.kind token.now.inside.now token.now.place (opens_view self.old) ≡ Err f) }
        ensures memory { IfErr result (λ f. f.kind ≡ OutOfMemory → f.place ≡ 0) }
    {
        match token.kind {
            TokenKind::Variable => self.add(Node::Variable(String::from_str(alloc, token.inside)?)),
            TokenKind::Raw => self.add(Node::Raw(String::from_str(alloc, token.inside)?)),
            TokenKind::Partial => {
                let name = String::from_str(alloc, token.inside)?;
                let own = own_of(alloc, token)?;
                self.add(Node::Partial { name, own })
            }
            TokenKind::Section | TokenKind::Inverted => self.open(alloc, token),
            TokenKind::End => self.end(token),
            TokenKind::Literal | TokenKind::Comment | TokenKind::Delimiters => Ok(()),
        }
    }

    /// Puts the beginning of a line before a tag, if the tag begins a line that stays.
    fn begin_line(&mut self, alloc: Global, leads: bool) -> Result<(), TemplateFault>
        ensures opened { OnOk result (self.new.opened.items ≡ self.old.opened.items) }
        ensures levels { OnOk result ((w : List ℕ) (ls : Levels)
            → levels_with w self.old (onto (text_onto (literal_under w leads true [])) ls)
            ≡ levels_with w self.new ls) }
        ensures fault { IfErr result (λ f. f ≡ memory_wanted) }
    {
        if leads {
            self.add(Node::Text {
                text: String::new(alloc),
                leads: true,
                trails: true,
            })
        } else {
            Ok(())
        }
    }

    /// Reads one more token. It `leads` if it begins a line, and `trails` if a tag comes next that is not
    /// standalone.
    fn read(
        &mut self,
        alloc: Global,
        token: &Token,
        leads: bool,
        trails: bool,
    ) -> Result<(), TemplateFault>
        ensures ok { OnOk result (Reads (token_view token.now)
            (token_makes token.now leads trails) self.old self.new) }
        ensures fault { IfErr result (λ f. f.kind ≢ OutOfMemory
            → nest token.now.kind token.now.inside.now token.now.place (opens_view self.old) ≡ Err f) }
        ensures memory { IfErr result (λ f. f.kind ≡ OutOfMemory → f.place ≡ 0) }
    {
        match token.kind {
            TokenKind::Literal => {
                let text = String::from_str(alloc, token.text)?;
                self.add(Node::Text {
                    text,
                    leads,
                    trails,
                })
            }
            _ => {
                self.begin_line(alloc, stands_first(leads, token))?;
                self.read_tag(alloc, token)
            }
        }
    }

    /// The nodes, if no section is left open.
    fn finish(self) -> Result<Vec<Node>, TemplateFault>
        ensures ends { MatchResult result (λ ns. (self.opened.items ≡ []) × (ns.items ≡ self.nodes.items))
            (λ f. left_open (opens_view self) ≡ Some f) }
        ensures told { IfErr result (λ f. f.kind ≢ OutOfMemory) }
    {
        let Nesting { opened, nodes } = self;
        match opened.first() {
            Some(outermost) => Err(TemplateFault {
                kind: FaultKind::UnclosedSection,
                place: outermost.place,
            }),
            None => Ok(nodes),
        }
    }
}

/// Whether a tag comes next that is not standalone.
fn goes_on(left: &[Token]) -> bool
    ensures { result ≡ goes_on (map marked_view left.now) }
{
    match left.first() {
        Some(next) => !next.is_alone,
        None => false,
    }
}

/// The nodes of the tree that the tokens nest into.
pub(crate) fn nodes_of(alloc: Global, tokens: &[Token]) -> Result<Vec<Node>, TemplateFault>
    ensures ok { IfOk result (λ ns. AreNodesOf tokens.now ns.items) }
    ensures fault { IfErr result (λ f. f.kind ≢ OutOfMemory → nested (tokens_view tokens.now) ≡ Err f) }
    ensures memory { IfErr result (λ f. f.kind ≡ OutOfMemory → f.place ≡ 0) }
{
    let mut nesting = Nesting::new(alloc);
    let mut leads = true;
    for (index, token) in tokens.iter().enumerate() {
        let trails = goes_on(&tokens[index + 1..]);
        nesting.read(alloc, token, leads, trails)?;
        leads = token.is_alone;
    }
    nesting.finish()
}
