//! The nodes that are asked, and the one that is spoken to.
ghost use Rattle.std.specs.Prelude.{◌≡◌, ◌↔◌, ◌+◌, ◌++◌, ◌∷◌, [], nat_lt, if◌then◌else◌, length, slice_get};
ghost use Rattle.std.specs.Prelude.{unwrap_or, IfErr, IfOk, IsTrue, OnOk, None, Some};
ghost use Rattle.editor_group.specs.Addresses.{AreNamed, IsRefused, Names, OneIsRefused};
ghost use Rattle.editor_group.specs.declared.address.Address.{Address as Node};

use crate::address::{Address, address_in, no_address};
use crate::stop::stop;
use editor_common::EditorFault;
use std::alloc::Global;

/// Nodes of a group, in the order in which they were given, and which of them is spoken to.
#[derive(Drop)]
pub struct Group {
    nodes: Vec<Address>,
    at: usize,
}

/// Adds the node of a URL.
fn push_node(alloc: Global, nodes: &mut Vec<Address>, url: &str) -> Result<(), EditorFault>
    ensures named { OnOk result ((node : Node) × Names url.now node
        × (nodes.new.items ≡ nodes.old.items ++ node ∷ [])) }
    ensures refused { IfErr result (λ why. IsRefused url.now why) }
{
    match address_in(alloc, url)? {
        Some(node) => Ok(nodes.push(node)?),
        None => Err(stop(no_address(alloc, url))),
    }
}

impl Group {
    /// The nodes of these URLs, the first of which is spoken to.
    pub fn of(alloc: Global, urls: &[&str]) -> Result<Group, EditorFault>
        ensures named { IfOk result (λ group. AreNamed (λ url. url.now) urls.now group.nodes.items) }
        ensures first { IfOk result (λ group. group.at ≡ 0) }
        ensures refused { IfErr result (OneIsRefused (λ url. url.now) urls.now) }
    {
        let mut nodes = Vec::new(alloc);
        for url in urls {
            push_node(alloc, &mut nodes, url)?;
        }
        Ok(Group { nodes, at: 0 })
    }

    pub fn nodes(&self) -> &[Address]
        ensures { result.now ≡ self.now.nodes.items }
    {
        self.nodes.as_slice()
    }

    /// The node that is spoken to.
    pub fn node(&self) -> Result<&Address, EditorFault>
        ensures there { IfOk result (λ node. slice_get self.now.nodes.items self.now.at ≡ Some node.now) }
        ensures none { IfErr result (λ why. (why ≡ EditorFault.NoNodes)
            × (slice_get self.now.nodes.items self.now.at ≡ None)) }
    {
        match self.nodes.get(self.at) {
            Some(node) => Ok(node),
            None => Err(EditorFault::NoNodes),
        }
    }

    /// Speaks to the node at this place, counted from 0, from now on; without a place, to the same node as
    /// before.
    pub(crate) fn speak_to(&mut self, place: Option<usize>)
        ensures { self.new ≡ record self.old { at = unwrap_or place self.old.at } }
    {
        self.at = place.unwrap_or(self.at);
    }

    /// Speaks to the next node. The result says whether each was spoken to since the first.
    pub(crate) fn next(&mut self) -> bool
        ensures turns { self.new ≡ record self.old {
          at = (if nat_lt (self.old.at + 1) (length self.old.nodes.items) then self.old.at + 1 else 0);
        } }
        ensures first { IsTrue result ↔ (self.new.at ≡ 0) }
    {
        let next = self.at.saturating_add(1);
        self.at = if next < self.nodes.len() { next } else { 0 };
        self.at == 0
    }
}
