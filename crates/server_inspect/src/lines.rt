//! The lines that report a record. Each is a name and a value.

ghost use Rattle.std.specs.Prelude.{◌≡◌, IfOk, string_bytes};
ghost use Rattle.server_inspect.specs.Views.{whose_lines, counted_lines, floor_line, end_lines, text_of};

use crate::view::View;
use std::alloc::{AllocError, Global};

/// Whose it is.
fn whose(alloc: Global, view: &View) -> Result<String, AllocError>
    ensures { IfOk result (λ text. string_bytes text ≡ whose_lines view.now) }
{
    let (node, nodes) = (view.node.number(), view.nodes.size());
    format!(in alloc; "node: {node}\nnodes: {nodes}\n")
}

/// What it has over all instances.
fn counted(alloc: Global, view: &View) -> Result<String, AllocError>
    ensures { IfOk result (λ text. string_bytes text ≡ counted_lines view.now) }
{
    let (votes, learned, last) = (view.votes, view.learned, view.last);
    format!(in alloc; "votes: {votes}\nlearned: {learned}\nlast instance: {last}\n")
}

/// Its floor, if it has one.
fn floor(alloc: Global, floor: u32) -> Result<String, AllocError>
    ensures { IfOk result (λ text. string_bytes text ≡ floor_line floor) }
{
    if floor == 0 {
        return Ok(String::new(alloc));
    }
    format!(in alloc; "floor: {floor}\n")
}

/// How far it reaches, and its file.
fn end(alloc: Global, view: &View) -> Result<String, AllocError>
    ensures { IfOk result (λ text. string_bytes text ≡ end_lines view.now) }
{
    let (reach, bytes) = (view.reach, view.bytes);
    format!(in alloc; "reaches: {reach}\nbytes: {bytes}\n")
}

/// All lines, each a name and a value.
pub fn lines_of(alloc: Global, view: &View) -> Result<String, AllocError>
    ensures { IfOk result (λ text. string_bytes text ≡ text_of view.now) }
{
    let whose = whose(alloc, view)?;
    let counted = counted(alloc, view)?;
    let floor = floor(alloc, view.floor)?;
    let end = end(alloc, view)?;
    let (whose, counted) = (whose.as_str(), counted.as_str());
    let (floor, end) = (floor.as_str(), end.as_str());
    format!(in alloc; "{whose}{counted}{floor}{end}")
}
