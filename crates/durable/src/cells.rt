//! The cells of instances. Those from instance 1 on, up to the first that is missing, are in a vector; the
//! others are in a map.

ghost use Rattle.std.specs.Prelude.{◌≡◌, ◌≢◌, ◌+◌, ◌≤◌, ℕ, None, Some, OnOk, OnErr, vec_len, vec_capacity};
ghost use Rattle.std.specs.BTreeMap.{btree_map_len};
ghost use Rattle.durable.specs.Cells.{no_cell, changed, found_in};

use acceptor::Slot;
use site_ids::{Ballot, MAX_INSTANCE, Value, Vote};
use std::alloc::AllocError;
use std::collections::BTreeMap;

/// What is kept of an instance.
#[derive(Drop)]
pub(crate) struct Cell {
    pub(crate) slot: Slot,
    pub(crate) learned: Option<Value>,
}

pub(crate) fn empty_cell() -> Cell
    ensures { result ≡ no_cell }
{
    let slot = Slot {
        promised: None,
        vote: None,
    };
    Cell {
        slot,
        learned: None,
    }
}

/// What is changed in a cell.
#[derive(Drop)]
pub(crate) enum Change {
    /// The promise is raised.
    Promise(Ballot),
    /// A vote is put, whose ballot is promised too.
    Vote(Vote),
    /// A learned value is put.
    Learn(Value),
}

pub(crate) fn change_cell(cell: &mut Cell, change: Change)
    ensures { cell.new ≡ changed cell.old change }
{
    match change {
        Change::Promise(ballot) => cell.slot.promised = Some(ballot),
        Change::Vote(vote) => {
            cell.slot = Slot {
                promised: Some(vote.ballot),
                vote: Some(vote),
            }
        }
        Change::Learn(value) => cell.learned = Some(value),
    }
}

/// Adds an empty cell to the prefix, and moves the cells that follow it there.
pub(crate) fn lengthen(
    prefix: &mut Vec<Cell>,
    beyond: &mut BTreeMap<u32, Cell>,
) -> Result<(), AllocError>
    requires { found_in prefix.old.items beyond.old.entries (vec_len prefix.old + 1) ≡ None }
    ensures new { OnOk result (found_in prefix.new.items beyond.new.entries (vec_len prefix.old + 1)
        ≡ Some no_cell) }
    ensures others { OnOk result ((at : ℕ) → at ≢ vec_len prefix.old + 1
        → found_in prefix.new.items beyond.new.entries at ≡ found_in prefix.old.items beyond.old.entries at) }
    ensures refused { OnErr result ((at : ℕ)
        → found_in prefix.new.items beyond.new.entries at ≡ found_in prefix.old.items beyond.old.entries at) }
{
    prefix.reserve(beyond.len() + 1)?;
    prefix.push_reserved(empty_cell());
    close_gap(prefix, beyond);
    Ok(())
}

// Moves the cells that follow the prefix without a gap to its end.
fn close_gap(prefix: &mut Vec<Cell>, beyond: &mut BTreeMap<u32, Cell>)
    requires room { vec_len prefix.old + btree_map_len beyond.old ≤ vec_capacity prefix.old }
    ensures same { (at : ℕ) → found_in prefix.new.items beyond.new.entries at
        ≡ found_in prefix.old.items beyond.old.entries at }
{
    while prefix.len() < MAX_INSTANCE as usize {
        let Some(cell) = beyond.remove(&(prefix.len() as u32 + 1)) else {
            return;
        };
        prefix.push_reserved(cell);
    }
}
