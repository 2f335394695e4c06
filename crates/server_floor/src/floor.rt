//! The floor that reaches give.

ghost use Rattle.std.specs.Prelude.{◌≡◌, ◌⊎◌, ◌≢◌, map, List, IfOk, IfErr, MatchResult};
ghost use Rattle.server_floor.specs.Told.{spelled, AreFitting};
ghost use Rattle.server_floor.specs.Floors.{IsFloorAbove, Refuses, NamesFloor, RefusesWords};
ghost use Rattle.server_floor.specs.declared.told.Told.{Told as AnyTold};

use crate::counting::{are_distinct, are_others, furthest};
use crate::fault::FloorFault;
use crate::told::{Told, told_in};
use proposer::MAX_ATTEMPTS;
use site_ids::{Cluster, Instance, MAX_INSTANCE, NodeId};
use std::alloc::Global;

/// The greatest reach above which there is a floor.
const LAST: u64 = MAX_INSTANCE as u64 - MAX_ATTEMPTS as u64;

/// The reaches that the words spell, if they do.
fn told_each(alloc: Global, words: &[&str]) -> Result<Vec<Told>, FloorFault>
    ensures told { IfOk result (λ told. AreFitting told.items
        × (map spelled told.items ≡ map (λ w. w.now) words.now)) }
    ensures fault { IfErr result (λ fault. (fault ≡ FloorFault.OutOfMemory)
        ⊎ ((fault ≡ FloorFault.NotTold)
        × ((told : List AnyTold) → AreFitting told → map spelled told ≢ map (λ w. w.now) words.now))) }
{
    let mut told = Vec::with_capacity(alloc, words.len())?;
    for word in words {
        let Some(one) = told_in(word) else {
            return Err(FloorFault::NotTold);
        };
        match told.push(one) {
            Ok(()) => {}
            Err(_) => return Err(FloorFault::OutOfMemory),
        }
    }
    Ok(told)
}

/// The floor of a record that takes the place of this node's: 64 above the furthest reach. A majority of the
/// group was asked, all of them other nodes.
pub fn floor_above(cluster: Cluster, me: NodeId, told: &[Told]) -> Result<Instance, FloorFault>
    ensures { MatchResult result (IsFloorAbove cluster me told.now) (Refuses cluster me told.now) }
{
    if !are_others(cluster, me, told) {
        return Err(FloorFault::NotAnother);
    }
    if !are_distinct(told) {
        return Err(FloorFault::Twice);
    }
    if told.len() < usize::from(cluster.quorum()) {
        return Err(FloorFault::TooFew);
    }
    let far = furthest(told);
    if far > LAST {
        return Err(FloorFault::TooFar);
    }
    match Instance::new(far as u32 + MAX_ATTEMPTS as u32) {
        Some(floor) => Ok(floor),
        None => Err(FloorFault::TooFar),
    }
}

/// The floor that words give. Each word is a node and its reach.
pub fn read_floor(
    alloc: Global,
    cluster: Cluster,
    me: NodeId,
    words: &[&str],
) -> Result<Instance, FloorFault>
    ensures floor { IfOk result (NamesFloor cluster me (map (λ w. w.now) words.now)) }
    ensures fault { IfErr result (λ fault. (fault ≡ FloorFault.OutOfMemory)
        ⊎ RefusesWords cluster me (map (λ w. w.now) words.now) fault) }
{
    let told = told_each(alloc, words)?;
    floor_above(cluster, me, told.as_slice())
}
