//! The prefix is a vector, so that it can be borrowed.

ghost use Rattle.std.specs.Prelude.{◌≡◌, ℕ, ◌+◌, ◌<◌, ◌≤◌, length, slice_get, None, IsSome, MatchOption};
ghost use Rattle.std.specs.Prelude.{option_copied, vec_len, vec_capacity};
ghost use Rattle.std.specs.BTreeMap.{get, btree_map_len};
ghost use Rattle.std.specs.Ordering.{nat_cmp};
ghost use Rattle.site_ids.specs.declared.TheConstants.{MAX_INSTANCE};
ghost use Rattle.site_ids.specs.Ids.{IsInstance};
ghost use Rattle.chosen_log.specs.LogValues.{in_either, IsCut};

use crate::LearnFault;
use site_ids::{Instance, Value};
use std::alloc::Global;
use std::collections::BTreeMap;
use std::marker::Model;

/// How a value was learned.
#[derive(Clone, Copy, Debug, Drop, PartialEq, Eq)]
pub enum Learned {
    New,
    /// The same value was known at the instance.
    Known,
}

/// At most one value for each instance.
#[derive(Drop)]
pub struct ChosenLog {
    /// The values from instance 1 on, up to the first gap.
    prefix: Vec<Value>,
    /// The values past the first gap, by instance.
    beyond: BTreeMap<u32, Value>,
}

impl Model for ChosenLog {
    ghost use Rattle.chosen_log.specs.LogValues.{LogValues, IsCut};

    ghost Value = { LogValues };

    ghost view = { λ log. record { prefix = log.prefix.items; beyond = log.beyond.entries } };

    ghost invariant = { λ log. IsCut log.prefix.items log.beyond.entries };
}

impl ChosenLog {
    ghost use Rattle.chosen_log.specs.Log.{value_at, IsGap, Learns};

    pub fn new(alloc: Global) -> ChosenLog
        ensures { (i : ℕ) → value_at result i ≡ None }
    {
        ChosenLog {
            prefix: Vec::new(alloc),
            beyond: BTreeMap::new(alloc),
        }
    }

    /// Makes the value known at the instance.
    pub fn learn(&mut self, instance: Instance, value: Value) -> Result<Learned, LearnFault>
        ensures { Learns self.old instance value result self.new }
    {
        if let Some(known) = self.get(instance) {
            return if known.as_bytes() == value.as_bytes() {
                Ok(Learned::Known)
            } else {
                Err(LearnFault::Conflict(value))
            };
        }
        if instance.number() as usize == self.prefix.len() + 1 {
            if self.prefix.reserve(self.beyond.len() + 1).is_err() {
                return Err(LearnFault::OutOfMemory(value));
            }
            self.prefix.push_reserved(value);
            close_gap(&mut self.prefix, &mut self.beyond);
            return Ok(Learned::New);
        }
        match self.beyond.insert(instance.number(), value) {
            Ok(_) => Ok(Learned::New),
            Err(refused) => Err(LearnFault::OutOfMemory(refused.value.1)),
        }
    }

    pub fn get(&self, instance: Instance) -> Option<&Value>
        ensures { option_copied result ≡ value_at self.now instance }
    {
        let number = instance.number();
        match self.prefix.get(number as usize - 1) {
            Some(value) => Some(value),
            None => self.beyond.get(&number),
        }
    }

    /// The values of the instances from 1 on, up to the first one that is not known.
    pub fn prefix(&self) -> &[Value]
        ensures each { (k : ℕ) → k < length result.now → slice_get result.now k ≡ value_at self.now (k + 1) }
        ensures gap { value_at self.now (length result.now + 1) ≡ None }
        ensures few { length result.now ≤ MAX_INSTANCE }
    {
        &self.prefix
    }

    /// The first instance that is not known, if there is one.
    pub fn next_gap(&self) -> Option<Instance>
        ensures { MatchOption result ((i : ℕ) → IsInstance i → IsSome (value_at self.now i))
            (λ gap. IsGap self.now gap) }
    {
        Instance::new(self.prefix.len() as u32 + 1)
    }
}

// Moves the values that follow the prefix without a gap to its end.
fn close_gap(prefix: &mut Vec<Value>, beyond: &mut BTreeMap<u32, Value>)
    requires room { vec_len prefix.old + btree_map_len beyond.old ≤ vec_capacity prefix.old }
    requires few { vec_len prefix.old ≤ MAX_INSTANCE }
    requires within { (k : ℕ) → MAX_INSTANCE < k → get nat_cmp beyond.old k ≡ None }
    ensures same { (k : ℕ) → in_either prefix.new.items beyond.new.entries k
        ≡ in_either prefix.old.items beyond.old.entries k }
    ensures cut { IsCut prefix.new.items beyond.new.entries }
{
    while let Some(value) = beyond.remove(&(prefix.len() as u32 + 1)) {
        prefix.push_reserved(value);
    }
}
