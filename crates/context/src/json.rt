ghost use Rattle.std.specs.Prelude.{◌≡◌, ◌≢◌, ◌⊎◌, Some, None, IfOk, IfErr, MatchResult};
ghost use Rattle.serde_json.specs.View.{view, items_view as json_items, members_view as json_members};
ghost use Rattle.context.specs.Whole.{whole, whole_items, whole_members, data_reading};
ghost use Rattle.context.specs.View.{data_view, items_view, members_view};

use crate::fault::DataFault;
use crate::tree::Data;
use serde_json::Value;
use std::alloc::Global;
use std::collections::BTreeMap;

impl Data {
    /// Reads whole data from the bytes of a JSON text (RFC 8259). Of equal keys the last one counts.
    pub fn from_json(alloc: Global, bytes: &[u8]) -> Result<Data, DataFault>
        ensures ok { IfOk result (λ d. data_reading bytes.now ≡ Ok (data_view d)) }
        ensures err { IfErr result (λ e. e ≢ DataFault.OutOfMemory → data_reading bytes.now ≡ Err e) }
    {
        match Value::from_slice(alloc, bytes) {
            Ok(value) => data_of(alloc, &value),
            Err(e) => if e.is_memory() {
                Err(DataFault::OutOfMemory)
            } else {
                Err(DataFault::NotJson)
            },
        }
    }
}

#[cycle(convert)]
fn data_of(alloc: Global, value: &Value) -> Result<Data, DataFault>
    ensures { MatchResult result (λ d. whole (view value.now) ≡ Some (data_view d))
        (λ e. ((e ≡ DataFault.NotWhole) × (whole (view value.now) ≡ None)) ⊎ (e ≡ DataFault.OutOfMemory)) }
{
    match value {
        Value::Null => Ok(Data::Null),
        Value::Bool(b) => Ok(Data::Bool(*b)),
        Value::Number(n) => match n.as_i128() {
            Some(z) => Ok(Data::Int(z)),
            None => Err(DataFault::NotWhole),
        },
        Value::String(text) => Ok(Data::Text(text.clone()?)),
        Value::Array(items) => Ok(Data::List(list_of(alloc, items)?)),
        Value::Object(members) => Ok(Data::Hash(hash_of(alloc, members)?)),
    }
}

#[cycle(convert)]
fn list_of(alloc: Global, items: &Vec<Value>) -> Result<Vec<Data>, DataFault>
    ensures { MatchResult result (λ v. whole_items (json_items items.now.items) ≡ Some (items_view v.items))
        (λ e. ((e ≡ DataFault.NotWhole) × (whole_items (json_items items.now.items) ≡ None))
        ⊎ (e ≡ DataFault.OutOfMemory)) }
{
    let mut found = Vec::with_capacity(alloc, items.len())?;
    for item in items {
        found.push(data_of(alloc, item)?)?;
    }
    Ok(found)
}

#[cycle(convert)]
fn hash_of(
    alloc: Global,
    members: &BTreeMap<String, Value>,
) -> Result<BTreeMap<String, Data>, DataFault>
    ensures { MatchResult result (λ m. whole_members (json_members members.now.entries)
        ≡ Some (members_view m.entries))
        (λ e. ((e ≡ DataFault.NotWhole) × (whole_members (json_members members.now.entries) ≡ None))
        ⊎ (e ≡ DataFault.OutOfMemory)) }
{
    let mut found = BTreeMap::new(alloc);
    for (key, member) in members.iter() {
        let name = key.clone()?;
        drop(found.insert(name, data_of(alloc, member)?)?);
    }
    Ok(found)
}
