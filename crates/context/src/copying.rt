ghost use Rattle.std.specs.Prelude.{◌≡◌, IfOk};
ghost use Rattle.context.specs.View.{data_view, items_view, members_view};

use crate::tree::Data;
use std::alloc::{AllocError, Global};
use std::collections::BTreeMap;

impl Data {
    /// A copy that shares nothing.
    pub fn copy(&self, alloc: Global) -> Result<Data, AllocError>
        ensures { IfOk result (λ d. data_view d ≡ data_view self.now) }
    {
        data_of(alloc, self)
    }
}

#[cycle(copies)]
fn data_of(alloc: Global, value: &Data) -> Result<Data, AllocError>
    ensures { IfOk result (λ d. data_view d ≡ data_view value.now) }
{
    match value {
        Data::Null => Ok(Data::Null),
        Data::Bool(b) => Ok(Data::Bool(*b)),
        Data::Int(z) => Ok(Data::Int(*z)),
        Data::Text(text) => Ok(Data::Text(text.clone()?)),
        Data::List(items) => Ok(Data::List(list_of(alloc, items)?)),
        Data::Hash(members) => Ok(Data::Hash(hash_of(alloc, members)?)),
    }
}

#[cycle(copies)]
fn list_of(alloc: Global, items: &Vec<Data>) -> Result<Vec<Data>, AllocError>
    ensures { IfOk result (λ v. items_view v.items ≡ items_view items.now.items) }
{
    let mut found = Vec::with_capacity(alloc, items.len())?;
    for item in items {
        found.push(data_of(alloc, item)?)?;
    }
    Ok(found)
}

#[cycle(copies)]
fn hash_of(
    alloc: Global,
    members: &BTreeMap<String, Data>,
) -> Result<BTreeMap<String, Data>, AllocError>
    ensures { IfOk result (λ m. members_view m.entries ≡ members_view members.now.entries) }
{
    let mut found = BTreeMap::new(alloc);
    for (key, member) in members.iter() {
        let name = key.clone()?;
        drop(found.insert(name, data_of(alloc, member)?)?);
    }
    Ok(found)
}
