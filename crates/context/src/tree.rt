ghost use Rattle.std.specs.Prelude.{◌≡◌, option_map, map};
ghost use Rattle.context.specs.Whole.{list, hash};
ghost use Rattle.context.specs.View.{data_view, items_view, members_view};
ghost use Rattle.context.specs.LookUp.{member_of, is_truthy, items};

use std::collections::BTreeMap;
use std::slice;

/// A value of a page's data.
#[derive(Drop)]
pub enum Data {
    Null,
    Bool(bool),
    Int(i128),
    Text(String),
    List(Vec<Data>),
    Hash(BTreeMap<String, Data>),
}

impl Data {
    /// What a hash has at a key; nothing if the value is not a hash.
    pub(crate) fn member(&self, key: &str) -> Option<&Data>
        ensures { option_map (λ v. data_view v.now) result ≡ member_of key.now (data_view self.now) }
    {
        match self {
            Data::Hash(members) => member_among(members, key),
            _ => None,
        }
    }
}

fn member_among<'a>(members: &'a BTreeMap<String, Data>, key: &str) -> Option<&'a Data>
    ensures { option_map (λ v. data_view v.now) result
        ≡ member_of key.now (hash (members_view members.now.entries)) }
{
    members.get(key)
}

/// Null, false and the empty list are falsey.
pub fn truthy(value: &Data) -> bool
    ensures { result ≡ is_truthy (data_view value.now) }
{
    match value {
        Data::Null => false,
        Data::Bool(b) => *b,
        Data::List(list) => has_items(list),
        _ => true,
    }
}

fn has_items(elements: &[Data]) -> bool
    ensures { result ≡ is_truthy (list (items_view elements.now)) }
{
    !elements.is_empty()
}

/// A list's elements; any other truthy value itself; nothing if the value is falsey.
pub fn items(value: &Data) -> &[Data]
    ensures { map data_view result.now ≡ items (data_view value.now) }
{
    match value {
        Data::List(list) => elements_of(list),
        Data::Null | Data::Bool(false) => &[],
        _ => slice::from_ref(value),
    }
}

fn elements_of(elements: &[Data]) -> &[Data]
    ensures { map data_view result.now ≡ items (list (items_view elements.now)) }
{
    elements
}
