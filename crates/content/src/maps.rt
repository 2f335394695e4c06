//! Contents kept by name.
ghost use Rattle.std.specs.Prelude.{◌≡◌, ℕ, List, None, Some, OnOk, OnErr, string_bytes};
ghost use Rattle.std.specs.Map.{update};
ghost use Rattle.std.specs.Str.{bytes_eq};
ghost use Rattle.content.specs.View.{at_name};

use shared_map::SharedMap;
use std::alloc::AllocError;
use std::mem;

/// Puts something at a name, in the place of what was there.
pub(crate) fn put<V: Drop>(
    map: &mut SharedMap<String, V>,
    name: String,
    value: V,
) -> Result<(), AllocError>
    ensures ok { OnOk result ((n : List ℕ)
        → at_name n map.new ≡ update bytes_eq (λ m. at_name m map.old) (string_bytes name) (Some value) n) }
    ensures err { OnErr result (map.new ≡ map.old) }
{
    map.put(name, value)
}

/// Removes what is at a name.
pub(crate) fn take_away<V: Drop>(
    map: &mut SharedMap<String, V>,
    name: &str,
) -> Result<(), AllocError>
    ensures ok { OnOk result ((n : List ℕ)
        → at_name n map.new ≡ update bytes_eq (λ m. at_name m map.old) name.now None n) }
    ensures err { OnErr result (map.new ≡ map.old) }
{
    map.remove(name)
}

/// Makes a map the same as another, and shares the entries.
pub(crate) fn share<V: Drop>(
    map: &mut SharedMap<String, V>,
    other: &SharedMap<String, V>,
) -> Result<(), AllocError>
    ensures { OnOk result (map.new ≡ other.now) }
{
    drop(mem::replace(map, other.copy()?));
    Ok(())
}
