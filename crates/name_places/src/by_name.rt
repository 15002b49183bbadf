// Values by name.
ghost use Rattle.std.specs.Prelude.{◌≡◌, ℕ, List, Some, OnOk, if◌then◌else◌};
ghost use Rattle.std.specs.Option.{option_or};
ghost use Rattle.std.specs.Str.{bytes_eq};
ghost use Rattle.name_places.specs.ByName.{look, only_for, nothing};

use base_types::NoMemory;
use std::alloc::Global;
use std::collections::BTreeMap;

/// Values by the names that they are for, which contracts see as a function from names.
pub type ByName<'a, V> = BTreeMap<&'a str, V>;

/// No name has a value.
pub fn no_values<'a, V: Copy + Drop>(alloc: Global) -> ByName<'a, V>
    ensures { look result ≡ nothing }
{
    BTreeMap::new(alloc)
}

/// The value of a name.
pub fn value_of<V: Copy>(values: &ByName<'_, V>, name: &str) -> Option<V>
    ensures { result ≡ look values.now name.now }
{
    values.get(name).copied()
}

/// Gives a name its value, in place of the one that it has.
pub fn set_value<'a, V: Copy + Drop>(
    values: &mut ByName<'a, V>,
    name: &'a str,
    value: V,
) -> Result<(), NoMemory>
    ensures { OnOk result ((id : List ℕ) → look values.new id ≡ (if bytes_eq id name.now then Some value else look values.old id)) }
{
    match values.insert(name, value) {
        Ok(_) => Ok(()),
        Err(_) => Err(NoMemory),
    }
}

/// Gives a name a value, where it has none.
pub fn keep_first<'a, V: Copy + Drop>(
    values: &mut ByName<'a, V>,
    name: &'a str,
    value: V,
) -> Result<(), NoMemory>
    ensures { OnOk result ((id : List ℕ) → look values.new id ≡ option_or (look values.old id) (only_for name.now value id)) }
{
    if values.contains_key(name) {
        return Ok(());
    }
    set_value(values, name, value)
}
