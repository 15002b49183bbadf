// Looking into values of JSON.
ghost use Rattle.std.specs.Prelude.{◌≡◌, true, false, length, map, ok_or, option_map, option_and_then, MatchOption, IfOk};
ghost use Rattle.std.specs.Str.{is_utf8};
ghost use Rattle.base_types.specs.Numbers.{between};
ghost use Rattle.serde_json.specs.View.{view};
ghost use Rattle.setting_text.specs.Reading.{Gives, array_at, has_len, text_at, is_text, is_entry, number_at, array_of, has_members, is_whole, value_of};

use file_faults::{Key, SettingFault};
use serde_json::Value;
use std::alloc::Global;

// The values of an array.
fn array_at(value: &Value) -> Option<&[Value]>
    ensures { option_map (λ s. map view s.now) result ≡ array_at (view value.now) }
{
    match value.as_array() {
        Some(list) => Some(list.as_slice()),
        None => None,
    }
}

fn has_len(value: &Value, len: usize) -> bool
    ensures { result ≡ has_len len (view value.now) }
{
    match array_at(value) {
        Some(list) => list.len() == len,
        None => false,
    }
}

pub(crate) fn text_at(value: Option<&Value>) -> Option<&str>
    ensures { option_map (λ s. s.now) result ≡ text_at (option_map (λ v. view v.now) value.entry) }
{
    match value {
        Some(value) => value.as_str(),
        None => None,
    }
}

fn is_text(value: Option<&Value>, text: &str) -> bool
    ensures { result ≡ is_text text.now (option_map (λ v. view v.now) value.entry) }
{
    match text_at(value) {
        Some(found) => text == found,
        None => false,
    }
}

// An array of so many that begins with this id.
pub(crate) fn is_entry(value: &Value, len: usize, id: &str) -> bool
    ensures { result ≡ is_entry len id.now (view value.now) }
{
    has_len(value, len) && is_text(value.get(0usize), id)
}

fn is_between(low: i64, x: i64, high: i64) -> bool
    ensures { result ≡ between low x high }
{
    low <= x && x <= high
}

// A number that is read as a whole one, between these.
pub(crate) fn number_at(
    key: Key,
    low: i64,
    high: i64,
    value: Option<&Value>,
) -> Result<i64, SettingFault>
    ensures { Gives (λ z. z) result
        (number_at key (λ x. between low x high) (option_map (λ v. view v.now) value.entry)) }
{
    let Some(value) = value else {
        return Err(SettingFault::NotSetting { key });
    };
    let Some(number) = value.as_number() else {
        return Err(SettingFault::NotSetting { key });
    };
    match number.as_i64() {
        Some(x) => if is_between(low, x, high) {
            Ok(x)
        } else {
            Err(SettingFault::WideNumber { key })
        },
        None => Err(SettingFault::WideNumber { key }),
    }
}

// The values of an array of so many.
pub(crate) fn array_of(
    key: Key,
    len: usize,
    value: Option<&Value>,
) -> Result<&[Value], SettingFault>
    ensures exact { Gives (λ s. map view s.now) result
        (array_of key len (option_map (λ v. view v.now) value.entry)) }
    ensures len { IfOk result (λ s. length s.now ≡ len) }
{
    let Some(value) = value else {
        return Err(SettingFault::NotSetting { key });
    };
    let Some(list) = array_at(value) else {
        return Err(SettingFault::NotSetting { key });
    };
    if list.len() == len {
        Ok(list)
    } else {
        Err(SettingFault::NotSetting { key })
    }
}

fn has_members(value: &Value, count: usize) -> bool
    ensures { result ≡ has_members count (view value.now) }
{
    match value.as_object() {
        Some(members) => members.len() == count,
        None => false,
    }
}

// An object with three members, under these keys.
pub(crate) fn is_whole(value: &Value) -> bool
    ensures { result ≡ is_whole (view value.now) }
{
    has_members(value, 3)
        && value.get("arcs").is_some()
        && value.get("decisions").is_some()
        && value.get("nodes").is_some()
}

fn text_of(bytes: &[u8]) -> Option<&str>
    ensures { MatchOption result (is_utf8 bytes.now ≡ false)
        (λ s. (s.now ≡ bytes.now) × (is_utf8 bytes.now ≡ true)) }
{
    match str::from_utf8(bytes) {
        Ok(text) => Some(text),
        Err(_) => None,
    }
}

// The value that bytes are.
pub(crate) fn value_of(alloc: Global, bytes: &[u8]) -> Result<Value, SettingFault>
    ensures { Gives view result (value_of bytes.now) }
{
    let Some(text) = text_of(bytes) else {
        return Err(SettingFault::NotJson);
    };
    match Value::from_str(alloc, text) {
        Ok(value) => Ok(value),
        Err(e) => if e.is_memory() {
            Err(SettingFault::NoMemory)
        } else {
            Err(SettingFault::NotJson)
        },
    }
}
