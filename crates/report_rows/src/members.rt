//! The members of an object.
ghost use Rattle.std.specs.Prelude.{◌≡◌, map};
ghost use Rattle.std.specs.Option.{option_map};
ghost use Rattle.serde_json.specs.View.{view, items_view};
ghost use Rattle.report_rows.specs.Members as spec;

use serde_json::Value;

/// The text of a key.
pub(crate) fn text_in<'v>(value: &'v Value, key: &str) -> Option<&'v str>
    ensures { option_map (λ t. t.now) result ≡ spec.text_in key.now (view value.entry.now) }
{
    value.get(key).and_then(Value::as_str)
}

/// The number of a key.
pub(crate) fn count_in(value: &Value, key: &str) -> Option<u64>
    ensures { result ≡ spec.count_in key.now (view value.now) }
{
    value.get(key).and_then(Value::as_u64)
}

/// The truth of a key.
pub(crate) fn flag_in(value: &Value, key: &str) -> Option<bool>
    ensures { result ≡ spec.flag_in key.now (view value.now) }
{
    value.get(key).and_then(Value::as_bool)
}

// The array of a key.
fn array_in<'v>(value: &'v Value, key: &str) -> Option<&'v Vec<Value>>
    ensures { option_map (λ list. items_view list.now.items) result ≡ spec.array_in key.now (view value.entry.now) }
{
    value.get(key).and_then(Value::as_array)
}

/// The values in the array of a key.
pub(crate) fn list_in<'v>(value: &'v Value, key: &str) -> Option<&'v [Value]>
    ensures { option_map (λ list. map view list.now) result ≡ spec.list_in key.now (view value.entry.now) }
{
    match array_in(value, key) {
        Some(list) => Some(list.as_slice()),
        None => None,
    }
}

/// Whether a key is missing.
pub(crate) fn lacks(value: &Value, key: &str) -> bool
    ensures { result ≡ spec.lacks key.now (view value.now) }
{
    value.get(key).is_none()
}

/// The lag, which is 0 where the key is missing.
#[tactic(auto, unfolding(crate::specs::Members::lag_in))]
pub(crate) fn lag_in(value: &Value) -> Option<u64>
    ensures { result ≡ spec.lag_in (view value.now) }
{
    match value.get("lag") {
        Some(lag) => lag.as_u64(),
        None => Some(0),
    }
}

/// The number of a key, where the key stands.
#[tactic(auto, unfolding(crate::specs::Members::number_asked))]
pub(crate) fn number_asked(value: &Value, key: &str) -> Option<Option<u64>>
    ensures { result ≡ spec.number_asked key.now (view value.now) }
{
    match value.get(key) {
        Some(number) => Some(Some(number.as_u64()?)),
        None => Some(None),
    }
}

/// The truth of a key, which is false where the key is missing.
#[tactic(auto, unfolding(crate::specs::Members::flag_asked))]
pub(crate) fn flag_asked(value: &Value, key: &str) -> Option<bool>
    ensures { result ≡ spec.flag_asked key.now (view value.now) }
{
    match value.get(key) {
        Some(flag) => flag.as_bool(),
        None => Some(false),
    }
}
