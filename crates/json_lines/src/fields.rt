//! The fields of an object of JSON, by their types. Nothing here takes memory.

ghost use Rattle.std.specs.Prelude.{◌≡◌, option_map};
ghost use Rattle.std.specs.List.{list_all};
ghost use Rattle.serde_json.specs.View.{view, items_view};
ghost use Rattle.serde_json.specs.declared.value.Value.{Value};
ghost use Rattle.json_lines.specs.Fields.{number_at, flag_at, text_at, optional_text_at, optional_number_at, is_string, are_strings, strings_at};

use serde_json::Value;

/// The u64 under a key; None where it is absent or of another shape.
pub fn number_at(value: &Value, name: &str) -> Option<u64>
    ensures { result ≡ number_at name.now (view value.now) }
{
    value.get(name)?.as_u64()
}

/// The truth value under a key; None where it is absent or of another shape.
pub fn flag_at(value: &Value, name: &str) -> Option<bool>
    ensures { result ≡ flag_at name.now (view value.now) }
{
    value.get(name)?.as_bool()
}

/// The text under a key; None where it is absent or of another shape.
pub fn text_at<'a>(value: &'a Value, name: &str) -> Option<&'a str>
    ensures { option_map (λ s. s.now) result ≡ text_at name.now (view value.now) }
{
    value.get(name)?.as_str()
}

/// The text under a key, which may be absent or null; None where it is of another shape.
#[tactic(auto, unfolding(crate::specs::Fields::optional_text_of))]
pub fn optional_text_at<'a>(value: &'a Value, name: &str) -> Option<Option<&'a str>>
    ensures { option_map (option_map (λ s. s.now)) result ≡ optional_text_at name.now (view value.now) }
{
    match value.get(name) {
        Some(found) if !found.is_null() => found.as_str().map(Some),
        _ => Some(None),
    }
}

/// The u64 under a key, which may be absent or null; None where it is of another shape.
#[tactic(auto, unfolding(crate::specs::Fields::optional_number_at))]
pub fn optional_number_at(value: &Value, name: &str) -> Option<Option<u64>>
    ensures { result ≡ optional_number_at name.now (view value.now) }
{
    match value.get(name) {
        Some(found) if !found.is_null() => found.as_u64().map(Some),
        _ => Some(None),
    }
}

fn is_string(value: &Value) -> bool
    ensures { result ≡ is_string (view value.now) }
{
    value.is_string()
}

fn is_each_string(items: &[Value]) -> bool
    ensures { result ≡ list_all (λ (v : Value). is_string (view v)) items.now }
{
    items.iter().all(|item| is_string(item))
}

/// Whether each value is a text.
pub fn are_strings(items: &[Value]) -> bool
    ensures { result ≡ are_strings (items_view items.now) }
{
    is_each_string(items)
}

/// The list of texts under a key, where an absent one and null are empty; None where it is of another shape.
#[tactic(auto, unfolding(crate::specs::Fields::strings_of))]
pub fn strings_at<'a>(value: &'a Value, name: &str) -> Option<&'a [Value]>
    ensures { option_map (λ s. items_view s.now) result ≡ strings_at name.now (view value.now) }
{
    match value.get(name) {
        Some(found) if !found.is_null() => {
            let items = found.as_array()?.as_slice();
            if are_strings(items) {
                Some(items)
            } else {
                None
            }
        }
        _ => Some(&[]),
    }
}
