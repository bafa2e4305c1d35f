//! Arguments, as requests give them.
ghost use Rattle.std.specs.Prelude.{◌≡◌, option_map};
ghost use Rattle.serde_json.specs.View.{items_view, view};
ghost use Rattle.tb_dap_values.specs.Arguments as spec;

use serde_json::Value;

/// A text that is a member of a value.
pub fn text_in<'a>(value: &'a Value, name: &str) -> Option<&'a str>
    ensures { option_map (λ t. t.now) result ≡ spec.text_in (view value.now) name.now }
{
    value.get(name).and_then(Value::as_str)
}

/// A list that is a member of a value.
pub fn list_in<'a>(value: &'a Value, name: &str) -> Option<&'a Vec<Value>>
    ensures { option_map (λ vs. items_view vs.now.items) result ≡ spec.list_in (view value.now) name.now }
{
    value.get(name).and_then(Value::as_array)
}

/// A flag, or what it usually is where it is left out; `None` where it is no flag.
pub fn flag_in(value: &Value, name: &str, usual: bool) -> Option<bool>
    ensures { result ≡ spec.flag_in (view value.now) name.now usual }
{
    match value.get(name) {
        Some(flag) => flag.as_bool(),
        None => Some(usual),
    }
}

/// A number from 0, or what it usually is where it is left out; `None` where it is no such number.
pub fn number_in(value: &Value, name: &str, usual: u64) -> Option<u64>
    ensures { result ≡ spec.number_in (view value.now) name.now usual }
{
    match value.get(name) {
        Some(number) => number.as_u64(),
        None => Some(usual),
    }
}

/// A number of either sign, or 0 where it is left out; `None` where it is no such number.
pub fn offset_in(value: &Value, name: &str) -> Option<i64>
    ensures { result ≡ spec.offset_in (view value.now) name.now }
{
    match value.get(name) {
        Some(number) => number.as_i64(),
        None => Some(0),
    }
}

/// A text, or none where it is left out; `None` where it is no text.
pub fn optional_text<'a>(value: &'a Value, name: &str) -> Option<Option<&'a str>>
    ensures { option_map (option_map (λ t. t.now)) result ≡ spec.optional_text (view value.now) name.now }
{
    match value.get(name) {
        Some(text) => match text.as_str() {
            Some(text) => Some(Some(text)),
            None => None,
        },
        None => Some(None),
    }
}
