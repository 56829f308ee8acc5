//! The members of JSON objects.
ghost use Rattle.std.specs.Prelude.{◌≡◌, option_map};
ghost use Rattle.serde_json.specs.View.{view};
ghost use Rattle.dap_talk.specs.Argument.{text_at, member_at};

use serde_json::Value;

/// The text at a key of an object, if the value is an object with a text there.
pub fn text_at<'a>(value: &'a Value, key: &str) -> Option<&'a str>
    ensures { option_map (λ text. text.now) result ≡ text_at key.now (view value.now) }
{
    value.get(key)?.as_str()
}

/// The value at a key, and `Some(None)` if there is none. `None` if the value isn't an object.
pub fn member_at<'a>(value: &'a Value, key: &str) -> Option<Option<&'a Value>>
    ensures { option_map (option_map (λ v. view v.now)) result ≡ member_at key.now (view value.now) }
{
    if !value.is_object() {
        return None;
    }
    Some(value.get(key))
}
