//! Members of a message's content.
ghost use Rattle.std.specs.Prelude.{◌≡◌};
ghost use Rattle.serde_json.specs.View.{view};
ghost use Rattle.kern_request.specs.Requests.{bool_at, whole_at};

use dap_talk::members::member_at;
use serde_json::Value;

/// The whole number at a key of an object. It must be written without a fraction, exponent or minus sign.
pub fn whole_at(content: &Value, key: &str) -> Option<u64>
    ensures { result ≡ whole_at key.now (view content.now) }
{
    content.get(key)?.as_u64()
}

/// The boolean at a key of an object, `Some(None)` if the object doesn't have the key. Returns `None` if
/// the content is no object or the value no boolean.
pub fn bool_at(content: &Value, key: &str) -> Option<Option<bool>>
    ensures { result ≡ bool_at key.now (view content.now) }
{
    match member_at(content, key)? {
        None => Some(None),
        Some(value) => Some(Some(value.as_bool()?)),
    }
}
