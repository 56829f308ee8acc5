//! The headers of messages to be sealed.
ghost use Rattle.std.specs.Prelude.{◌≡◌, ◌++◌, IfOk, codes, decimal, string_bytes};
ghost use Rattle.serde_json.specs.View.{view};
ghost use Rattle.jup_wire.specs.Header.{empty_object, header_json};

use serde_json::{Value, json};
use std::alloc::{AllocError, Global};

fn message_id(alloc: Global, session: &str, number: u64) -> Result<String, AllocError>
    ensures { IfOk result (λ id. string_bytes id ≡ session.now ++ codes "_" ++ decimal number) }
{
    format!(in alloc; "{session}_{number}")
}

/// The header of the message with this number in its session (Jupyter messaging 5.4, "Message header"). The
/// `msg_id` is the name of the session, `_` and the number. `date` is an ISO 8601 date.
pub fn header_json(
    alloc: Global,
    date: &str,
    session: &str,
    number: u64,
    msg_type: &str,
) -> Result<Value, AllocError>
    ensures { IfOk result (λ v. view v ≡ header_json date.now session.now number msg_type.now) }
{
    let id = message_id(alloc, session, number)?;
    json!(in alloc; {
        "date": date,
        "msg_id": id,
        "msg_type": msg_type,
        "session": session,
        "username": "kernel",
        "version": "5.4"
    })
}

/// An object without members, as most metadata is.
pub fn empty_object(alloc: Global) -> Result<Value, AllocError>
    ensures { IfOk result (λ v. view v ≡ empty_object) }
{
    json!(in alloc; {})
}
