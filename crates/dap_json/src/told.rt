//! The JSON of what has lines or columns.
ghost use Rattle.std.specs.Prelude.{◌≡◌, IfOk};
ghost use Rattle.serde_json.specs.Data.{Data};
ghost use Rattle.serde_json.specs.View.{view};
ghost use Rattle.dap_answers.specs.Json.{list_of};
ghost use Rattle.dap_messages.specs.declared.message.Numbering.{Numbering};

use dap_messages::message::Numbering;
use serde_json::Value;
use std::alloc::{AllocError, Global};

/// A type whose values have a JSON form for each way to count lines and columns.
pub trait ToldJson {
    ghost json: { Numbering → Self → Data };

    fn told_json(&self, alloc: Global, numbering: Numbering) -> Result<Value, AllocError>
        ensures { IfOk result (λ v. view v ≡ json numbering self.now) };
}

/// The items as a JSON array.
pub fn told_list<T: ToldJson>(
    alloc: Global,
    numbering: Numbering,
    items: &[T],
) -> Result<Value, AllocError>
    ensures { IfOk result (λ v. view v ≡ list_of (T.json numbering) items.now) }
{
    let mut values = Vec::new(alloc);
    for item in items {
        values.push(item.told_json(alloc, numbering)?)?;
    }
    Ok(Value::from(values))
}
