//! The content of errors and of error replies.
ghost use Rattle.std.specs.Prelude.{◌≡◌, IfOk};
ghost use Rattle.serde_json.specs.View.{view};
ghost use Rattle.dap_answers.specs.Json.{members_from};
ghost use Rattle.dap_answers.specs.Object.{HasMembers};
ghost use Rattle.kern_post.specs.declared.content.Ending.TheVariants.{Failed};
ghost use Rattle.kern_render.specs.Json.{cause_members, error_json, error_reply_json, execute_reply_json};

use crate::causes::{ename, evalue, traceback};
use dap_answers::object::Object;
use kern_post::content::Cause;
use serde_json::Value;
use std::alloc::{AllocError, Global};

// The members that all of them have.
fn cause_object(alloc: Global, cause: Cause) -> Result<Object, AllocError>
    ensures { IfOk result (λ o. HasMembers o (members_from (cause_members cause))) }
{
    let evalue = evalue(alloc, cause)?;
    let traceback = traceback(alloc, cause)?;
    Ok(
        Object::new(alloc)
            .text("ename", ename(cause))
            .value("evalue", Value::from(evalue))
            .value("traceback", traceback),
    )
}

/// The content of `error` (Jupyter messaging, "Execution errors").
pub(crate) fn error(alloc: Global, cause: Cause) -> Result<Value, AllocError>
    ensures { IfOk result (λ v. view v ≡ error_json cause) }
{
    cause_object(alloc, cause)?.finish()
}

/// The content of the reply to a request that failed (Jupyter messaging, "Request-reply").
pub(crate) fn error_reply(alloc: Global, cause: Cause) -> Result<Value, AllocError>
    ensures { IfOk result (λ v. view v ≡ error_reply_json cause) }
{
    cause_object(alloc, cause)?.text("status", "error").finish()
}

/// The content of `execute_reply` after an execution that failed (Jupyter messaging, "Execution results").
pub(crate) fn failed_execution(alloc: Global, count: u64, cause: Cause) -> Result<Value, AllocError>
    ensures { IfOk result (λ v. view v ≡ execute_reply_json count (Failed cause)) }
{
    cause_object(alloc, cause)?
        .number("execution_count", count)
        .text("status", "error")
        .finish()
}
