//! The content of replies.
ghost use Rattle.std.specs.Prelude.{◌≡◌, IfOk};
ghost use Rattle.serde_json.specs.View.{view};
ghost use Rattle.kern_post.specs.declared.content.Ending.TheVariants.{Done};
ghost use Rattle.kern_render.specs.Json.{language_json, kernel_info_json, execute_reply_json};
ghost use Rattle.kern_render.specs.Json.{is_complete_json, complete_json, inspect_json, history_json};
ghost use Rattle.kern_render.specs.Json.{comm_info_json, shutdown_json, interrupt_json};

use crate::errors::failed_execution;
use dap_answers::object::Object;
use kern_post::content::{Completeness, Ending};
use serde_json::Value;
use std::alloc::{AllocError, Global};

fn language(alloc: Global) -> Result<Value, AllocError>
    ensures { IfOk result (λ v. view v ≡ language_json) }
{
    Object::new(alloc)
        .text("file_extension", ".asm")
        .text("mimetype", "text/x-asm")
        .text("name", "i8080")
        .text("version", "1.0")
        .finish()
}

/// The content of `kernel_info_reply` (Jupyter messaging, "Kernel info").
pub(crate) fn kernel_info(alloc: Global) -> Result<Value, AllocError>
    ensures { IfOk result (λ v. view v ≡ kernel_info_json) }
{
    let language = language(alloc)?;
    Object::new(alloc)
        .text("banner", "Intel 8080 laboratory")
        .flag("debugger", true)
        .empty_list("help_links")
        .text("implementation", "lab80")
        .text("implementation_version", "1.0")
        .value("language_info", language)
        .text("protocol_version", "5.4")
        .text("status", "ok")
        .finish()
}

fn done_execution(alloc: Global, count: u64) -> Result<Value, AllocError>
    ensures { IfOk result (λ v. view v ≡ execute_reply_json count Done) }
{
    Object::new(alloc)
        .number("execution_count", count)
        .empty_list("payload")
        .text("status", "ok")
        .empty_object("user_expressions")
        .finish()
}

/// The content of `execute_reply` (Jupyter messaging, "Execution results").
pub(crate) fn execute_reply(alloc: Global, count: u64, ending: Ending) -> Result<Value, AllocError>
    ensures { IfOk result (λ v. view v ≡ execute_reply_json count ending) }
{
    match ending {
        Ending::Done => done_execution(alloc, count),
        Ending::Failed(cause) => failed_execution(alloc, count, cause),
    }
}

/// The content of `is_complete_reply` (Jupyter messaging, "Code completeness").
pub(crate) fn is_complete(alloc: Global, completeness: Completeness) -> Result<Value, AllocError>
    ensures { IfOk result (λ v. view v ≡ is_complete_json completeness) }
{
    match completeness {
        Completeness::Complete => Object::new(alloc).text("status", "complete").finish(),
        Completeness::Incomplete => Object::new(alloc)
            .text("indent", "")
            .text("status", "incomplete")
            .finish(),
        Completeness::Invalid => Object::new(alloc).text("status", "invalid").finish(),
    }
}

/// The content of `complete_reply` (Jupyter messaging, "Completion"), without matches.
pub(crate) fn complete(alloc: Global, cursor_pos: u64) -> Result<Value, AllocError>
    ensures { IfOk result (λ v. view v ≡ complete_json cursor_pos) }
{
    Object::new(alloc)
        .number("cursor_end", cursor_pos)
        .number("cursor_start", cursor_pos)
        .empty_list("matches")
        .empty_object("metadata")
        .text("status", "ok")
        .finish()
}

/// The content of `inspect_reply` (Jupyter messaging, "Introspection"), with nothing found.
pub(crate) fn inspect(alloc: Global) -> Result<Value, AllocError>
    ensures { IfOk result (λ v. view v ≡ inspect_json) }
{
    Object::new(alloc)
        .empty_object("data")
        .flag("found", false)
        .empty_object("metadata")
        .text("status", "ok")
        .finish()
}

/// The content of `history_reply` (Jupyter messaging, "History"), which is empty, since none is kept.
pub(crate) fn history(alloc: Global) -> Result<Value, AllocError>
    ensures { IfOk result (λ v. view v ≡ history_json) }
{
    Object::new(alloc)
        .empty_list("history")
        .text("status", "ok")
        .finish()
}

/// The content of `comm_info_reply` (Jupyter messaging, "Comm info"), without comms.
pub(crate) fn comm_info(alloc: Global) -> Result<Value, AllocError>
    ensures { IfOk result (λ v. view v ≡ comm_info_json) }
{
    Object::new(alloc)
        .empty_object("comms")
        .text("status", "ok")
        .finish()
}

/// The content of `shutdown_reply` (Jupyter messaging, "Kernel shutdown").
pub(crate) fn shutdown(alloc: Global, restarts: bool) -> Result<Value, AllocError>
    ensures { IfOk result (λ v. view v ≡ shutdown_json restarts) }
{
    Object::new(alloc)
        .flag("restart", restarts)
        .text("status", "ok")
        .finish()
}

/// The content of `interrupt_reply` (Jupyter messaging, "Kernel interrupt").
pub(crate) fn interrupt(alloc: Global) -> Result<Value, AllocError>
    ensures { IfOk result (λ v. view v ≡ interrupt_json) }
{
    Object::new(alloc).text("status", "ok").finish()
}
