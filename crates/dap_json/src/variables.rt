//! The JSON of scopes, of variables and other values, and of completions.
ghost use Rattle.std.specs.Prelude.{◌≡◌, IfOk, codes};
ghost use Rattle.serde_json.specs.View.{view};
ghost use Rattle.dap_answers.specs.Object.{HasMembers};
ghost use Rattle.dap_answers.specs.Json.{members_from, list_of, one_list};
ghost use Rattle.dap_json.specs.Json.{memory_members, bare_variable, variable_json};
ghost use Rattle.dap_json.specs.Json.{evaluation_json, value_json};
ghost use Rattle.dap_json.specs.Json.{registers_json, counted_scope, every_scope, scopes_json};
ghost use Rattle.dap_json.specs.Json.{completion_json, completion_type};

use dap_answers::json::{ToJson, reference};
use dap_answers::object::Object;
use dap_messages::message::{Completion, CompletionKind, EditorVariable, ShownValue};
use lab_shown::scope::Scope;
use serde_json::Value;
use std::alloc::{AllocError, Global};

// An object with the place of a value in memory, if it has one.
fn place_of(alloc: Global, value: &ShownValue) -> Result<Object, AllocError>
    ensures { IfOk result (λ o. HasMembers o (members_from (memory_members value.now.memory))) }
{
    match value.memory {
        None => Ok(Object::new(alloc)),
        Some(address) => {
            let reference = reference(alloc, address)?;
            Ok(Object::new(alloc).value("memoryReference", reference))
        }
    }
}

// The members of a variable, without its expression.
fn bare_variable(alloc: Global, variable: &EditorVariable) -> Result<Object, AllocError>
    ensures { IfOk result (λ o. HasMembers o (members_from (bare_variable variable.now))) }
{
    let place = place_of(alloc, &variable.value)?;
    Ok(
        place
            .text("name", variable.name.as_str())
            .text("value", variable.value.text.as_str())
            .number("variablesReference", 0),
    )
}

fn variable(alloc: Global, variable: &EditorVariable) -> Result<Value, AllocError>
    ensures { IfOk result (λ v. view v ≡ variable_json variable.now) }
{
    let bare = bare_variable(alloc, variable)?;
    match &variable.expression {
        None => bare.finish(),
        Some(expression) => bare.text("evaluateName", expression.as_str()).finish(),
    }
}

fn every_variable(alloc: Global, list: &[EditorVariable]) -> Result<Value, AllocError>
    ensures { IfOk result (λ v. view v ≡ list_of variable_json list.now) }
{
    let mut values = Vec::new(alloc);
    for one in list {
        values.push(variable(alloc, one)?)?;
    }
    Ok(Value::from(values))
}

/// The JSON of variables.
pub fn variables(alloc: Global, list: &[EditorVariable]) -> Result<Value, AllocError>
    ensures { IfOk result (λ v. view v ≡ one_list (codes "variables") variable_json list.now) }
{
    let list = every_variable(alloc, list)?;
    Object::new(alloc).value("variables", list).finish()
}

/// The JSON of the value of an expression.
pub fn evaluation(alloc: Global, value: &ShownValue) -> Result<Value, AllocError>
    ensures { IfOk result (λ v. view v ≡ evaluation_json value.now) }
{
    place_of(alloc, value)?
        .text("result", value.text.as_str())
        .number("variablesReference", 0)
        .finish()
}

/// The JSON of a value that was set.
pub fn value_set(alloc: Global, value: &ShownValue) -> Result<Value, AllocError>
    ensures { IfOk result (λ v. view v ≡ value_json value.now) }
{
    place_of(alloc, value)?
        .text("value", value.text.as_str())
        .finish()
}

fn registers(alloc: Global) -> Result<Value, AllocError>
    ensures { IfOk result (λ v. view v ≡ registers_json) }
{
    Object::new(alloc)
        .flag("expensive", false)
        .text("name", "Registers")
        .text("presentationHint", "registers")
        .number(
            "variablesReference",
            u64::from(Scope::Registers.reference()),
        )
        .finish()
}

fn counted_scope(
    alloc: Global,
    name: &str,
    reference: u32,
    is_expensive: bool,
    count: u32,
) -> Result<Value, AllocError>
    ensures { IfOk result (λ v. view v ≡ counted_scope name.now reference is_expensive count) }
{
    Object::new(alloc)
        .flag("expensive", is_expensive)
        .number("indexedVariables", u64::from(count))
        .text("name", name)
        .number("variablesReference", u64::from(reference))
        .finish()
}

fn every_scope(alloc: Global, symbols: u32, words: u32) -> Result<Value, AllocError>
    ensures { IfOk result (λ v. view v ≡ every_scope symbols words) }
{
    let registers = registers(alloc)?;
    let flags = Scope::Flags.to_json(alloc)?;
    let stack = counted_scope(alloc, "Stack", 6, false, words)?;
    let devices = Scope::Devices.to_json(alloc)?;
    let symbols = counted_scope(alloc, "Symbols", Scope::Symbols.reference(), false, symbols)?;
    let memory = counted_scope(alloc, "Memory", Scope::Memory.reference(), true, 65_536)?;
    let mut scopes = Vec::new(alloc);
    scopes.push(registers)?;
    scopes.push(flags)?;
    scopes.push(stack)?;
    scopes.push(devices)?;
    scopes.push(symbols)?;
    scopes.push(memory)?;
    Ok(Value::from(scopes))
}

/// The JSON of scopes.
pub fn scopes(alloc: Global, symbols: u32, words: u32) -> Result<Value, AllocError>
    ensures { IfOk result (λ v. view v ≡ scopes_json symbols words) }
{
    let scopes = every_scope(alloc, symbols, words)?;
    Object::new(alloc).value("scopes", scopes).finish()
}

/// The text of `type` in a completion.
fn completion_type(kind: CompletionKind) -> &'static str
    ensures { result.now ≡ completion_type kind }
{
    match kind {
        CompletionKind::Part => "variable",
        CompletionKind::Symbol => "reference",
        CompletionKind::Word => "keyword",
    }
}

fn completion(
    alloc: Global,
    item: &Completion,
    start: u64,
    length: u32,
) -> Result<Value, AllocError>
    ensures { IfOk result (λ v. view v ≡ completion_json start length item.now) }
{
    Object::new(alloc)
        .text("label", item.label.as_str())
        .number("length", u64::from(length))
        .number("start", start)
        .text("type", completion_type(item.kind))
        .finish()
}

fn every_completion(
    alloc: Global,
    items: &[Completion],
    start: u64,
    length: u32,
) -> Result<Value, AllocError>
    ensures { IfOk result (λ v. view v ≡ list_of (completion_json start length) items.now) }
{
    let mut values = Vec::new(alloc);
    for item in items {
        values.push(completion(alloc, item, start, length)?)?;
    }
    Ok(Value::from(values))
}

/// The JSON of completions. `start` counts as the editor does.
pub fn completions(
    alloc: Global,
    items: &[Completion],
    start: u64,
    length: u32,
) -> Result<Value, AllocError>
    ensures { IfOk result (λ v. view v
        ≡ one_list (codes "targets") (completion_json start length) items.now) }
{
    let items = every_completion(alloc, items, start, length)?;
    Object::new(alloc).value("targets", items).finish()
}
