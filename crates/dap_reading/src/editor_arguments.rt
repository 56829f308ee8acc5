//! The arguments that only editors' commands have, one function for each type. Each names an argument that
//! is bad.
ghost use Rattle.std.specs.Prelude.{◌≡◌, ◌≤◌, IfOk, IfSome, [], length, option_map, option_and_then, codes};
ghost use Rattle.serde_json.specs.Find.{get, as_array};
ghost use Rattle.serde_json.specs.View.{view, items_view};
ghost use Rattle.dap_talk.specs.Argument.{at_most_256};
ghost use Rattle.dap_messages.specs.declared.message.OperandStyle.TheVariants.{Numbers};
ghost use Rattle.dap_messages.specs.declared.message.ValueFormat.TheVariants.{Hexadecimal};
ghost use Rattle.dap_reading.specs.Answer.{Answers, result_map};
ghost use Rattle.dap_reading.specs.Argument.{required_value, value_or, any_number};
ghost use Rattle.dap_reading.specs.EditorArgument.{context, is_text, has_text, filters};
ghost use Rattle.dap_requests.specs.Filters.{no_filters};
ghost use Rattle.dap_reading.specs.EditorArgument.{hex, value_format, operand_style};
ghost use Rattle.dap_reading.specs.EditorArgument.{is_unset, some_text, option_text, options_of};
ghost use Rattle.dap_reading.specs.EditorArgument.{is_text_or_unset};
ghost use Rattle.dap_reading.specs.EditorArgument.{conditions_of, has_text_conditions, has_texts, line_of};
ghost use Rattle.dap_reading.specs.EditorArgument.{is_write, data_breakpoint_of};
ghost use Rattle.dap_reading.specs.EditorArgument.{offset_in, place_of, instruction_of};
ghost use Rattle.dap_reading.specs.EditorArgument.{function_of, all_of};
ghost use Rattle.dap_reading.specs.EditorArgument.{breakpoints, lines, functions, data_breakpoints};
ghost use Rattle.dap_reading.specs.EditorArgument.{instructions};

use crate::arguments::{optional, required_value, shift_of};
use crate::fault::ArgumentFault;
use base_text::sequence::Sequence;
use base_text::text::Text;
use dap_messages::message::{BreakpointOptions, Numbering, OperandStyle, ValueFormat};
use dap_requests::offset::SignedOffset;
use dap_requests::request::{
    DataBreakpoint, EvaluateContext, ExceptionFilters, FunctionBreakpoint, InstructionBreakpoint,
    LineBreakpoint,
};
use dap_talk::arguments::{address_of, whole_between};
use dap_talk::members::{self, member_at};
use serde_json::Value;
use std::alloc::{AllocError, Global};

fn context_of(value: &Value) -> Option<EvaluateContext>
    ensures { result ≡ context (view value.now) }
{
    match value.as_str()? {
        "repl" => Some(EvaluateContext::Repl),
        "watch" => Some(EvaluateContext::Watch),
        _ => Some(EvaluateContext::Other),
    }
}

/// Where an expression's value is shown.
pub fn context_or_other(
    request: &Value,
    key: &'static str,
) -> Result<EvaluateContext, ArgumentFault>
    ensures { Answers (value_or key.now context EvaluateContext.Other (view request.now)) result }
{
    match optional(request, key)? {
        None => Ok(EvaluateContext::Other),
        Some(value) => context_of(value).ok_or(ArgumentFault::Argument(key)),
    }
}

fn hex_of(value: &Value) -> Option<ValueFormat>
    ensures { result ≡ hex (view value.now) }
{
    if value.as_bool()? {
        Some(ValueFormat::Hexadecimal)
    } else {
        Some(ValueFormat::Decimal)
    }
}

fn format_of(value: &Value) -> Option<ValueFormat>
    ensures { result ≡ value_format (view value.now) }
{
    match member_at(value, "hex")? {
        None => Some(ValueFormat::Hexadecimal),
        Some(hex) => hex_of(hex),
    }
}

/// How values are written: in hexadecimal unless decimal is wanted.
pub fn format_or_hexadecimal(request: &Value) -> Result<ValueFormat, ArgumentFault>
    ensures { Answers (value_or (codes "format") value_format Hexadecimal (view request.now)) result }
{
    match optional(request, "format")? {
        None => Ok(ValueFormat::Hexadecimal),
        Some(value) => format_of(value).ok_or(ArgumentFault::Argument("format")),
    }
}

fn operands_of(value: &Value) -> Option<OperandStyle>
    ensures { result ≡ operand_style (view value.now) }
{
    if value.as_bool()? {
        Some(OperandStyle::Labels)
    } else {
        Some(OperandStyle::Numbers)
    }
}

/// How operands are written: as numbers unless symbols are to be resolved.
pub fn operands_or_numbers(request: &Value) -> Result<OperandStyle, ArgumentFault>
    ensures { Answers (value_or (codes "resolveSymbols") operand_style Numbers (view request.now)) result }
{
    match optional(request, "resolveSymbols")? {
        None => Ok(OperandStyle::Numbers),
        Some(value) => operands_of(value).ok_or(ArgumentFault::Argument("resolveSymbols")),
    }
}

fn is_text(value: &Value, text: &str) -> bool
    ensures { result ≡ is_text text.now (view value.now) }
{
    match value.as_str() {
        None => false,
        Some(other) => other == text,
    }
}

fn has_text(values: &[Value], text: &str) -> bool
    ensures { result ≡ has_text text.now (items_view values.now) }
{
    for value in values {
        if is_text(value, text) {
            return true;
        }
    }
    false
}

fn filters_of(value: &Value) -> Option<ExceptionFilters>
    ensures { result ≡ filters (view value.now) }
{
    let filters = value.as_array()?.as_slice();
    Some(ExceptionFilters {
        undefined: has_text(filters, "undefined"),
        halt: has_text(filters, "halt"),
    })
}

/// The filters of ends, and none if they are absent.
pub fn filters_or_none(request: &Value) -> Result<ExceptionFilters, ArgumentFault>
    ensures { Answers (value_or (codes "filters") filters no_filters (view request.now)) result }
{
    match optional(request, "filters")? {
        None => Ok(ExceptionFilters {
            undefined: false,
            halt: false,
        }),
        Some(value) => filters_of(value).ok_or(ArgumentFault::Argument("filters")),
    }
}

fn is_unset(breakpoint: &Value, key: &str) -> bool
    ensures { result ≡ is_unset (get key.now (view breakpoint.now)) }
{
    match breakpoint.get(key) {
        None => true,
        Some(value) => value.is_null() || is_text(value, ""),
    }
}

// A copy of a text that isn't empty.
fn some_text(alloc: Global, text: &str) -> Result<Option<Text>, AllocError>
    ensures { IfOk result (λ copy. copy ≡ some_text text.now) }
{
    if text.is_empty() {
        return Ok(None);
    }
    Ok(Some(Text::copy_of(alloc, text)?))
}

fn option_text(alloc: Global, breakpoint: &Value, key: &str) -> Result<Option<Text>, AllocError>
    ensures { IfOk result (λ text. text ≡ option_text key.now (view breakpoint.now)) }
{
    match members::text_at(breakpoint, key) {
        None => Ok(None),
        Some(text) => some_text(alloc, text),
    }
}

fn conditions_of(alloc: Global, breakpoint: &Value) -> Result<BreakpointOptions, AllocError>
    ensures { IfOk result (λ options. options ≡ conditions_of (view breakpoint.now)) }
{
    let condition = option_text(alloc, breakpoint, "condition")?;
    let hit_condition = option_text(alloc, breakpoint, "hitCondition")?;
    Ok(BreakpointOptions {
        condition,
        hit_condition,
        log_message: None,
    })
}

fn options_of(alloc: Global, breakpoint: &Value) -> Result<BreakpointOptions, AllocError>
    ensures { IfOk result (λ options. options ≡ options_of (view breakpoint.now)) }
{
    let conditions = conditions_of(alloc, breakpoint)?;
    let log_message = option_text(alloc, breakpoint, "logMessage")?;
    Ok(BreakpointOptions {
        log_message,
        ..conditions
    })
}

fn is_text_or_unset(breakpoint: &Value, key: &str) -> bool
    ensures { result ≡ is_text_or_unset key.now (view breakpoint.now) }
{
    members::text_at(breakpoint, key).is_some() || is_unset(breakpoint, key)
}

fn has_text_conditions(breakpoint: &Value) -> bool
    ensures { result ≡ has_text_conditions (view breakpoint.now) }
{
    is_text_or_unset(breakpoint, "condition") && is_text_or_unset(breakpoint, "hitCondition")
}

fn has_texts(breakpoint: &Value) -> bool
    ensures { result ≡ has_texts (view breakpoint.now) }
{
    has_text_conditions(breakpoint) && is_text_or_unset(breakpoint, "logMessage")
}

fn line_at(breakpoint: &Value) -> Option<u32>
    ensures { result ≡ option_and_then any_number (get (codes "line") (view breakpoint.now)) }
{
    whole_between(breakpoint.get("line")?, 0, u32::MAX)
}

fn line_of(
    alloc: Global,
    numbering: Numbering,
    breakpoint: &Value,
) -> Result<Option<LineBreakpoint>, AllocError>
    ensures { IfOk result (λ found. found ≡ line_of numbering (view breakpoint.now)) }
{
    let Some(line) = line_at(breakpoint) else {
        return Ok(None);
    };
    let options = options_of(alloc, breakpoint)?;
    Ok(Some(LineBreakpoint {
        line: numbering.line_meant(line),
        options,
        has_texts: has_texts(breakpoint),
    }))
}

fn lines_of(
    alloc: Global,
    numbering: Numbering,
    breakpoints: &[Value],
) -> Result<Option<Sequence<LineBreakpoint>>, AllocError>
    ensures found { IfOk result (λ found. found ≡ all_of (line_of numbering) (items_view breakpoints.now)) }
    ensures count { IfOk result (λ found. IfSome found (λ lines. length lines ≡ length breakpoints.now)) }
{
    let mut lines = Sequence::new(alloc);
    for breakpoint in breakpoints {
        let Some(line) = line_of(alloc, numbering, breakpoint)? else {
            return Ok(None);
        };
        lines.push(line)?;
    }
    Ok(Some(lines))
}

fn function_of(alloc: Global, breakpoint: &Value) -> Result<Option<FunctionBreakpoint>, AllocError>
    ensures { IfOk result (λ found. found ≡ function_of (view breakpoint.now)) }
{
    let Some(name) = members::text_at(breakpoint, "name") else {
        return Ok(None);
    };
    let name = Text::copy_of(alloc, name)?;
    let options = options_of(alloc, breakpoint)?;
    Ok(Some(FunctionBreakpoint {
        name,
        options,
        has_texts: has_texts(breakpoint),
    }))
}

fn functions_of(
    alloc: Global,
    breakpoints: &[Value],
) -> Result<Option<Sequence<FunctionBreakpoint>>, AllocError>
    ensures found { IfOk result (λ found. found ≡ all_of function_of (items_view breakpoints.now)) }
    ensures count { IfOk result (λ found. IfSome found (λ list. length list ≡ length breakpoints.now)) }
{
    let mut functions = Sequence::new(alloc);
    for breakpoint in breakpoints {
        let Some(function) = function_of(alloc, breakpoint)? else {
            return Ok(None);
        };
        functions.push(function)?;
    }
    Ok(Some(functions))
}

fn is_write(breakpoint: &Value) -> bool
    ensures { result ≡ is_write (get (codes "accessType") (view breakpoint.now)) }
{
    match breakpoint.get("accessType") {
        None => true,
        Some(access) => access.is_null() || is_text(access, "") || is_text(access, "write"),
    }
}

fn data_breakpoint_of(
    alloc: Global,
    breakpoint: &Value,
) -> Result<Option<DataBreakpoint>, AllocError>
    ensures { IfOk result (λ found. found ≡ data_breakpoint_of (view breakpoint.now)) }
{
    let Some(data_id) = members::text_at(breakpoint, "dataId") else {
        return Ok(None);
    };
    let data_id = Text::copy_of(alloc, data_id)?;
    let options = conditions_of(alloc, breakpoint)?;
    Ok(Some(DataBreakpoint {
        data_id,
        options,
        is_write: is_write(breakpoint),
        has_texts: has_text_conditions(breakpoint),
    }))
}

fn data_breakpoints_of(
    alloc: Global,
    breakpoints: &[Value],
) -> Result<Option<Sequence<DataBreakpoint>>, AllocError>
    ensures found { IfOk result (λ found. found ≡ all_of data_breakpoint_of (items_view breakpoints.now)) }
    ensures count { IfOk result (λ found. IfSome found (λ list. length list ≡ length breakpoints.now)) }
{
    let mut list = Sequence::new(alloc);
    for breakpoint in breakpoints {
        let Some(one) = data_breakpoint_of(alloc, breakpoint)? else {
            return Ok(None);
        };
        list.push(one)?;
    }
    Ok(Some(list))
}

fn offset_in(breakpoint: &Value) -> Option<SignedOffset>
    ensures { result ≡ offset_in (view breakpoint.now) }
{
    match breakpoint.get("offset") {
        None => Some(SignedOffset::Forward(0)),
        Some(value) => shift_of(value, u32::MAX),
    }
}

fn place_of(breakpoint: &Value) -> Option<Option<u16>>
    ensures { result ≡ place_of (view breakpoint.now) }
{
    let reference = members::text_at(breakpoint, "instructionReference")?;
    let offset = offset_in(breakpoint)?;
    match address_of(reference) {
        None => Some(None),
        Some(from) => Some(offset.after(from)),
    }
}

fn instruction_of(
    alloc: Global,
    breakpoint: &Value,
) -> Result<Option<InstructionBreakpoint>, AllocError>
    ensures { IfOk result (λ found. found ≡ instruction_of (view breakpoint.now)) }
{
    let Some(address) = place_of(breakpoint) else {
        return Ok(None);
    };
    let options = conditions_of(alloc, breakpoint)?;
    Ok(Some(InstructionBreakpoint {
        address,
        options,
        has_texts: has_text_conditions(breakpoint),
    }))
}

fn instructions_of(
    alloc: Global,
    breakpoints: &[Value],
) -> Result<Option<Sequence<InstructionBreakpoint>>, AllocError>
    ensures found { IfOk result (λ found. found ≡ all_of instruction_of (items_view breakpoints.now)) }
    ensures count { IfOk result (λ found. IfSome found (λ list. length list ≡ length breakpoints.now)) }
{
    let mut list = Sequence::new(alloc);
    for breakpoint in breakpoints {
        let Some(one) = instruction_of(alloc, breakpoint)? else {
            return Ok(None);
        };
        list.push(one)?;
    }
    Ok(Some(list))
}

#[tactic(auto, using(dap_talk::proofs::LineLemmas::few_items))]
fn few_breakpoints(value: &Value) -> Option<&[Value]>
    ensures value { option_map (λ bs. items_view bs.now) result
        ≡ option_and_then at_most_256 (as_array (view value.now)) }
    ensures few { IfSome result (λ bs. length bs.now ≤ 256) }
{
    let breakpoints = value.as_array()?.as_slice();
    if breakpoints.len() > 256 {
        return None;
    }
    Some(breakpoints)
}

fn breakpoints_at<'a>(request: &'a Value, key: &'static str) -> Result<&'a [Value], ArgumentFault>
    ensures value { Answers (required_value key.now breakpoints (view request.now))
        (result_map (λ bs. items_view bs.now) result) }
    ensures few { IfOk result (λ bs. length bs.now ≤ 256) }
{
    few_breakpoints(required_value(request, key)?).ok_or(ArgumentFault::Argument(key))
}

/// The required list of breakpoints at labels.
pub fn functions_at(
    alloc: Global,
    request: &Value,
    key: &'static str,
) -> Result<Sequence<FunctionBreakpoint>, ArgumentFault>
    ensures answer { Answers (required_value key.now functions (view request.now)) result }
    ensures few { IfOk result (λ functions. length functions ≤ 256) }
{
    let breakpoints = breakpoints_at(request, key)?;
    functions_of(alloc, breakpoints)?.ok_or(ArgumentFault::Argument(key))
}

/// The required list of breakpoints where places are changed.
pub fn data_breakpoints_at(
    alloc: Global,
    request: &Value,
    key: &'static str,
) -> Result<Sequence<DataBreakpoint>, ArgumentFault>
    ensures answer { Answers (required_value key.now data_breakpoints (view request.now)) result }
    ensures few { IfOk result (λ list. length list ≤ 256) }
{
    let breakpoints = breakpoints_at(request, key)?;
    data_breakpoints_of(alloc, breakpoints)?.ok_or(ArgumentFault::Argument(key))
}

/// The required list of breakpoints at instructions.
pub fn instructions_at(
    alloc: Global,
    request: &Value,
    key: &'static str,
) -> Result<Sequence<InstructionBreakpoint>, ArgumentFault>
    ensures answer { Answers (required_value key.now instructions (view request.now)) result }
    ensures few { IfOk result (λ list. length list ≤ 256) }
{
    let breakpoints = breakpoints_at(request, key)?;
    instructions_of(alloc, breakpoints)?.ok_or(ArgumentFault::Argument(key))
}

fn lines_in(
    alloc: Global,
    numbering: Numbering,
    value: &Value,
) -> Result<Option<Sequence<LineBreakpoint>>, AllocError>
    ensures found { IfOk result (λ found. found ≡ lines numbering (view value.now)) }
    ensures few { IfOk result (λ found. IfSome found (λ lines. length lines ≤ 256)) }
{
    match few_breakpoints(value) {
        None => Ok(None),
        Some(breakpoints) => lines_of(alloc, numbering, breakpoints),
    }
}

/// The breakpoints on lines, and none if they are absent.
pub fn lines_or_none(
    alloc: Global,
    numbering: Numbering,
    request: &Value,
    key: &'static str,
) -> Result<Sequence<LineBreakpoint>, ArgumentFault>
    ensures answer { Answers (value_or key.now (lines numbering) [] (view request.now)) result }
    ensures few { IfOk result (λ lines. length lines ≤ 256) }
{
    match optional(request, key)? {
        None => Ok(Sequence::new(alloc)),
        Some(value) => lines_in(alloc, numbering, value)?.ok_or(ArgumentFault::Argument(key)),
    }
}
