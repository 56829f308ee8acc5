//! Answers to requests for values and variables.
ghost use Rattle.std.specs.Prelude.{◌≡◌, ◌≢◌, Err, Some, IfOk, option_map};
ghost use Rattle.lab_core.specs.Board.{Board};
ghost use Rattle.lab_core.specs.Labs.{RepresentsBoard};
ghost use Rattle.dap_prompt.specs.Answers as answers;

use base_text::sequence::Sequence;
use base_text::text::Text;
use dap_messages::message::{EditorBody, EditorOutcome, EditorVariable, ShownValue, ValueFormat};
use dap_requests::request::VariablesCommand;
use dap_run::refusals::board_refusal;
use dap_scopes::completion::{Completions, complete};
use dap_scopes::scopes::{sizes, variables};
use dap_scopes::symbols::symbols_text;
use dap_values::assignment::{SetValue, set_expression, set_variable};
use dap_values::evaluation::evaluate;
use dap_values::fault::LookFault;
use lab_core::fault::EventFault;
use lab_core::lab::Lab;
use lab_core::run_state::RunState;
use std::alloc::{AllocError, Global};

/// What a line of the prompt that is done is answered by.
pub fn done_value(alloc: Global) -> Result<ShownValue, AllocError>
    ensures { IfOk result (λ value. value ≡ answers.done_value) }
{
    let text = Text::copy_of(alloc, "ok")?;
    Ok(ShownValue { text, memory: None })
}

// ---- expressions

/// The value of an expression, or why it has none.
pub fn evaluation(
    alloc: Global,
    lab: &Lab,
    expression: &str,
    format: ValueFormat,
) -> Result<EditorOutcome, AllocError>
    ensures { (b : Board) → RepresentsBoard lab.now b
        → IfOk result (λ outcome. outcome ≡ answers.evaluation b expression.now format) }
{
    match evaluate(alloc, lab, expression, format) {
        Ok(value) => Ok(EditorOutcome::Success(EditorBody::Evaluation(value))),
        Err(fault) => {
            let message = fault.message(alloc)?;
            Ok(EditorOutcome::Refused(message))
        }
    }
}

// ---- the prompt

// The part of names behind the word `symbols`.
fn part_behind(rest: &str) -> Option<&str>
    ensures { option_map (λ part. part.now) result ≡ answers.part_behind rest.now }
{
    match rest.as_bytes() {
        [] | [b' ', ..] => Some(rest.trim()),
        _ => None,
    }
}

// The part of names by which a line of the prompt asks for symbols, if it does.
fn part_asked(line: &str) -> Option<&str>
    ensures { option_map (λ part. part.now) result ≡ answers.part_asked line.now }
{
    match line.strip_prefix("symbols") {
        Some(rest) => part_behind(rest),
        None => None,
    }
}

fn symbols_outcome(alloc: Global, lab: &Lab, part: &str) -> Result<EditorOutcome, AllocError>
    ensures { (b : Board) → RepresentsBoard lab.now b
        → IfOk result (λ outcome. outcome ≡ answers.symbols_outcome b part.now) }
{
    let text = symbols_text(alloc, lab, part)?;
    let value = ShownValue { text, memory: None };
    Ok(EditorOutcome::Success(EditorBody::Evaluation(value)))
}

/// What a line of the debugger's prompt shows that is no command of the board: `symbols PART` the symbols in
/// whose names the part stands, anything else its value as an expression. Symbols are in hexadecimal,
/// whatever the format.
pub fn prompt_evaluation(
    alloc: Global,
    lab: &Lab,
    line: &str,
    format: ValueFormat,
) -> Result<EditorOutcome, AllocError>
    ensures { (b : Board) → RepresentsBoard lab.now b
        → IfOk result (λ outcome. outcome ≡ answers.prompt_evaluation b line.now format) }
{
    match part_asked(line) {
        Some(part) => symbols_outcome(alloc, lab, part),
        None => evaluation(alloc, lab, line, format),
    }
}

// ---- changes

// The value that is set, or the message that says why it can't be.
fn or_message(
    alloc: Global,
    set: Result<SetValue, LookFault>,
) -> Result<Result<SetValue, Text>, AllocError>
    ensures set { IfOk result (λ found. found ≡ answers.or_message set) }
    ensures other { IfOk result (λ _. set ≢ Err LookFault.OutOfMemory) }
{
    match set {
        Ok(set) => Ok(Ok(set)),
        Err(fault) => {
            let message = fault.message(alloc)?;
            Ok(Err(message))
        }
    }
}

// ---- answers to commands

/// What a command shows, or the value that it sets.
#[derive(Drop)]
pub enum VariablesAnswer {
    Outcome(EditorOutcome),
    /// The value, or why it can't be set.
    Change(Result<SetValue, Text>),
}

// A refusal of the board. Running out of memory is an error of its own.
fn refusal_of(alloc: Global, fault: EventFault) -> Result<VariablesAnswer, AllocError>
    ensures refused { IfOk result (λ answer. answer ≡ answers.refusal_of fault) }
    ensures other { IfOk result (λ _. fault ≢ EventFault.OutOfMemory) }
{
    if matches!(fault, EventFault::OutOfMemory) {
        return Err(AllocError);
    }
    let text = Text::copy_of(alloc, board_refusal(fault))?;
    Ok(VariablesAnswer::Outcome(EditorOutcome::Refused(text)))
}

fn has_frame(lab: &Lab, frame: u32) -> bool
    ensures { (b : Board) → RepresentsBoard lab.now b → result ≡ answers.has_frame frame b }
{
    1 <= frame && frame as usize <= lab.frames().len() + 1
}

fn scopes(alloc: Global, lab: &Lab, frame: u32) -> Result<VariablesAnswer, AllocError>
    ensures { (b : Board) → RepresentsBoard lab.now b
        → IfOk result (λ answer. answer ≡ answers.scopes_answer b.run frame b) }
{
    if !matches!(lab.run_state(), RunState::Stopped) {
        return refusal_of(alloc, EventFault::NotStopped);
    }
    if !has_frame(lab, frame) {
        return refusal_of(alloc, EventFault::BadFrame);
    }
    let sizes = sizes(lab);
    Ok(VariablesAnswer::Outcome(EditorOutcome::Success(EditorBody::Scopes {
        symbols: sizes.symbols,
        words: sizes.words,
    })))
}

fn rows(
    alloc: Global,
    found: Result<Sequence<EditorVariable>, EventFault>,
) -> Result<VariablesAnswer, AllocError>
    ensures answer { IfOk result (λ answer. answer ≡ answers.rows_answer found) }
    ensures other { IfOk result (λ _. found ≢ Err EventFault.OutOfMemory) }
{
    match found {
        Ok(rows) => Ok(VariablesAnswer::Outcome(EditorOutcome::Success(EditorBody::Variables(
            rows,
        )))),
        Err(fault) => refusal_of(alloc, fault),
    }
}

fn completions(
    alloc: Global,
    lab: &Lab,
    text: &str,
    column: u32,
) -> Result<VariablesAnswer, AllocError>
    ensures { (b : Board) → RepresentsBoard lab.now b
        → IfOk result (λ answer. answer ≡ answers.completions_answer b text.now column) }
{
    let Completions {
        items,
        start,
        length,
    } = complete(alloc, lab, text, column)?;
    Ok(VariablesAnswer::Outcome(EditorOutcome::Success(EditorBody::Completions {
        items,
        start,
        length,
    })))
}

/// What a command shows of a board, or the value that it sets.
pub fn variables_answer(
    alloc: Global,
    lab: &Lab,
    command: &VariablesCommand,
) -> Result<VariablesAnswer, AllocError>
    ensures { (b : Board) → RepresentsBoard lab.now b
        → IfOk result (λ answer. answer ≡ answers.variables_answer command.now b) }
{
    match command {
        VariablesCommand::Scopes { frame } => scopes(alloc, lab, *frame),
        VariablesCommand::Variables {
            reference,
            start,
            count,
            format,
        } => {
            let found = variables(alloc, lab, *reference, *start, *count, *format);
            rows(alloc, found)
        }
        VariablesCommand::Completions { text, column } => {
            completions(alloc, lab, text.as_str(), *column)
        }
        VariablesCommand::SetVariable {
            reference,
            name,
            value,
            format,
        } => {
            let name = name.as_str();
            let found = set_variable(alloc, lab, *reference, name, value.as_str(), *format);
            let set = or_message(alloc, found)?;
            Ok(VariablesAnswer::Change(set))
        }
        VariablesCommand::SetExpression {
            expression,
            value,
            format,
        } => {
            let found = set_expression(alloc, lab, expression.as_str(), value.as_str(), *format);
            let set = or_message(alloc, found)?;
            Ok(VariablesAnswer::Change(set))
        }
    }
}
