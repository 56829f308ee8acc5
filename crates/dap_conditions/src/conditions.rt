//! The conditions, hit conditions and log messages of breakpoints.
ghost use Rattle.std.specs.Prelude.{◌≡◌, ◌++◌, IfOk, OnOk, Ok, Err, option_and_then, option_map};
ghost use Rattle.std.specs.Prelude.{option_to_list};
ghost use Rattle.asm_syntax.specs.Outcome.{LineGives};
ghost use Rattle.lab_core.specs.Board.{Board};
ghost use Rattle.lab_core.specs.Labs.{RepresentsBoard};
ghost use Rattle.dap_expr.specs.Expressions.{expression_of};
ghost use Rattle.dap_conditions.specs.Conditions as conditions;
ghost use Rattle.dap_log.specs.Messages.{LogGives, message_of};
ghost use Rattle.dap_conditions.specs.Conditions.{fault_text, value_objection, condition_objection};
ghost use Rattle.dap_conditions.specs.Conditions.{objection};
ghost use Rattle.dap_conditions.specs.Conditions.{expression_objection, log_fault_text, message_objection};
ghost use Rattle.dap_conditions.specs.Conditions.{log_objection, first_objection, condition_read, log_read};
ghost use Rattle.dap_conditions.specs.Conditions.{hit_objection, hits_read, unhit, stop_at, stop_by};
ghost use Rattle.dap_points.specs.Boards.{verified_line};
ghost use Rattle.dap_conditions.specs.Conditions.{log_point, with_log, own_stop, conditional_point};
ghost use Rattle.dap_conditions.specs.Conditions.{conditional_points};
ghost use Rattle.dap_disassembly.specs.Targets as targets;

use crate::hits::hit_condition;
use asm_expr::evaluation::ExprFault;
use asm_syntax::fault::{FaultKind, LineFault};
use base_text::text::Text;
use dap_disassembly::target::first_target;
use dap_expr::expression::Expression;
use dap_log::message::{LogFault, LogMessage};
use dap_messages::message::{BreakpointNote, BreakpointOptions, GotoTarget, PlacedBreakpoint};
use dap_points::board::{is_plain, verified_line};
use dap_slice::conditions::{ConditionalBreakpoint, ConditionalBreakpoints, LogPoint, Trigger};
use dap_slice::hits::{HitCondition, Hits};
use lab_core::lab::Lab;
use std::alloc::{AllocError, Global};

// ---- what there is to object to a breakpoint's condition

fn fault_text(alloc: Global, column: usize, kind: FaultKind) -> Result<Text, AllocError>
    ensures { IfOk result (λ text. text ≡ fault_text (column, kind)) }
{
    let mut text = String::new(alloc);
    write!(text, "condition, column {column}: ")?;
    text.push_str(kind.name())?;
    Ok(Text::from(text))
}

fn value_objection(
    alloc: Global,
    value: Result<u16, ExprFault>,
) -> Result<Option<BreakpointNote>, AllocError>
    ensures { IfOk result (λ note. note ≡ value_objection value) }
{
    match value {
        Err(ExprFault::Undefined) => {
            let text = Text::copy_of(alloc, "condition: Undefined")?;
            Ok(Some(BreakpointNote::Wrong(text)))
        }
        Err(ExprFault::Divisor) | Ok(_) => Ok(None),
    }
}

fn text_objection(
    alloc: Global,
    lab: &Lab,
    text: &str,
) -> Result<Option<BreakpointNote>, AllocError>
    ensures { (b : Board) → RepresentsBoard lab.now b
        → IfOk result (λ note. note ≡ expression_objection b (expression_of text.now)) }
{
    match Expression::parse(alloc, text) {
        Ok(condition) => value_objection(alloc, condition.value(lab)),
        Err(LineFault::OutOfMemory) => Err(AllocError),
        Err(LineFault::At { column, kind }) => {
            let text = fault_text(alloc, column, kind)?;
            Ok(Some(BreakpointNote::Wrong(text)))
        }
    }
}

// What there is to object to this condition, if there is one.
fn condition_objection(
    alloc: Global,
    lab: &Lab,
    condition: &Option<Text>,
) -> Result<Option<BreakpointNote>, AllocError>
    ensures { (b : Board) → RepresentsBoard lab.now b
        → IfOk result (λ note. note ≡ condition_objection b condition.now) }
{
    match condition {
        None => Ok(None),
        Some(text) => text_objection(alloc, lab, text.as_str()),
    }
}

// ---- and to its log message

fn log_fault_text(alloc: Global, fault: LogFault) -> Result<Text, AllocError>
    ensures { IfOk result (λ text. text ≡ log_fault_text fault) }
{
    let mut text = String::new(alloc);
    match fault {
        LogFault::OutOfMemory => text.push_str("out of memory")?,
        LogFault::OpenBrace { column } => write!(text, "log message, column {column}: open brace")?,
        LogFault::At { column, kind } => {
            write!(text, "log message, column {column}: ")?;
            text.push_str(kind.name())?;
        }
    }
    Ok(Text::from(text))
}

fn message_objection(
    alloc: Global,
    lab: &Lab,
    text: &str,
) -> Result<Option<BreakpointNote>, AllocError>
    ensures { (b : Board) → RepresentsBoard lab.now b
        → IfOk result (λ note. note ≡ message_objection b (message_of text.now)) }
{
    match LogMessage::parse(alloc, text) {
        Ok(message) if message.is_undefined(lab) => {
            let text = Text::copy_of(alloc, "log message: Undefined")?;
            Ok(Some(BreakpointNote::Wrong(text)))
        }
        Ok(_) => Ok(None),
        Err(LogFault::OutOfMemory) => Err(AllocError),
        Err(fault) => Ok(Some(BreakpointNote::Wrong(log_fault_text(alloc, fault)?))),
    }
}

fn log_objection(
    alloc: Global,
    lab: &Lab,
    log_message: &Option<Text>,
) -> Result<Option<BreakpointNote>, AllocError>
    ensures { (b : Board) → RepresentsBoard lab.now b
        → IfOk result (λ note. note ≡ log_objection b log_message.now) }
{
    match log_message {
        None => Ok(None),
        Some(text) => message_objection(alloc, lab, text.as_str()),
    }
}

// ---- and to its hit condition

fn hit_objection(
    alloc: Global,
    condition: &Option<Text>,
) -> Result<Option<BreakpointNote>, AllocError>
    ensures { IfOk result (λ note. note ≡ hit_objection condition.now) }
{
    let Some(text) = condition else {
        return Ok(None);
    };
    if hit_condition(text.as_str()).is_some() {
        return Ok(None);
    }
    let text = Text::copy_of(alloc, "hit condition: expected one like 5, >= 5 or % 5")?;
    Ok(Some(BreakpointNote::Wrong(text)))
}

// ---- and to all

// To those that aren't conditions of the board.
fn other_objection(
    alloc: Global,
    lab: &Lab,
    options: &BreakpointOptions,
) -> Result<Option<BreakpointNote>, AllocError>
    ensures { (b : Board) → RepresentsBoard lab.now b → IfOk result (λ note. note
        ≡ first_objection (hit_objection options.now.hit_condition)
        (log_objection b options.now.log_message)) }
{
    match hit_objection(alloc, &options.hit_condition)? {
        None => log_objection(alloc, lab, &options.log_message),
        Some(note) => Ok(Some(note)),
    }
}

/// What there is to object to a breakpoint with these options, of which some may not be texts.
pub fn objection(
    alloc: Global,
    lab: &Lab,
    options: &BreakpointOptions,
    has_texts: bool,
) -> Result<Option<BreakpointNote>, AllocError>
    ensures { (b : Board) → RepresentsBoard lab.now b
        → IfOk result (λ note. note ≡ objection b options.now has_texts) }
{
    if !has_texts {
        return Ok(Some(BreakpointNote::NotText));
    }
    match condition_objection(alloc, lab, &options.condition)? {
        None => other_objection(alloc, lab, options),
        Some(note) => Ok(Some(note)),
    }
}

// ---- breakpoints with options

fn condition_read(alloc: Global, condition: &Option<Text>) -> Result<Option<Expression>, LineFault>
    ensures { LineGives (λ condition. condition) result (condition_read condition.now) }
{
    match condition {
        None => Ok(None),
        Some(text) => Ok(Some(Expression::parse(alloc, text.as_str())?)),
    }
}

// A hit condition, if there is one; `None` if it can't be read.
fn hits_read(condition: &Option<Text>) -> Option<Option<HitCondition>>
    ensures { result ≡ hits_read condition.now }
{
    match condition {
        None => Some(None),
        Some(text) => Some(Some(hit_condition(text.as_str())?)),
    }
}

fn unhit(condition: Option<HitCondition>) -> Option<Hits>
    ensures { result ≡ option_map unhit condition }
{
    match condition {
        None => None,
        Some(condition) => Some(Hits {
            condition,
            count: 0,
        }),
    }
}

fn stop_with(
    id: u32,
    trigger: Trigger,
    condition: Option<Expression>,
    hits: &Option<Text>,
) -> Option<ConditionalBreakpoint>
    ensures { result ≡ option_map (stop_at id trigger condition) (hits_read hits.now) }
{
    let hits = hits_read(hits)?;
    Some(ConditionalBreakpoint {
        id,
        trigger,
        condition,
        hits: unhit(hits),
        log: None,
    })
}

/// A breakpoint with this number that stops a run there, with what is read of these options, but for a log
/// message; none if one of them has a fault.
pub fn stop_by(
    alloc: Global,
    id: u32,
    trigger: Trigger,
    options: &BreakpointOptions,
) -> Result<Option<ConditionalBreakpoint>, AllocError>
    ensures { IfOk result (λ point. point ≡ stop_by id trigger options.now) }
{
    match condition_read(alloc, &options.condition) {
        Ok(condition) => Ok(stop_with(id, trigger, condition, &options.hit_condition)),
        Err(LineFault::OutOfMemory) => Err(AllocError),
        Err(LineFault::At { .. }) => Ok(None),
    }
}

fn log_read(alloc: Global, log_message: &Option<Text>) -> Result<Option<LogMessage>, LogFault>
    ensures { LogGives result (log_read log_message.now) }
{
    match log_message {
        None => Ok(None),
        Some(text) => Ok(Some(LogMessage::parse(alloc, text.as_str())?)),
    }
}

fn log_point(
    target: GotoTarget,
    path: &Text,
    message: Option<LogMessage>,
) -> Result<Option<LogPoint>, AllocError>
    ensures { IfOk result (λ log. log ≡ option_map (log_point path.now target) message) }
{
    match message {
        None => Ok(None),
        Some(message) => Ok(Some(LogPoint {
            message,
            path: path.clone()?,
            line: target.line,
        })),
    }
}

// The breakpoint with this log message too, if that has no fault.
fn with_log(
    alloc: Global,
    target: GotoTarget,
    path: &Text,
    log_message: &Option<Text>,
    point: ConditionalBreakpoint,
) -> Result<Option<ConditionalBreakpoint>, AllocError>
    ensures { IfOk result (λ found. found ≡ with_log path.now target (log_read log_message.now) point) }
{
    match log_read(alloc, log_message) {
        Ok(message) => Ok(Some(ConditionalBreakpoint {
            log: log_point(target, path, message)?,
            ..point
        })),
        Err(LogFault::OutOfMemory) => Err(AllocError),
        Err(_) => Ok(None),
    }
}

fn breakpoint_at(
    alloc: Global,
    id: u32,
    target: Option<GotoTarget>,
    path: &Text,
    options: &BreakpointOptions,
) -> Result<Option<ConditionalBreakpoint>, AllocError>
    ensures { IfOk result (λ point. point
        ≡ conditions.breakpoint_at id path.now options.now target) }
{
    let Some(target) = target else {
        return Ok(None);
    };
    match stop_by(alloc, id, Trigger::Address(target.address), options)? {
        None => Ok(None),
        Some(point) => with_log(alloc, target, path, &options.log_message, point),
    }
}

fn target_on(lab: &Lab, line: Option<u32>) -> Option<GotoTarget>
    ensures { (b : Board) → RepresentsBoard lab.now b
        → result ≡ option_and_then (targets.first_target b) line }
{
    first_target(lab, line?)
}

// The board's own breakpoint on a line.
fn own_stop(id: u32, line: u32) -> ConditionalBreakpoint
    ensures { result ≡ own_stop id line }
{
    ConditionalBreakpoint {
        id,
        trigger: Trigger::Line(line),
        condition: None,
        hits: None,
        log: None,
    }
}

// A breakpoint without options.
fn plain_point(
    alloc: Global,
    lab: &Lab,
    path: &Text,
    taken: &[u32],
    point: &PlacedBreakpoint,
) -> Result<Option<ConditionalBreakpoint>, AllocError>
    ensures { (b : Board) → RepresentsBoard lab.now b → IfOk result (λ found. found
        ≡ conditions.plain_point path.now taken.now b point.now (verified_line point.now)) }
{
    let Some(line) = verified_line(point) else {
        return Ok(None);
    };
    if taken.contains(&line) {
        return Ok(Some(own_stop(point.id, line)));
    }
    breakpoint_at(
        alloc,
        point.id,
        first_target(lab, line),
        path,
        &point.options,
    )
}

fn conditional_point(
    alloc: Global,
    lab: &Lab,
    path: &Text,
    taken: &[u32],
    point: &PlacedBreakpoint,
) -> Result<Option<ConditionalBreakpoint>, AllocError>
    ensures { (b : Board) → RepresentsBoard lab.now b
        → IfOk result (λ found. found ≡ conditional_point path.now taken.now b point.now) }
{
    if is_plain(&point.options) {
        return plain_point(alloc, lab, path, taken, point);
    }
    breakpoint_at(
        alloc,
        point.id,
        target_on(lab, point.line),
        path,
        &point.options,
    )
}

/// Adds a breakpoint, if there is one.
pub fn push_point(
    points: &mut ConditionalBreakpoints,
    point: Option<ConditionalBreakpoint>,
) -> Result<(), AllocError>
    ensures { OnOk result (points.new ≡ points.old ++ option_to_list point) }
{
    match point {
        None => Ok(()),
        Some(point) => points.push(point),
    }
}

fn push_points(
    alloc: Global,
    lab: &Lab,
    path: &Text,
    taken: &[u32],
    points: &mut ConditionalBreakpoints,
    placed: &[PlacedBreakpoint],
) -> Result<(), AllocError>
    ensures { (b : Board) → RepresentsBoard lab.now b
        → OnOk result (points.new ≡ points.old ++ conditional_points path.now taken.now b placed.now) }
{
    let mut left = placed;
    while let Some((point, later)) = left.split_first() {
        push_point(points, conditional_point(alloc, lab, path, taken, point)?)?;
        left = later;
    }
    Ok(())
}

/// Those of these breakpoints of the source with this path that are met, first those on lines, then those at
/// labels. The board takes these lines.
pub fn conditional_points(
    alloc: Global,
    lab: &Lab,
    path: &Text,
    taken: &[u32],
    lines: &[PlacedBreakpoint],
    labels: &[PlacedBreakpoint],
) -> Result<ConditionalBreakpoints, AllocError>
    ensures { (b : Board) → RepresentsBoard lab.now b → IfOk result (λ points. points
        ≡ conditional_points path.now taken.now b lines.now
        ++ conditional_points path.now taken.now b labels.now) }
{
    let mut points = ConditionalBreakpoints::new(alloc)?;
    push_points(alloc, lab, path, taken, &mut points, lines)?;
    push_points(alloc, lab, path, taken, &mut points, labels)?;
    Ok(points)
}
