//! Changes of places and variables.
ghost use Rattle.std.specs.Prelude.{◌≡◌};
ghost use Rattle.lab_core.specs.Board.{Board};
ghost use Rattle.lab_core.specs.Labs.{RepresentsBoard};
ghost use Rattle.dap_values.specs.Targets.{target_on};
ghost use Rattle.dap_values.specs.Faults.{LookGives};
ghost use Rattle.dap_values.specs.Assignments as changes;
ghost use Rattle.dap_values.specs.Assignments.{expression_set, variable_set};

use crate::change::{input_for, value_taken};
use crate::evaluation::{expression_read, value_read};
use crate::fault::{LookFault, change_fault};
use crate::shown::shown_as;
use crate::target::{Target, target_of};
use crate::variable::variable_target;
use dap_expr::expression::Expression;
use dap_history::input::Input;
use dap_messages::message::{ShownValue, ValueFormat};
use lab_core::lab::Lab;
use std::alloc::{AllocError, Global};

/// The change of a place, and how the place is shown after it.
#[derive(Drop)]
pub struct SetValue {
    pub input: Input,
    pub shown: ShownValue,
}

fn set_to(
    alloc: Global,
    lab: &Lab,
    target: Target,
    value: u16,
    format: ValueFormat,
) -> Result<SetValue, LookFault>
    ensures { (b : Board) → RepresentsBoard lab.now b
        → LookGives result (changes.set_to b.machine.regs target value format) }
{
    let taken = value_taken(target, value);
    let shown = shown_as(alloc, lab.regs(), target, taken, format)?;
    match input_for(alloc, lab, target, value) {
        Ok(input) => Ok(SetValue { input, shown }),
        Err(fault) => Err(change_fault(fault)),
    }
}

fn set_by(
    alloc: Global,
    lab: &Lab,
    target: Target,
    value: &str,
    format: ValueFormat,
) -> Result<SetValue, LookFault>
    ensures { (b : Board) → RepresentsBoard lab.now b
        → LookGives result (changes.set_by b target value.now format) }
{
    let value = value_read(alloc, lab, value)?;
    set_to(alloc, lab, target, value, format)
}

fn target_in(alloc: Global, lab: &Lab, expression: &Expression) -> Result<Target, LookFault>
    ensures { (b : Board) → RepresentsBoard lab.now b
        → LookGives result (changes.or_no_place (target_on b expression.now)) }
{
    match target_of(alloc, lab, expression) {
        Ok(Some(target)) => Ok(target),
        Ok(None) => Err(LookFault::NoPlace),
        Err(AllocError) => Err(LookFault::OutOfMemory),
    }
}

fn target_read(alloc: Global, lab: &Lab, text: &str) -> Result<Target, LookFault>
    ensures { (b : Board) → RepresentsBoard lab.now b → LookGives result (changes.target_read b text.now) }
{
    let expression = expression_read(alloc, text)?;
    target_in(alloc, lab, &expression)
}

/// The change by which the place that an expression names gets the value of another one. A flag takes 0 and
/// 1, and a byte what the assembler takes for one. The value is shown in hexadecimal or in decimal as by
/// `evaluate`; how it is read doesn't depend on the format.
pub fn set_expression(
    alloc: Global,
    lab: &Lab,
    expression: &str,
    value: &str,
    format: ValueFormat,
) -> Result<SetValue, LookFault>
    ensures { (b : Board) → RepresentsBoard lab.now b
        → LookGives result (expression_set b expression.now value.now format) }
{
    let target = target_read(alloc, lab, expression)?;
    set_by(alloc, lab, target, value, format)
}

/// The same for a variable of a scope, which is given by its reference: a register or a pair (1), a flag (2),
/// a byte of memory (5) or a word on the stack (6), of which the last two have their addresses as names.
pub fn set_variable(
    alloc: Global,
    lab: &Lab,
    reference: u32,
    name: &str,
    value: &str,
    format: ValueFormat,
) -> Result<SetValue, LookFault>
    ensures { (b : Board) → RepresentsBoard lab.now b
        → LookGives result (variable_set b reference name.now value.now format) }
{
    match variable_target(reference, name) {
        Some(target) => set_by(alloc, lab, target, value, format),
        None => Err(LookFault::NoVariable),
    }
}
