//! Values of expressions.
ghost use Rattle.std.specs.Prelude.{◌≡◌};
ghost use Rattle.lab_core.specs.Board.{Board};
ghost use Rattle.lab_core.specs.Labs.{RepresentsBoard};
ghost use Rattle.dap_expr.specs.Values.{value_on};
ghost use Rattle.dap_values.specs.Faults.{LookGives};
ghost use Rattle.dap_values.specs.Evaluation as evaluation;
ghost use Rattle.dap_values.specs.Evaluation.{evaluation_of};

use crate::fault::LookFault;
use crate::shown::{shown_at, value_shown};
use crate::target::target_of;
use asm_expr::evaluation::ExprFault;
use asm_syntax::fault::LineFault;
use dap_expr::expression::Expression;
use dap_messages::message::{ShownValue, ValueFormat};
use lab_core::lab::Lab;
use std::alloc::Global;

fn is_one_line(text: &str) -> bool
    ensures { result ≡ evaluation.is_one_line text.now }
{
    let bytes = text.as_bytes();
    !bytes.is_empty() && !bytes.contains(&b'\n') && !bytes.contains(&b'\r')
}

fn read_trimmed(alloc: Global, text: &str) -> Result<Expression, LookFault>
    ensures { LookGives result (evaluation.read_trimmed text.now) }
{
    if !is_one_line(text) {
        return Err(LookFault::NoExpression);
    }
    match Expression::parse(alloc, text) {
        Ok(expression) => Ok(expression),
        Err(LineFault::OutOfMemory) => Err(LookFault::OutOfMemory),
        Err(LineFault::At { column, kind }) => Err(LookFault::Syntax { column, kind }),
    }
}

/// The expression that a text is, without the white space at its ends.
#[tactic(auto, unfolding(crate::specs::Evaluation::expression_read))]
pub(crate) fn expression_read(alloc: Global, text: &str) -> Result<Expression, LookFault>
    ensures { LookGives result (evaluation.expression_read text.now) }
{
    read_trimmed(alloc, text.trim())
}

fn or_fault(value: Result<u16, ExprFault>) -> Result<u16, LookFault>
    ensures { result ≡ evaluation.or_fault value }
{
    match value {
        Ok(value) => Ok(value),
        Err(fault) => Err(LookFault::Value(fault)),
    }
}

/// The value of the expression that a text is.
pub(crate) fn value_read(alloc: Global, lab: &Lab, text: &str) -> Result<u16, LookFault>
    ensures { (b : Board) → RepresentsBoard lab.now b → LookGives result (evaluation.value_read b text.now) }
{
    let expression = expression_read(alloc, text)?;
    or_fault(expression.value(lab))
}

fn expression_shown(
    alloc: Global,
    lab: &Lab,
    expression: &Expression,
    format: ValueFormat,
) -> Result<ShownValue, LookFault>
    ensures { (b : Board) → RepresentsBoard lab.now b
        → LookGives result (evaluation.expression_shown b expression.now format) }
{
    match target_of(alloc, lab, expression)? {
        Some(target) => shown_at(alloc, lab, target, format),
        None => {
            let value = or_fault(expression.value(lab))?;
            value_shown(alloc, value, format)
        }
    }
}

/// The value of an expression as an editor shows it. In hexadecimal a byte of the machine is `0hhH` and any
/// other value but a flag `0hhhhH`, in decimal they are like `165` and `259`; a flag is 0 or 1 in both. A
/// memory window on the value begins where the byte or the word is, else at the value, which may be an
/// address; for a register of one byte, PSW and a flag there is none.
///
/// White space at the ends is ignored. An empty text and a text with LF or CR fail with `NoExpression`.
pub fn evaluate(
    alloc: Global,
    lab: &Lab,
    text: &str,
    format: ValueFormat,
) -> Result<ShownValue, LookFault>
    ensures { (b : Board) → RepresentsBoard lab.now b
        → LookGives result (evaluation_of b text.now format) }
{
    let expression = expression_read(alloc, text)?;
    expression_shown(alloc, lab, &expression, format)
}
