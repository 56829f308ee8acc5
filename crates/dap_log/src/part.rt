//! The parts of a message, and their text on a board.
ghost use Rattle.std.specs.Prelude.{◌≡◌, ◌++◌, OnOk, string_bytes};
ghost use Rattle.lab_core.specs.Board.{Board};
ghost use Rattle.lab_core.specs.Labs.{RepresentsBoard};
ghost use Rattle.dap_log.specs.Parts as parts;

use asm_expr::evaluation::ExprFault;
use asm_syntax::numeral::push_word;
use base_text::text::Text;
use dap_expr::expression::Expression;
use lab_core::lab::Lab;
use std::alloc::AllocError;

/// How a value is written.
#[derive(Clone, Copy)]
pub enum Radix {
    Decimal,
    /// As the assembler writes a word: `0hhhhH`.
    Hexadecimal,
}

/// A part of a message.
#[derive(Drop)]
pub enum Part {
    /// Text that is the same on every board.
    Plain(Text),
    Value {
        expression: Expression,
        radix: Radix,
    },
}

fn fault_name(fault: ExprFault) -> &'static str
    ensures { result.now ≡ parts.fault_name fault }
{
    match fault {
        ExprFault::Undefined => "Undefined",
        ExprFault::Divisor => "Divisor",
    }
}

fn push_number(text: &mut String, radix: Radix, number: u16) -> Result<(), AllocError>
    ensures { OnOk result (string_bytes text.new ≡ string_bytes text.old ++ parts.number_text radix number) }
{
    match radix {
        Radix::Decimal => write!(text, "{number}"),
        Radix::Hexadecimal => push_word(text, number),
    }
}

fn push_value(
    text: &mut String,
    radix: Radix,
    value: Result<u16, ExprFault>,
) -> Result<(), AllocError>
    ensures { OnOk result (string_bytes text.new ≡ string_bytes text.old ++ parts.value_text radix value) }
{
    match value {
        Ok(number) => push_number(text, radix, number),
        Err(fault) => text.push_str(fault_name(fault)),
    }
}

/// Adds the text of a part on a board.
pub(crate) fn push_part(lab: &Lab, text: &mut String, part: &Part) -> Result<(), AllocError>
    ensures { (b : Board) → RepresentsBoard lab.now b
        → OnOk result (string_bytes text.new ≡ string_bytes text.old ++ parts.part_text b part.now) }
{
    match part {
        Part::Plain(plain) => text.push_str(plain.as_str()),
        Part::Value { expression, radix } => push_value(text, *radix, expression.value(lab)),
    }
}

/// Whether a part names what a board's program doesn't have.
pub(crate) fn is_undefined(lab: &Lab, part: &Part) -> bool
    ensures { (b : Board) → RepresentsBoard lab.now b → result ≡ parts.is_undefined b part.now }
{
    match part {
        Part::Plain(_) => false,
        Part::Value { expression, .. } => expression.value(lab) == Err(ExprFault::Undefined),
    }
}
