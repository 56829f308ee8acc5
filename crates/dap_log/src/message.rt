//! Log messages.
ghost use Rattle.std.specs.Prelude.{◌≡◌, ◌++◌, IfOk, OnOk, string_bytes};
ghost use Rattle.std.specs.List.{flat_map, list_any};
ghost use Rattle.lab_core.specs.Board.{Board};
ghost use Rattle.lab_core.specs.Labs.{RepresentsBoard};
ghost use Rattle.dap_log.specs.Pieces.{pieces_of, piece_of};
ghost use Rattle.dap_log.specs.Parts.{expression_text, radix_of, part_text, is_undefined};
ghost use Rattle.dap_log.specs.Messages as messages;
ghost use Rattle.dap_log.specs.Messages.{LogGives, message_of, text_on, is_undefined_on};

use crate::part::{Part, Radix, is_undefined, push_part};
use crate::piece::{Front, Piece, piece_at};
use asm_syntax::fault::{FaultKind, LineFault};
use base_text::sequence::Sequence;
use base_text::text::Text;
use dap_expr::expression::Expression;
use lab_core::lab::Lab;
use std::alloc::{AllocError, AllocFailed, Global};
use thiserror::Error;

/// The greatest length of a text in bytes.
const MOST_BYTES: usize = 1024;

/// Why a text isn't a log message: out of memory, or a fault at a column, from 1.
#[derive(Clone, Copy, Debug, PartialEq, Eq, Error)]
pub enum LogFault {
    #[error("OutOfMemory")]
    OutOfMemory,
    /// A brace that isn't closed.
    #[error("{column} OpenBrace")]
    OpenBrace { column: usize },
    /// A text of more than 1,024 bytes, or what is wrong with an expression.
    #[error("{column} {kind}")]
    At { column: usize, kind: FaultKind },
}

impl From<AllocError> for LogFault {
    ghost use Rattle.dap_log.specs.declared.message.LogFault.TheVariants.{OutOfMemory};

    ghost from_gives = { λ _ fault. fault ≡ OutOfMemory };

    fn from(_: AllocError) -> LogFault {
        LogFault::OutOfMemory
    }
}

impl<T: Drop> From<AllocFailed<T>> for LogFault {
    ghost use Rattle.dap_log.specs.declared.message.LogFault.TheVariants.{OutOfMemory};

    ghost from_gives = { λ _ fault. fault ≡ OutOfMemory };

    fn from(_: AllocFailed<T>) -> LogFault {
        LogFault::OutOfMemory
    }
}

/// A log message that was read once.
#[derive(Drop)]
pub struct LogMessage {
    pub(crate) parts: Sequence<Part>,
}

/// A fault of the expression in the braces that open at this column.
fn fault_within(brace: usize, fault: LineFault) -> LogFault
    ensures { messages.IsWithin brace fault result }
{
    match fault {
        LineFault::OutOfMemory => LogFault::OutOfMemory,
        LineFault::At { column, kind } => match brace.checked_add(column) {
            Some(column) => LogFault::At { column, kind },
            // It doesn't come to this, since a text has at most 1,024 bytes.
            None => LogFault::OutOfMemory,
        },
    }
}

/// An expression without `:x` behind it, which stands for hexadecimal.
fn with_radix(text: &str) -> (&str, Radix)
    ensures { (result.0.now ≡ expression_text text.now) × (result.1 ≡ radix_of text.now) }
{
    if text.as_bytes().ends_with(b":x") {
        (text.split_at(text.len() - 2).0, Radix::Hexadecimal)
    } else {
        (text, Radix::Decimal)
    }
}

/// The value of the expression in the braces that open at this column.
fn value_part(alloc: Global, brace: usize, text: &str) -> Result<Part, LogFault>
    ensures { LogGives result (messages.value_part brace text.now) }
{
    let (text, radix) = with_radix(text);
    match Expression::parse(alloc, text) {
        Ok(expression) => Ok(Part::Value { expression, radix }),
        Err(fault) => Err(fault_within(brace, fault)),
    }
}

/// The part that the piece at this column is.
fn part_of(alloc: Global, column: usize, piece: Piece<'_>) -> Result<Part, LogFault>
    ensures { LogGives result (messages.part_of (column, piece_of piece.entry)) }
{
    match piece {
        Piece::Plain(text) | Piece::Doubled(text) => Ok(Part::Plain(Text::copy_of(alloc, text)?)),
        Piece::Expression(text) => value_part(alloc, column, text),
        Piece::Unclosed => Err(LogFault::OpenBrace { column }),
    }
}

/// The parts of a text.
fn parts_of(alloc: Global, text: &str) -> Result<Sequence<Part>, LogFault>
    ensures { LogGives result (messages.parts_of (pieces_of text.now)) }
{
    let mut parts = Sequence::new(alloc);
    let mut left = text;
    while !left.is_empty() {
        let column = text.len() - left.len() + 1;
        let Front { piece, rest } = piece_at(left);
        let part = part_of(alloc, column, piece)?;
        parts.push(part)?;
        left = rest;
    }
    Ok(parts)
}

fn push_parts(lab: &Lab, text: &mut String, parts: &[Part]) -> Result<(), AllocError>
    ensures { (b : Board) → RepresentsBoard lab.now b → OnOk result (string_bytes text.new
        ≡ string_bytes text.old ++ flat_map (part_text b) parts.now) }
{
    for part in parts {
        push_part(lab, text, part)?;
    }
    Ok(())
}

fn is_any_undefined(lab: &Lab, parts: &[Part]) -> bool
    ensures { (b : Board) → RepresentsBoard lab.now b → result ≡ list_any (is_undefined b) parts.now }
{
    for part in parts {
        if is_undefined(lab, part) {
            return true;
        }
    }
    false
}

impl LogMessage {
    /// Reads a message. Its faults are in this order: `TooLong` at column 1, for a text of more than 1,024
    /// bytes, and then the first brace that isn't closed or expression that can't be read.
    #[tactic(auto, unfolding(crate::specs::Messages::message_of))]
    pub fn parse(alloc: Global, text: &str) -> Result<LogMessage, LogFault>
        ensures { LogGives result (message_of text.now) }
    {
        if text.len() > MOST_BYTES {
            return Err(LogFault::At {
                column: 1,
                kind: FaultKind::TooLong,
            });
        }
        let parts = parts_of(alloc, text)?;
        Ok(LogMessage { parts })
    }

    /// The text on a board.
    pub fn text(&self, alloc: Global, lab: &Lab) -> Result<Text, AllocError>
        ensures { (b : Board) → RepresentsBoard lab.now b
            → IfOk result (λ text. text ≡ text_on b self.now) }
    {
        let mut text = String::new(alloc);
        push_parts(lab, &mut text, self.parts.as_slice())?;
        Ok(Text::from(text))
    }

    /// Whether it names what a board's program doesn't have.
    pub fn is_undefined(&self, lab: &Lab) -> bool
        ensures { (b : Board) → RepresentsBoard lab.now b → result ≡ is_undefined_on b self.now }
    {
        is_any_undefined(lab, self.parts.as_slice())
    }
}
