//! Why an expression has no value, or a place can't get one.
ghost use Rattle.std.specs.Prelude.{◌≡◌, ◌≢◌, IfOk};
ghost use Rattle.dap_values.specs.declared.fault.LookFault.TheVariants as fault;
ghost use Rattle.dap_values.specs.Faults.{message_of, value_fault_name, change_fault};

use crate::change::ChangeFault;
use asm_expr::evaluation::ExprFault;
use asm_syntax::fault::FaultKind;
use base_text::text::Text;
use std::alloc::{AllocError, Global};

/// Why an expression has no value, or a place can't get one.
#[derive(Clone, Copy)]
pub enum LookFault {
    OutOfMemory,
    /// A text that is empty or has more than one line.
    NoExpression,
    /// A text that is no expression. Columns count from 1, at the first character that isn't white space.
    Syntax { column: usize, kind: FaultKind },
    /// An expression without a value.
    Value(ExprFault),
    /// An expression that names no place.
    NoPlace,
    NoVariable,
    /// A value larger than the place takes.
    TooLarge { most: u16 },
    /// A word of which one byte has no address.
    NoRoom,
}

fn value_fault_name(fault: ExprFault) -> &'static str
    ensures { result.now ≡ value_fault_name fault }
{
    match fault {
        ExprFault::Undefined => "Undefined",
        ExprFault::Divisor => "Divisor",
    }
}

/// Why a place can't get a value.
pub(crate) fn change_fault(fault: ChangeFault) -> LookFault
    ensures { result ≡ change_fault fault }
{
    match fault {
        ChangeFault::OutOfMemory => LookFault::OutOfMemory,
        ChangeFault::TooLarge { most } => LookFault::TooLarge { most },
        ChangeFault::NoRoom => LookFault::NoRoom,
    }
}

fn syntax_message(alloc: Global, column: usize, kind: FaultKind) -> Result<Text, AllocError>
    ensures { IfOk result (λ text. text ≡ message_of (fault.Syntax column kind)) }
{
    let name = kind.name();
    let mut text = String::new(alloc);
    write!(text, "column {column}: {name}")?;
    Ok(Text::from(text))
}

fn bound_message(alloc: Global, most: u16) -> Result<Text, AllocError>
    ensures { IfOk result (λ text. text ≡ message_of (fault.TooLarge most)) }
{
    let mut text = String::new(alloc);
    write!(text, "the value must be from 0 to {most}")?;
    Ok(Text::from(text))
}

impl LookFault {
    /// The text that an editor shows. There is none for `OutOfMemory`, which is an error of its own.
    pub fn message(self, alloc: Global) -> Result<Text, AllocError>
        ensures message { IfOk result (λ text. text ≡ message_of self) }
        ensures other { IfOk result (λ _. self ≢ fault.OutOfMemory) }
    {
        match self {
            LookFault::OutOfMemory => Err(AllocError),
            LookFault::NoExpression => {
                Text::copy_of(alloc, "an expression has one line, and a value")
            }
            LookFault::Syntax { column, kind } => syntax_message(alloc, column, kind),
            LookFault::Value(fault) => Text::copy_of(alloc, value_fault_name(fault)),
            LookFault::NoPlace => Text::copy_of(
                alloc,
                "this is no place: a register, a flag, [e] or word[e] is one",
            ),
            LookFault::NoVariable => Text::copy_of(alloc, "no such variable"),
            LookFault::TooLarge { most } => bound_message(alloc, most),
            LookFault::NoRoom => Text::copy_of(alloc, "a word has no room at FFFF"),
        }
    }
}

impl From<AllocError> for LookFault {
    ghost use Rattle.std.specs.Prelude.{◌≡◌};
    ghost use Rattle.dap_values.specs.declared.fault.LookFault.TheVariants.{OutOfMemory};

    ghost from_gives = { λ _ fault. fault ≡ OutOfMemory };

    fn from(_: AllocError) -> LookFault {
        LookFault::OutOfMemory
    }
}
