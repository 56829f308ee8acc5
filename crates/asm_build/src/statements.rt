//! What a statement defines, and the operand that the layout depends on.
ghost use Rattle.std.specs.Prelude.{◌≡◌, None, option_map, option_copied};
ghost use Rattle.asm_build.specs.Statements.{on_action, as_label, definition_of, early_in};

use crate::symbols::SymbolKind;
use asm_syntax::statement::{Action, Label, Operand, Statement};

fn label_of(label: &Option<Label>) -> Option<(&Label, SymbolKind)>
    ensures { option_map (λ d. (d.0.now, d.1)) result ≡ as_label label.now }
{
    match label {
        None => None,
        Some(label) => Some((label, SymbolKind::Label)),
    }
}

// The name that a statement defines, and its kind.
pub(crate) fn definition_of(statement: &Statement) -> Option<(&Label, SymbolKind)>
    ensures { option_map (λ d. (d.0.now, d.1)) result ≡ definition_of statement.now }
{
    match &statement.operation {
        None => label_of(&statement.label),
        Some(operation) => match &operation.action {
            Action::Equate(label, _) => Some((label, SymbolKind::Equ)),
            Action::Set(label, _) => Some((label, SymbolKind::Set)),
            _ => label_of(&statement.label),
        },
    }
}

// The operand that the layout depends on.
pub(crate) fn early_operand(statement: &Statement) -> Option<&Operand>
    ensures { option_copied result ≡ on_action early_in None statement.now }
{
    match &statement.operation {
        None => None,
        Some(operation) => match &operation.action {
            Action::Origin(operand) => Some(operand),
            Action::Space(operand) => Some(operand),
            Action::Equate(_, operand) => Some(operand),
            Action::Set(_, operand) => Some(operand),
            Action::If(operand) => Some(operand),
            _ => None,
        },
    }
}
