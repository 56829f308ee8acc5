//! IF, ELSE and ENDIF of a text.
ghost use Rattle.std.specs.Prelude.{◌≡◌, [], false};
ghost use Rattle.asm_syntax.specs.Outcome.{LineGives, Gives};
ghost use Rattle.asm_text.specs.Conditionals.{at_if, at_else, at_endif, open_after_action, open_after};
ghost use Rattle.asm_text.specs.Conditionals.{all_closed};

use crate::open_if::{MOST_OPEN, OpenIf};
use asm_syntax::fault::{AsmFault, FaultKind, LineFault};
use asm_syntax::statement::{Action, Operation};
use std::marker::Model;

/// The open IFs at a place of the text, the innermost first.
#[derive(Drop)]
pub struct OpenIfs {
    items: [OpenIf; MOST_OPEN],
    len: usize,
}

impl Model for OpenIfs {
    ghost use Rattle.std.specs.Prelude.{List, ◌≤◌};
    ghost use Rattle.asm_text.specs.declared.open_if.OpenIf.{OpenIf};
    ghost use Rattle.asm_text.specs.OpenIfs.{last_first};

    ghost Value = { List OpenIf };

    ghost view = { λ s. last_first s.items s.len };

    ghost invariant = { λ s. s.len ≤ 16 };
}

impl OpenIfs {
    /// No open IFs.
    pub fn new() -> OpenIfs
        ensures { result ≡ [] }
    {
        let none = OpenIf {
            line: 0,
            column: 0,
            has_else: false,
        };
        OpenIfs {
            items: [none; MOST_OPEN],
            len: 0,
        }
    }

    // An IF on this line, at this column.
    #[tactic(auto, using(crate::proofs::Conditionals::one_more, crate::proofs::Conditionals::length_is))]
    fn open(&mut self, line: usize, column: usize) -> Result<(), LineFault>
        ensures { LineGives (λ _. self.new) result (at_if line column self.old) }
    {
        if self.len == MOST_OPEN {
            return Err(unmatched_fault(column));
        }
        self.items[self.len] = OpenIf {
            line,
            column,
            has_else: false,
        };
        self.len += 1;
        Ok(())
    }

    // An ELSE at this column, which switches the innermost IF to its other part.
    #[tactic(auto, using(crate::proofs::Conditionals::last_first_top))]
    fn switch(&mut self, column: usize) -> Result<(), LineFault>
        ensures { LineGives (λ _. self.new) result (at_else column self.old) }
    {
        if self.len == 0 {
            return Err(unmatched_fault(column));
        }
        let innermost = self.items[self.len - 1];
        if innermost.has_else {
            return Err(unmatched_fault(column));
        }
        self.items[self.len - 1] = OpenIf {
            line: innermost.line,
            column: innermost.column,
            has_else: true,
        };
        Ok(())
    }

    // An ENDIF at this column.
    fn close(&mut self, column: usize) -> Result<(), LineFault>
        ensures { LineGives (λ _. self.new) result (at_endif column self.old) }
    {
        if self.len == 0 {
            return Err(unmatched_fault(column));
        }
        self.len -= 1;
        Ok(())
    }

    /// Takes the operation of the next statement, which is on this line.
    pub fn pass(&mut self, line: usize, operation: &Option<Operation>) -> Result<(), LineFault>
        ensures { LineGives (λ _. self.new) result (open_after line operation.now self.old) }
    {
        let Some(operation) = operation else {
            return Ok(());
        };
        match &operation.action {
            Action::If(_) => self.open(line, operation.column),
            Action::Else => self.switch(operation.column),
            Action::EndIf => self.close(operation.column),
            _ => Ok(()),
        }
    }

    /// Returns the value at the end of the text, or fails at the innermost open IF.
    pub fn end<T: Drop>(&self, value: T) -> Result<T, AsmFault>
        ensures { Gives (λ x. x) result (all_closed value self.now) }
    {
        if self.len == 0 {
            return Ok(value);
        }
        let innermost = self.items[self.len - 1];
        Err(AsmFault::At {
            line: innermost.line,
            column: innermost.column,
            kind: FaultKind::Conditional {
                is_missing_endif: true,
            },
        })
    }
}

fn unmatched_fault(column: usize) -> LineFault
    ensures { result ≡ LineFault.At column (FaultKind.Conditional false) }
{
    LineFault::At {
        column,
        kind: FaultKind::Conditional {
            is_missing_endif: false,
        },
    }
}
