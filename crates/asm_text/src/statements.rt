//! The statements of a text.
ghost use Rattle.std.specs.Prelude.{◌≡◌, ◌≤◌, [], length, IfOk, MatchResult};
ghost use Rattle.std.specs.Str.Lines.{lines};
ghost use Rattle.asm_syntax.specs.Outcome.{LineGives, Gives};
ghost use Rattle.asm_syntax.specs.declared.fault.AsmFault.TheVariants as asm;
ghost use Rattle.asm_syntax.specs.declared.fault.FaultKind.TheVariants as kind;
ghost use Rattle.asm_text.specs.Cells.{IsTooLong};
ghost use Rattle.asm_text.specs.Statements.{line_step_of, step_of, is_end_action, statements_from};
ghost use Rattle.asm_text.specs.Statements.{statements_of, texts_of};

use crate::conditional::OpenIfs;
use crate::lines::statement;
use asm_syntax::fault::{AsmFault, FaultKind, LineFault};
use asm_syntax::statement::{Action, MOST_LINES, Operation, Statement, Statements};
use std::alloc::{AllocError, Global};

/// The most bytes of a cell.
pub const MOST_BYTES: usize = 1_048_576;

// The statement of a line, which may open, switch or close an IF.
fn read_line(
    alloc: Global,
    number: usize,
    ifs: &mut OpenIfs,
    line: &[u8],
) -> Result<Statement, LineFault>
    ensures { LineGives (λ s. (s, ifs.new)) result (line_step_of number ifs.old line.now) }
{
    let statement = statement(alloc, line)?;
    let passed = ifs.pass(number, &statement.operation);
    unless_fault(passed, statement)
}

fn unless_fault(passed: Result<(), LineFault>, statement: Statement) -> Result<Statement, LineFault>
    ensures { MatchResult passed (λ _. result ≡ Ok statement) (λ fault. result ≡ Err fault) }
{
    match passed {
        Ok(()) => Ok(statement),
        Err(fault) => {
            // Calls the one drop function; else its match would be inlined here.
            drop(statement);
            Err(fault)
        }
    }
}

#[tactic(auto, unfolding(crate::specs::Statements::step_of))]
fn step(alloc: Global, number: usize, ifs: &mut OpenIfs, line: &str) -> Result<Statement, AsmFault>
    ensures { Gives (λ s. (s, ifs.new)) result (step_of number ifs.old line.now) }
{
    match read_line(alloc, number, ifs, line.as_bytes()) {
        Ok(statement) => Ok(statement),
        Err(LineFault::OutOfMemory) => Err(AsmFault::OutOfMemory),
        Err(LineFault::At { column, kind }) => Err(AsmFault::At {
            line: number,
            column,
            kind,
        }),
    }
}

fn is_end(operation: &Option<Operation>) -> bool
    ensures { result ≡ is_end_action operation.now }
{
    match operation {
        Some(operation) => matches!(&operation.action, Action::End(_)),
        None => false,
    }
}

fn statements_on(alloc: Global, lines: &[&str]) -> Result<Statements, AsmFault>
    requires { length lines.now ≤ MOST_LINES }
    ensures { Gives (λ x. x) result (statements_from 1 [] (texts_of lines.now)) }
{
    let mut statements = Statements::new(alloc);
    let mut ifs = OpenIfs::new();
    for (index, line) in lines.iter().enumerate() {
        let statement = step(alloc, index + 1, &mut ifs, line)?;
        let is_last = is_end(&statement.operation);
        statements.push(statement)?;
        if is_last {
            return ifs.end(statements);
        }
    }
    ifs.end(statements)
}

fn lines_of<'a>(alloc: Global, text: &'a str) -> Result<Vec<&'a str>, AllocError>
    ensures { IfOk result (λ v. texts_of v.items ≡ lines text.now) }
{
    text.lines().collect(alloc)
}

fn count_lines(text: &str) -> usize
    ensures { result ≡ length (lines text.now) }
{
    text.lines().count()
}

/// The statements of a cell's text, one for each line up to the one with END, or its first fault.
#[tactic(auto, unfolding(crate::specs::Statements::statements_of))]
pub fn statements(alloc: Global, text: &str) -> Result<Statements, AsmFault>
    ensures exact { Gives (λ x. x) result (statements_of text.now) }
    // This allocates nothing, so it never is `OutOfMemory`.
    ensures long { IsTooLong text.now → result ≡ Err (asm.At 1 1 kind.TooLong) }
{
    if text.len() > MOST_BYTES || count_lines(text) > MOST_LINES {
        return Err(AsmFault::At {
            line: 1,
            column: 1,
            kind: FaultKind::TooLong,
        });
    }
    let lines = lines_of(alloc, text)?;
    statements_on(alloc, &lines)
}
