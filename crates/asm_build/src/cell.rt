//! Assembling a cell.
ghost use Rattle.std.specs.Prelude.{◌≡◌, ◌≤◌, [], length, fold, IfOk};
ghost use Rattle.asm_syntax.specs.Outcome.{Gives};
ghost use Rattle.asm_build.specs.Meaning.{with_symbol, meaning_of, built_of, meaning_in};
ghost use Rattle.asm_build.specs.Meaning.{IsMeaning, IsOnlyMeaning};
ghost use Rattle.asm_build.specs.State.{lines_of, output_in, IsLaidOut};

use crate::built::Built;
use crate::layout::{Layout, lay_out};
use crate::symbols::Symbols;
use crate::values::{Values, evaluate};
use asm_syntax::fault::AsmFault;
use asm_syntax::statement::{MOST_LINES, Statement, Statements};
use std::alloc::{AllocError, Global};

// The kept symbols with the cell's own.
fn symbols_after(alloc: Global, kept: &Symbols, own: &Symbols) -> Result<Symbols, AllocError>
    ensures { IfOk result (λ s. s ≡ fold (λ es e. with_symbol es e.0 e.1) kept.now own.now) }
{
    let mut symbols = kept.copy()?;
    symbols.define_all(alloc, own)?;
    Ok(symbols)
}

// The output of the value round, with the symbols to keep.
fn with_symbols(values: Values, symbols: Symbols) -> Built
    ensures { meaning_in result ≡ record { output = output_in values; symbols = symbols } }
{
    let Values { image, rows, start } = values;
    Built {
        image: image.into_vec(),
        rows,
        start,
        symbols,
    }
}

// The value round, and then the symbols to keep.
fn value_round(
    alloc: Global,
    kept: &Symbols,
    layout: &Layout<'_>,
    statements: &[Statement],
) -> Result<Built, AsmFault>
    requires { IsLaidOut layout.now statements.now }
    ensures { Gives meaning_in result
        (meaning_of kept.now (lines_of [] statements.now layout.now.rows.items)) }
{
    let values = evaluate(alloc, kept, layout, statements)?;
    match symbols_after(alloc, kept, &layout.own) {
        Ok(symbols) => Ok(with_symbols(values, symbols)),
        Err(_) => Err(AsmFault::OutOfMemory),
    }
}

// The layout round, and then the value round.
fn both_rounds(alloc: Global, statements: &[Statement], kept: &Symbols) -> Result<Built, AsmFault>
    requires { length statements.now ≤ MOST_LINES }
    ensures { Gives meaning_in result (built_of kept.now statements.now) }
{
    let layout = lay_out(alloc, kept, statements)?;
    value_round(alloc, kept, &layout, statements)
}

/// Assembles the statements of a cell over the kept symbols.
///
/// The location counter begins at 0. Faults of the layout come first, statement by statement:
/// `Twice` and `Early` at a name that is defined, `Early` and `Divisor` at an operand of ORG, DS,
/// EQU, SET or IF, `PastEnd` at the operation. Only a cell that can be laid out has faults of
/// values: `Undefined`, `Divisor` and `ByteRange` at an operand, `Overlap` at the operation. Out of
/// memory may be returned instead of a fault that would be found later.
///
/// 8080/8085 Assembly Language Programming Manual, chapters 2 and 4.
pub fn build(alloc: Global, statements: &Statements, kept: &Symbols) -> Result<Built, AsmFault>
    ensures exact { Gives meaning_in result (built_of kept.now statements.now) }
    ensures found { IfOk result (λ b. IsMeaning kept.now statements.now (meaning_in b)) }
    ensures only { IfOk result (λ b. IsOnlyMeaning kept.now statements.now (meaning_in b)) }
{
    both_rounds(alloc, statements.as_slice(), kept)
}
