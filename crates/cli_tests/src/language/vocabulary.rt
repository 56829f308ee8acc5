//! The words of the language, and how its faults are printed.

use crate::language::rows::{Asked, compare};
use crate::language::tokens::keyword_name;
use asm_syntax::fault::{AsmFault, FaultKind, LineFault};
use asm_syntax::keyword::keyword_of;
use asm_syntax::statement::{MOST_LINES, Statement, Statements};
use i80_base::instruction::{ByteOperation, Cond, Instr, Pair, Reg, WordOperation};
use i80_rows::encoding::encode;
use std::alloc::{AllocError, Global};

/// The keyword that a word is.
pub(crate) fn put_keyword(word: &[u8], told: &mut String) -> Result<(), AllocError> {
    match keyword_of(word) {
        Some(keyword) => told.push_str(keyword_name(keyword)),
        None => told.push_str("a name"),
    }
}

// Words of other assemblers and of the 8085, and no words, are names.
const WORDS: &str = "\
nop | Mnemonic(Alone(Nop))
EndIf | Directive(EndIf)
NOPE | a name
NO | a name
 | a name
RIM | a name
SIM | a name
SPH | a name
BCD | a name
";

#[test]
fn words_are_found_in_either_case(rt: HostRuntime) {
    compare(&rt, Asked::Keyword, WORDS);
}

// Whether an instruction is this. No two have one encoding.
fn is_same(instr: Instr, want: Instr) -> bool {
    encode(instr).as_slice() == encode(want).as_slice()
}

#[test]
fn instructions_take_their_operands(rt: HostRuntime) {
    let are_so = is_same(
        ByteOperation::Mvi(Reg::M).instruction(5),
        Instr::Mvi(Reg::M, 5),
    ) && is_same(ByteOperation::In.instruction(5), Instr::In(5))
        && is_same(
            WordOperation::Lxi(Pair::Sp).instruction(5),
            Instr::Lxi(Pair::Sp, 5),
        )
        && is_same(
            WordOperation::CallIf(Cond::Minus).instruction(5),
            Instr::CallIf(Cond::Minus, 5),
        );
    assert!(rt; are_so);
}

// Whether a fault in a cell and one on a line are printed so.
fn are_printed(alloc: Global, wanted: &str) -> Result<bool, AllocError> {
    let kind = FaultKind::Conditional {
        is_missing_endif: true,
    };
    let fault = AsmFault::At {
        line: 12,
        column: 3,
        kind,
    };
    let kind = FaultKind::ByteRange;
    let on_line = LineFault::At { column: 3, kind };
    let text = format!(in alloc; "{fault}; {on_line}")?;
    Ok(text.as_str() == wanted)
}

// How many statements there are after three were put there.
fn count_of_three(alloc: Global) -> Result<usize, AllocError> {
    let mut statements = Statements::new(alloc);
    for _ in 0..3 {
        if statements.as_slice().len() < MOST_LINES {
            statements.push(Statement {
                label: None,
                operation: None,
            })?;
        }
    }
    Ok(statements.as_slice().len())
}

#[test]
fn faults_are_printed_and_statements_counted(rt: HostRuntime) {
    assert!(rt; are_printed(rt.alloc(), "12:3 Conditional; 3 ByteRange") == Ok(true));
    assert!(rt; count_of_three(rt.alloc()) == Ok(3));
}
