//! Sessions of cells, each over the symbols that the one before left, and all that a cell gives.

use crate::language::rows::{Asked, compare};
use asm_build::built::{Built, Row};
use asm_build::cell::build;
use asm_build::symbols::{SymbolKind, Symbols};
use asm_syntax::fault::AsmFault;
use asm_text::statements::statements;
use std::alloc::{AllocError, Global};
use std::mem;

fn put_image(image: &[(u16, u8)], told: &mut String) -> Result<(), AllocError> {
    for (address, byte) in image {
        write!(told, "{address:X}={byte:X} ")?;
    }
    Ok(())
}

fn put_rows(rows: &[Row], told: &mut String) -> Result<(), AllocError> {
    for row in rows {
        write!(told, "{}@{:X}+{} ", row.line, row.address, row.length)?;
    }
    Ok(())
}

fn kind_name(kind: SymbolKind) -> &'static str {
    match kind {
        SymbolKind::Label => "Label ",
        SymbolKind::Equ => "Equ ",
        SymbolKind::Set => "Set ",
    }
}

fn put_symbols(symbols: &Symbols, told: &mut String) -> Result<(), AllocError> {
    for index in 0..symbols.len() {
        if let Some((name, symbol)) = symbols.at(index) {
            write!(told, "{name}:{:X} ", symbol.value)?;
            told.push_str(kind_name(symbol.kind))?;
        }
    }
    Ok(())
}

// Each byte with its address, each row as line@address+length, the start, and the symbols in order.
fn put_built(built: &Built, told: &mut String) -> Result<(), AllocError> {
    put_image(built.image.as_slice(), told)?;
    put_rows(built.rows.as_slice(), told)?;
    if let Some(start) = built.start {
        write!(told, "start {start:X} ")?;
    }
    put_symbols(&built.symbols, told)
}

// Assembles a cell over the symbols that were kept.
fn build_cell(alloc: Global, cell: &str, kept: &Symbols) -> Result<Built, AsmFault> {
    let all = statements(alloc, cell)?;
    let built = build(alloc, &all, kept);
    drop(all);
    built
}

/// What a cell gives over the symbols that were kept, which a good cell replaces, or its fault.
pub(crate) fn put_cell(
    alloc: Global,
    cell: &str,
    kept: &mut Symbols,
    told: &mut String,
) -> Result<(), AllocError> {
    match build_cell(alloc, cell, kept) {
        Ok(mut built) => {
            let put = put_built(&built, told);
            mem::swap(kept, &mut built.symbols);
            drop(built);
            put
        }
        Err(fault) => write!(told, "{fault}"),
    }
}

// The cell's own label wins over the one that was kept, each time that the cell is built.
const LABELS: &str = "\
X: NOP
Z EQU 9 | 0=0 1@0+1 X:0 Label Z:9 Equ
JMP X
Y: NOP
X:
RST 7
END Y
JMP 0 | 0=C3 1=4 2=0 3=0 4=FF 1@0+3 2@3+1 4@4+1 start 3 X:4 Label Z:9 Equ Y:3 Label
JMP X
Y: NOP
X:
RST 7
END Y
JMP 0 | 0=C3 1=4 2=0 3=0 4=FF 1@0+3 2@3+1 4@4+1 start 3 X:4 Label Z:9 Equ Y:3 Label
";

// A cell with a fault leaves what was kept.
const DIRECTIVES: &str = "\
ORG 0FFH
DB 'IT''S',-1
X: DS 3
DW 1234H,$

MVI M,X | 6:7 ByteRange
ORG 0FFH
DB 'IT''S',-1
X: DS 3
DW 1234H,$
 | FF=49 100=54 101=27 102=53 103=FF 107=34 108=12 109=7 10A=1 2@FF+5 4@107+4 X:104 Label
ORG 0FFFEH
MVI M,80H
X: DS 0
ORG 0FFFDH
Y: DS 2
Z: NOP | 6:4 Overlap
ORG 0FFFEH
MVI M,80H
X: DS 0
ORG 0FFFDH
Y: DS 2 | FFFE=36 FFFF=80 2@FFFE+2 X:0 Label Y:FFFD Label
";

// An IF selects by what was kept; a SET changes from use to use, and its last value is kept.
const CHOICES: &str = "\
X SET 0 | X:0 Set
IF X
RST 1
ELSE
RST 2
IF 1
RST 3
ENDIF
ENDIF | 0=D7 1=DF 4@0+1 6@1+1 X:0 Set
X SET 0
MVI M,X
X SET X+1
MVI M,X | 0=36 1=0 2=36 3=1 2@0+2 4@2+2 X:1 Set
IF X
RST 1
ELSE
RST 2
IF 1
RST 3
ENDIF
ENDIF | 0=CF 2@0+1 X:1 Set
";

// What was taken from the kept symbols can't be defined; what was only used can.
const TAKEN: &str = "\
X: NOP | 0=0 1@0+1 X:0 Label

X: DS X | 2:1 Early

X SET X+1 | 2:1 Early
ORG X
X: NOP | 2:1 Early
JMP X
X: | 0=C3 1=3 2=0 1@0+3 X:3 Label
";

// Kept names stay in their places, new ones come last; a cell may be built over its own symbols.
const KEPT: &str = "\
X: NOP
Y EQU 7 | 0=0 1@0+1 X:0 Label Y:7 Equ
JMP X
NOP
X: HLT
Z SET 9 | 0=C3 1=4 2=0 3=0 4=76 1@0+3 2@3+1 3@4+1 X:4 Label Y:7 Equ Z:9 Set
JMP X
NOP
X: HLT
Z SET 9 | 0=C3 1=4 2=0 3=0 4=76 1@0+3 2@3+1 3@4+1 X:4 Label Y:7 Equ Z:9 Set
";

// Only lines that give bytes have rows.
const ROWS: &str = " |
; nothing
X: MVI A,5
Y: DS 3

 DW 1,2
END X+2 | 0=3E 1=5 5=1 6=0 7=2 8=0 2@0+2 5@5+4 start 2 X:0 Label Y:2 Label
";

// A name is in upper case, and its column is that of its first letter.
const NAMES: &str = "\
Loop: mov a,b | 0=78 1@0+1 LOOP:0 Label
Loop: mov a,b
Loop: mov a,b | 2:1 Twice
";

#[test]
fn sessions(rt: HostRuntime) {
    for session in [LABELS, DIRECTIVES, CHOICES, TAKEN, KEPT, ROWS, NAMES] {
        compare(&rt, Asked::Cell, session);
    }
}

// Two cells, of which the second one stands over what the first one kept.
const PAIRS: [&str; 13] = [
    "\
N EQU 7 | N:7 Equ
ORG N
N EQU 5 | 2:1 Early",
    "\
X EQU 3 | X:3 Equ
X EQU X+1 | 1:1 Early",
    "\
X EQU 3 | X:3 Equ
X: ORG X | 1:1 Early",
    "\
X EQU 1 | X:1 Equ
MVI A,X
X SET 1 | 2:1 Early",
    "\
X EQU 1 | X:1 Equ
IF X
X EQU 1
ENDIF | 2:1 Early",
    "\
N EQU 1 | N:1 Equ
DS N
NOP
N: NOP | 3:1 Early",
    "\
X EQU 1 | X:1 Equ
X SET X+1 | 1:1 Early",
    "\
X EQU 1 | X:1 Equ
X: DS Y | 1:7 Early",
    "\
X: NOP | 0=0 1@0+1 X:0 Label
JMP X
NOP
X: HLT | 0=C3 1=4 2=0 3=0 4=76 1@0+3 2@3+1 3@4+1 X:4 Label",
    "\
X EQU 1234H | X:1234 Equ
JMP X | 0=C3 1=34 2=12 1@0+3 X:1234 Equ",
    "\
X EQU 0 | X:0 Equ
IF X
X EQU 1
ENDIF | X:0 Equ",
    "\
Y EQU 1 | Y:1 Equ
DW Y
Y EQU 0ABCDH | 0=CD 1=AB 1@0+2 Y:ABCD Equ",
    "\
N0 EQU 6 | N0:6 Equ
N SET N0
DB N
N SET N+1
DB N | 0=6 1=7 2@0+1 4@1+1 N0:6 Equ N:7 Set",
];

#[test]
fn cells_over_cells(rt: HostRuntime) {
    for pair in PAIRS {
        compare(&rt, Asked::Cell, pair);
    }
}
