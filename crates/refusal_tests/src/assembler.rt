//! Cells from their text to their image, and its listing.

use crate::again::{again, fail, tell_want};
use anyhow::Result;
use asm_build::built::Built;
use asm_build::cell::build;
use asm_build::symbols::{SymbolKind, Symbols};
use asm_syntax::fault::AsmFault;
use asm_syntax::statement::Statements;
use asm_text::statements::statements;
use i80_dis::listing::listing;
use lab_test_kit::cells::symbols;
use std::alloc::{AllocError, Global};
use std::mem;

/// Each directive, and each operator.
const DIRECTIVES: &str = "\
    ORG 10H
TEXT: DB 'AB',1,-2,'It''s'
WORD: DW TEXT,'AB',$,HIGH 1234H,LOW(WORD)
ROOM: DS 2*3-4/2
COUNT EQU 5 MOD 3 SHL 4 SHR 2
LAST SET NOT 0 AND 0FH OR 30H XOR 1
LAST SET LAST+1
    IF COUNT EQ 8
MAIN: MVI A,LAST
    ELSE
    MVI A,0
    ENDIF
    IF 1 GT 2
    HLT
    ELSE
    LXI H,(TEXT NE WORD) AND (1 LT 2)
    ENDIF
    END MAIN
";

/// As many IFs in one another as may be, some that are left out among them.
const NESTED: &str = "\
IF 1\nIF 1\nIF 1\nIF 1\nIF 1\nIF 1\nIF 1\nIF 1\n\
IF 1\nIF 1\nIF 1\nIF 0\nNOP\nELSE\nIF 1\nIF 1\nIF 1\nIF 1\nHLT\n\
ENDIF\nENDIF\nENDIF\nENDIF\nENDIF\nENDIF\nENDIF\nENDIF\n\
ENDIF\nENDIF\nENDIF\nENDIF\nENDIF\nENDIF\nENDIF\nENDIF\n";

/// Cells, each over the symbols that those before it left.
const CELLS: &[&str] = &[
    "X: NOP",
    "JMP X\nNOP\nX: HLT",
    "JMP X\nNOP\nX: HLT",
    "X: NOP\nX: NOP",
    "ORG 0FFFFH\nJMP 0",
    "X: MVI A,5\nHLT\nEND X",
    "",
    DIRECTIVES,
    NESTED,
    "MVI A,256",
];

fn read(rt: &impl Print, alloc: Global, cell: &str) -> Result<Result<Statements, AsmFault>> {
    let first = statements(alloc, cell);
    if !matches!(&first, Err(AsmFault::OutOfMemory)) {
        return Ok(first);
    }
    drop(first);
    tell_want(rt, "statements")?;
    Ok(statements(alloc, cell))
}

fn build_cell(
    rt: &impl Print,
    alloc: Global,
    all: &Statements,
    kept: &Symbols,
) -> Result<Result<Built, AsmFault>> {
    let first = build(alloc, all, kept);
    if !matches!(&first, Err(AsmFault::OutOfMemory)) {
        return Ok(first);
    }
    drop(first);
    tell_want(rt, "build")?;
    Ok(build(alloc, all, kept))
}

// What a cell gives over the symbols that were kept.
fn assemble(
    rt: &impl Print,
    alloc: Global,
    cell: &str,
    kept: &Symbols,
) -> Result<Result<Built, AsmFault>> {
    match read(rt, alloc, cell)? {
        Ok(all) => {
            let built = build_cell(rt, alloc, &all, kept);
            drop(all);
            built
        }
        Err(fault) => Ok(Err(fault)),
    }
}

fn kind_name(kind: SymbolKind) -> &'static str {
    match kind {
        SymbolKind::Label => "Label",
        SymbolKind::Equ => "Equ",
        SymbolKind::Set => "Set",
    }
}

fn tell_symbols(rt: &impl Print, symbols: &Symbols) -> Result<()> {
    for index in 0..symbols.len() {
        if let Some((name, symbol)) = symbols.at(index) {
            println!(rt; "{name} {:04X} {}", symbol.value, kind_name(symbol.kind))?;
        }
    }
    Ok(())
}

fn tell_image(rt: &impl Print, built: &Built) -> Result<()> {
    for (address, byte) in built.image.as_slice() {
        print!(rt; "{address:04X}:{byte:02X} ")?;
    }
    println!(rt; "start {:?}", built.start)?;
    Ok(())
}

fn tell_rows(rt: &impl Print, built: &Built) -> Result<()> {
    for row in built.rows.as_slice() {
        print!(rt; "{}@{:04X}+{} ", row.line, row.address, row.length)?;
    }
    println!(rt)?;
    Ok(())
}

fn bytes_of(alloc: Global, image: &[(u16, u8)]) -> Result<Vec<u8>, AllocError> {
    image.iter().map(|(_, byte)| *byte).collect(alloc)
}

// The listing of bytes from an address on.
fn tell_listing(rt: &impl Print, alloc: Global, origin: u16, bytes: &[u8]) -> Result<()> {
    if bytes.len() > 65_536 - origin as usize {
        return fail("the image passes the end");
    }
    let text = again!(rt, "listing", listing(alloc, origin, bytes));
    let told = rt.print(text.as_str());
    drop(text);
    Ok(told?)
}

// The listing of an image's bytes, from its first address on.
fn tell_bytes(rt: &impl Print, alloc: Global, image: &[(u16, u8)]) -> Result<()> {
    let origin = match image.first() {
        Some((address, _)) => *address,
        None => 0,
    };
    let bytes = again!(rt, "the image's bytes", bytes_of(alloc, image));
    let told = tell_listing(rt, alloc, origin, bytes.as_slice());
    drop(bytes);
    told
}

fn tell_built(rt: &impl Print, alloc: Global, built: &Built) -> Result<()> {
    tell_image(rt, built)?;
    tell_rows(rt, built)?;
    tell_symbols(rt, &built.symbols)?;
    tell_bytes(rt, alloc, built.image.as_slice())
}

// Tells what a cell gives, and lets its symbols be the kept ones.
fn tell_cell(rt: &impl Print, alloc: Global, cell: &str, kept: &mut Symbols) -> Result<()> {
    match assemble(rt, alloc, cell, kept)? {
        Ok(mut built) => {
            let told = tell_built(rt, alloc, &built);
            mem::swap(kept, &mut built.symbols);
            drop(built);
            told
        }
        Err(fault) => {
            rt.println(fault)?;
            Ok(())
        }
    }
}

// The cells, and then one of 300 symbols, over which one more is read.
fn tell_cells(rt: &impl Print, alloc: Global, kept: &mut Symbols) -> Result<()> {
    for cell in CELLS {
        tell_cell(rt, alloc, cell, kept)?;
    }
    let many = again!(rt, "a text", symbols(alloc, "S"));
    let told = tell_cell(rt, alloc, many.as_str(), kept);
    drop(many);
    told?;
    tell_cell(rt, alloc, "DW S0,S299\nS300: HLT", kept)
}

/// The run.
pub fn run(rt: &impl Print, alloc: Global) -> Result<()> {
    let mut kept = Symbols::new(alloc);
    let told = tell_cells(rt, alloc, &mut kept);
    drop(kept);
    told
}
