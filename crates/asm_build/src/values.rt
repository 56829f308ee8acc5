//! The value round: the bytes, their lines and the start.
ghost use Rattle.std.specs.Prelude.{◌≡◌, ℕ, List, [], Some, None, IfOk, OnOk};
ghost use Rattle.asm_syntax.specs.Outcome.{Gives, LineGives, at_line};
ghost use Rattle.asm_build.specs.Reading.{symbol_at, or_else, only_set, defined_on};
ghost use Rattle.asm_build.specs.Meaning.{put_bytes, with_operation, with_line, output_of};
ghost use Rattle.asm_build.specs.State.{lines_of, late_in, output_in, IsLaidOut};

use crate::built::Row;
use crate::faults::{at, on_line};
use crate::image::Image;
use crate::laid::Laid;
use crate::layout::{Layout, given_as};
use crate::look_up::LateNames;
use crate::statements::definition_of;
use crate::symbols::Symbols;
use asm_encode::bytes::{bytes_of, start_of};
use asm_syntax::fault::{AsmFault, FaultKind, LineFault};
use asm_syntax::statement::{Operation, Statement};
use std::alloc::{AllocError, Global};

/// The output of the lines so far.
#[derive(Drop)]
pub(crate) struct Values {
    pub(crate) image: Image,
    pub(crate) rows: Vec<Row>,
    pub(crate) start: Option<u16>,
}

/// A cell that is laid out, and the kept symbols.
#[derive(Clone, Copy)]
struct LaidCell<'a> {
    kept: &'a Symbols,
    layout: &'a Layout<'a>,
    statements: &'a [Statement],
}

/// A line of a cell: its number, from 1, its statement, and how that is laid out.
#[derive(Clone, Copy)]
struct LaidLine<'a> {
    number: usize,
    statement: &'a Statement,
    row: Laid,
}

/// The line of an operation, and the address of its first byte.
#[derive(Clone, Copy)]
struct Place {
    line: usize,
    address: u16,
}

// Adds the symbol of an assembled SET.
fn note_set(alloc: Global, sets: &mut Symbols, line: LaidLine<'_>) -> Result<(), AllocError>
    ensures { OnOk result ((x : List ℕ) → symbol_at sets.new x
        ≡ or_else (only_set (defined_on (line.entry.statement.now, line.entry.row) x))
        (symbol_at sets.old x)) }
{
    let row = line.row;
    if !row.is_assembled {
        return Ok(());
    }
    let Some((label, kind)) = definition_of(line.statement) else {
        return Ok(());
    };
    if !kind.is_set() {
        return Ok(());
    }
    sets.define(alloc, label.name.as_str(), given_as(kind, row))
}

impl Values {
    fn new(alloc: Global) -> Result<Values, AllocError>
        ensures { IfOk result (λ v. output_in v ≡ record { image = []; rows = []; start = None }) }
    {
        let image = Image::new(alloc)?;
        Ok(Values {
            image,
            rows: Vec::new(alloc),
            start: None,
        })
    }

    // Adds the bytes of the operation at a place and a column, after which the start is this.
    fn put(
        &mut self,
        place: Place,
        column: usize,
        bytes: &[u8],
        start: Option<u16>,
    ) -> Result<(), LineFault>
        ensures { LineGives (λ _. output_in self.new) result
            (put_bytes column (output_in self.old) place.line place.address bytes.now start) }
    {
        let Place { line, address } = place;
        if self.image.overlaps(address, bytes) {
            return Err(at(column, FaultKind::Overlap));
        }
        self.image.append(address, bytes)?;
        self.start = start;
        if bytes.is_empty() {
            return Ok(());
        }
        let length = bytes.len();
        self.rows.push(Row {
            address,
            length,
            line,
        })?;
        Ok(())
    }

    // Adds what the operation at a place gives.
    fn with_operation(
        &mut self,
        alloc: Global,
        names: LateNames<'_>,
        place: Place,
        operation: &Operation,
    ) -> Result<(), LineFault>
        ensures { LineGives (λ _. output_in self.new) result
            (with_operation (late_in names.entry.own.now names.entry.sets.now names.entry.kept.now)
            (output_in self.old) place.line place.address (Some operation.now)) }
    {
        let here = place.address;
        let bytes = bytes_of(alloc, &names, here, &operation.action)?;
        let outcome = match start_of(&names, here, self.start, &operation.action) {
            Ok(start) => self.put(place, operation.column, bytes.as_slice(), start),
            Err(fault) => Err(fault),
        };
        drop(bytes);
        outcome
    }

    // Adds what a line gives.
    fn with_line(
        &mut self,
        alloc: Global,
        names: LateNames<'_>,
        line: LaidLine<'_>,
    ) -> Result<(), AsmFault>
        ensures { Gives (λ _. output_in self.new) result (at_line line.entry.number
            (with_line (late_in names.entry.own.now names.entry.sets.now names.entry.kept.now)
            (output_in self.old) line.entry.number (line.entry.statement.now, line.entry.row))) }
    {
        if !line.row.is_assembled {
            return Ok(());
        }
        let Some(operation) = &line.statement.operation else {
            return Ok(());
        };
        let place = Place {
            line: line.number,
            address: (line.row.place % 65_536) as u16,
        };
        match self.with_operation(alloc, names, place, operation) {
            Ok(()) => Ok(()),
            Err(fault) => Err(on_line(line.number, fault)),
        }
    }

    // Adds what the lines of a cell give, each in turn, and their SETs.
    fn with_lines(
        &mut self,
        alloc: Global,
        cell: LaidCell<'_>,
        sets: &mut Symbols,
    ) -> Result<(), AsmFault>
        requires laid_out { IsLaidOut cell.layout.now cell.statements.now }
        requires none { output_in self.old ≡ record { image = []; rows = []; start = None } }
        requires sets { sets.old ≡ [] }
        ensures { let all = lines_of [] cell.entry.statements.now cell.entry.layout.now.rows.items in
            Gives (λ _. output_in self.new) result (output_of cell.entry.kept.now all all) }
    {
        let LaidCell {
            kept,
            layout,
            statements,
        } = cell;
        for (i, statement) in statements.iter().enumerate() {
            let row = layout.rows[i];
            let line = LaidLine {
                number: i + 1,
                statement,
                row,
            };
            let names = LateNames {
                own: &layout.own,
                sets,
                kept,
            };
            self.with_line(alloc, names, line)?;
            note_set(alloc, sets, line)?;
        }
        Ok(())
    }

    // Adds what the lines of a cell give, each in turn.
    fn with_cell(&mut self, alloc: Global, cell: LaidCell<'_>) -> Result<(), AsmFault>
        requires laid_out { IsLaidOut cell.layout.now cell.statements.now }
        requires none { output_in self.old ≡ record { image = []; rows = []; start = None } }
        ensures { let all = lines_of [] cell.entry.statements.now cell.entry.layout.now.rows.items in
            Gives (λ _. output_in self.new) result (output_of cell.entry.kept.now all all) }
    {
        let mut sets = Symbols::new(alloc);
        let outcome = self.with_lines(alloc, cell, &mut sets);
        drop(sets);
        outcome
    }
}

/// The output of a cell that is laid out, or the first fault in its values.
pub(crate) fn evaluate(
    alloc: Global,
    kept: &Symbols,
    layout: &Layout<'_>,
    statements: &[Statement],
) -> Result<Values, AsmFault>
    requires { IsLaidOut layout.now statements.now }
    ensures { let all = lines_of [] statements.now layout.now.rows.items in
        Gives output_in result (output_of kept.now all all) }
{
    let cell = LaidCell {
        kept,
        layout,
        statements,
    };
    let mut done = Values::new(alloc)?;
    match done.with_cell(alloc, cell) {
        Ok(()) => Ok(done),
        Err(fault) => Err(fault),
    }
}
