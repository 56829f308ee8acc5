//! The layout round: the place of each statement, and the names that the cell defines.
ghost use Rattle.std.specs.Prelude.{◌≡◌, ◌≤◌, ◌<◌, ◌+◌, ◌++◌, ◌∷◌, ℕ, List, [], false, None};
ghost use Rattle.std.specs.Prelude.{option_copied, length, IfOk, OnOk, ◌||◌};
ghost use Rattle.std.specs.Option.{option_map_or};
ghost use Rattle.std.specs.List.{flat_map};
ghost use Rattle.asm_expr.specs.Tree.{names_of};
ghost use Rattle.asm_syntax.specs.Outcome.{Gives, LineGives, at_line};
ghost use Rattle.asm_build.specs.Statements.{on_action, is_end, definition_of, early_in, late_in};
ghost use Rattle.asm_build.specs.Statements.{names_in, names_in_datum, names_in_early};
ghost use Rattle.asm_build.specs.Statements.{operands_in_instruction};
ghost use Rattle.asm_encode.specs.Lengths.{length_of};
ghost use Rattle.asm_build.specs.Reading.{given_as, next_place, parts_around, parts_past};
ghost use Rattle.asm_build.specs.Reading.{is_selected, symbol_at};
ghost use Rattle.asm_build.specs.Meaning.{definitions};
ghost use Rattle.asm_build.specs.Layout.{is_among, Adds, Notes, needs, uses, check_first, check_defined};
ghost use Rattle.asm_build.specs.Layout.{check_definition, early, within, lay_statement, laid_out, layout};
ghost use Rattle.asm_build.specs.State.{past_in, past_of, lines_of, with_line_definition};
ghost use Rattle.asm_build.specs.State.{LaysOutNext, IsLayoutAfter};

use crate::faults::{at, on_line};
use crate::laid::Laid;
use crate::look_up::EarlyNames;
use crate::name_set::NameSet;
use crate::parts::Parts;
use crate::statements::{definition_of, early_operand};
use crate::symbols::{Symbol, SymbolKind, Symbols};
use asm_encode::length::length_of;
use asm_encode::operand::number_or;
use asm_syntax::fault::{AsmFault, FaultKind, LineFault};
use asm_syntax::statement::{
    Action, Data, Instruction, Label, MOST_LINES, Operand, Operation, Statement,
};
use i80_base::memory::MEMORY_SIZE;
use std::alloc::{AllocError, Global};

/// What is known after the lines so far.
pub(crate) struct Layout<'a> {
    /// The cell's own symbols.
    pub(crate) own: Symbols,
    /// Where each line is laid out.
    pub(crate) rows: Vec<Laid>,
    /// The names in operands that the layout depends on.
    pub(crate) needed: NameSet<'a>,
    /// The names in other operands.
    pub(crate) used: NameSet<'a>,
    pub(crate) parts: Parts,
    pub(crate) place: u32,
    pub(crate) has_ended: bool,
}

// One function for all places where a layout is dropped.
impl Drop for Layout<'_> {
    fn drop(self) {
        let Self {
            own: _,
            rows: _,
            needed: _,
            used: _,
            parts: _,
            place: _,
            has_ended: _,
        } = self;
    }
}

// Whether the name is in the operand, if there is one.
fn is_in(alloc: Global, name: &str, operand: Option<&Operand>) -> Result<bool, AllocError>
    ensures { IfOk result
        (λ b. b ≡ is_among name.now (names_in_early (option_copied operand.entry))) }
{
    let Some(operand) = operand else {
        return Ok(false);
    };
    let mut names = NameSet::new(alloc);
    names.insert_all(alloc, &operand.expr)?;
    Ok(names.contains(name))
}

// The value of the operand that the layout depends on, 0 if there is none.
fn early(names: EarlyNames<'_>, here: u16, operand: Option<&Operand>) -> Result<u16, LineFault>
    ensures { LineGives (λ v. v) result
        (early (past_in names.entry.kept.now names.entry.own.now [] []) here
        (option_copied operand.entry)) }
{
    let Some(operand) = operand else {
        return Ok(0);
    };
    number_or(&names, here, operand, FaultKind::Early)
}

// Fails if the statement's bytes would pass 0FFFFH.
fn within(place: u32, value: u16, operation: &Option<Operation>) -> Result<(), LineFault>
    requires { place ≤ 65536 }
    ensures exact { LineGives (λ _. tt) result (within place value operation.now) }
    ensures small { OnOk result
        (option_map_or (λ o. place + length_of o.action value) operation.now place ≤ 65536) }
{
    match operation {
        None => Ok(()),
        Some(operation) => {
            let room = MEMORY_SIZE - place as usize;
            if length_of(&operation.action, value) > room {
                return Err(at(operation.column, FaultKind::PastEnd));
            }
            Ok(())
        }
    }
}

// The symbol that a statement defines if it is laid out here.
pub(crate) fn given_as(kind: SymbolKind, row: Laid) -> Symbol
    ensures { result ≡ given_as kind row }
{
    let value = match kind {
        SymbolKind::Label => (row.place % 65_536) as u16,
        SymbolKind::Equ => row.value,
        SymbolKind::Set => row.value,
    };
    Symbol { value, kind }
}

// Adds the symbol of a statement, if it is assembled and defines one.
fn define(
    alloc: Global,
    own: &mut Symbols,
    statement: &Statement,
    row: Laid,
) -> Result<(), AllocError>
    ensures { OnOk result (own.new ≡ with_line_definition own.old statement.now row) }
{
    if !row.is_assembled {
        return Ok(());
    }
    let Some((label, kind)) = definition_of(statement) else {
        return Ok(());
    };
    own.define(alloc, label.name.as_str(), given_as(kind, row))
}

// What has names in it: an operand of DW or DB.
trait Naming {
    // Its names.
    ghost names: { Self → List (List ℕ) };

    // Adds them to the names.
    fn note<'a>(&'a self, alloc: Global, used: &mut NameSet<'a>) -> Result<(), AllocError>
        ensures { OnOk result (Notes (names self.now) used.old used.new) };
}

impl Naming for Operand {
    ghost names = { λ o. names_of o.expr };

    fn note<'a>(&'a self, alloc: Global, used: &mut NameSet<'a>) -> Result<(), AllocError> {
        used.insert_all(alloc, &self.expr)
    }
}

impl Naming for Data {
    ghost names = { names_in_datum };

    fn note<'a>(&'a self, alloc: Global, used: &mut NameSet<'a>) -> Result<(), AllocError> {
        match self {
            Data::Text(_) => Ok(()),
            Data::Byte(operand) => operand.note(alloc, used),
        }
    }
}

// Adds the names in each of the operands.
fn note_all<'a, T: Naming>(
    alloc: Global,
    used: &mut NameSet<'a>,
    operands: &'a [T],
) -> Result<(), AllocError>
    ensures { OnOk result (Notes (flat_map T.names operands.now) used.old used.new) }
{
    for operand in operands {
        operand.note(alloc, used)?;
    }
    Ok(())
}

fn note_instruction<'a>(
    alloc: Global,
    used: &mut NameSet<'a>,
    instruction: &'a Instruction,
) -> Result<(), AllocError>
    ensures { OnOk result
        (Notes (names_in (operands_in_instruction instruction.now)) used.old used.new) }
{
    match instruction {
        Instruction::Alone(_) => Ok(()),
        Instruction::Byte(_, operand) => operand.note(alloc, used),
        Instruction::Word(_, operand) => operand.note(alloc, used),
        Instruction::Restart(operand) => operand.note(alloc, used),
    }
}

fn note_late<'a>(
    alloc: Global,
    used: &mut NameSet<'a>,
    action: &'a Action,
) -> Result<(), AllocError>
    ensures { OnOk result (Notes (names_in (late_in action.now)) used.old used.new) }
{
    match action {
        Action::Instruction(instruction) => note_instruction(alloc, used, instruction),
        Action::Bytes(items) => note_all(alloc, used, items.as_slice()),
        Action::Words(operands) => note_all(alloc, used, operands.as_slice()),
        Action::End(Some(operand)) => operand.note(alloc, used),
        _ => Ok(()),
    }
}

// Adds the names in a statement to one of the sets, if it is assembled.
fn note_names<'a>(
    alloc: Global,
    needed: &mut NameSet<'a>,
    used: &mut NameSet<'a>,
    statement: &'a Statement,
    row: Laid,
) -> Result<(), AllocError>
    ensures needed { OnOk result (Adds (needs (statement.now, row)) needed.old needed.new) }
    ensures used { OnOk result (Adds (uses (statement.now, row)) used.old used.new) }
{
    if !row.is_assembled {
        return Ok(());
    }
    if let Some(operand) = early_operand(statement) {
        return needed.insert_all(alloc, &operand.expr);
    }
    match &statement.operation {
        None => Ok(()),
        Some(operation) => note_late(alloc, used, &operation.action),
    }
}

// Enters, switches or leaves an IF.
fn update_parts(parts: &mut Parts, statement: &Statement, value: u16) -> Result<(), AllocError>
    ensures { OnOk result
        (parts.new ≡ on_action (parts_past parts.old value) parts.old statement.now) }
{
    let Some(operation) = &statement.operation else {
        return Ok(());
    };
    match &operation.action {
        Action::If(_) => parts.open(value != 0),
        Action::Else => {
            parts.switch();
            Ok(())
        }
        Action::EndIf => {
            parts.close();
            Ok(())
        }
        _ => Ok(()),
    }
}

fn is_end(statement: &Statement) -> bool
    ensures { result ≡ on_action is_end false statement.now }
{
    match &statement.operation {
        None => false,
        Some(operation) => match &operation.action {
            Action::End(_) => true,
            _ => false,
        },
    }
}

// The place after a statement.
fn next_place(statement: &Statement, row: Laid) -> u32
    requires { next_place (statement.now, row) ≤ 65536 }
    ensures { result ≡ next_place (statement.now, row) }
{
    if !row.is_assembled {
        return row.place;
    }
    match &statement.operation {
        None => row.place,
        Some(operation) => match &operation.action {
            Action::Origin(_) => u32::from(row.value),
            action => row.place + length_of(action, row.value) as u32,
        },
    }
}

impl<'a> Layout<'a> {
    fn new(alloc: Global) -> Self
        ensures rows { result.rows.items ≡ [] }
        ensures represents { IsLayoutAfter [] result }
    {
        Layout {
            own: Symbols::new(alloc),
            rows: Vec::new(alloc),
            needed: NameSet::new(alloc),
            used: NameSet::new(alloc),
            parts: Parts::new(alloc),
            place: 0,
            has_ended: false,
        }
    }

    // Whether the IFs around a statement select it, and the cell hasn't ended.
    fn is_selected(&self, statement: &Statement) -> bool
        ensures { result ≡ is_selected self.now.has_ended self.now.parts statement.now }
    {
        if self.has_ended {
            return false;
        }
        match &statement.operation {
            None => self.parts.all(),
            Some(operation) => match &operation.action {
                Action::Else => self.parts.all_outer(),
                Action::EndIf => self.parts.all_outer(),
                _ => self.parts.all(),
            },
        }
    }

    // Fails if a name's first definition in the cell comes after a use that needed it.
    fn check_first(
        &self,
        alloc: Global,
        kept: &Symbols,
        operand: Option<&Operand>,
        label: &Label,
        kind: SymbolKind,
    ) -> Result<(), LineFault>
        ensures { LineGives (λ _. tt) result
            (check_first (past_of kept.now self.now) (option_copied operand.entry)
            (label.now, kind)) }
    {
        let name = label.name.as_str();
        let itself = is_in(alloc, name, operand)?;
        let is_needed = self.needed.contains(name);
        if kept.get(name).is_some() && (is_needed || itself) {
            return Err(at(label.column, FaultKind::Early));
        }
        if kind.is_set() && (is_needed || self.used.contains(name)) {
            return Err(at(label.column, FaultKind::Early));
        }
        Ok(())
    }

    fn check_definition(
        &self,
        alloc: Global,
        kept: &Symbols,
        operand: Option<&Operand>,
        statement: &Statement,
    ) -> Result<(), LineFault>
        ensures { LineGives (λ _. tt) result
            (check_definition (past_of kept.now self.now) (option_copied operand.entry)
            (definition_of statement.now)) }
    {
        let Some((label, kind)) = definition_of(statement) else {
            return Ok(());
        };
        let Some(was) = self.own.get(label.name.as_str()) else {
            return self.check_first(alloc, kept, operand, label, kind);
        };
        if was.kind.is_set() && kind.is_set() {
            return Ok(());
        }
        Err(at(label.column, FaultKind::Twice))
    }

    // Where the next statement is laid out, if it is assembled.
    fn lay_out_assembled(
        &self,
        alloc: Global,
        kept: &Symbols,
        statement: &Statement,
    ) -> Result<Laid, LineFault>
        requires { self.now.place ≤ 65536 }
        ensures exact { LineGives (λ r. r) result
            (lay_statement (past_of kept.now self.now) self.now.place statement.now) }
        ensures small { IfOk result (λ r. next_place (statement.now, r) ≤ 65536) }
    {
        let operand = early_operand(statement);
        self.check_definition(alloc, kept, operand, statement)?;
        let names = EarlyNames {
            own: &self.own,
            kept,
        };
        let value = early(names, (self.place % 65_536) as u16, operand)?;
        within(self.place, value, &statement.operation)?;
        Ok(Laid {
            place: self.place,
            is_assembled: true,
            value,
        })
    }

    // Where the next statement is laid out.
    fn lay_out(
        &self,
        alloc: Global,
        kept: &Symbols,
        statement: &Statement,
    ) -> Result<Laid, LineFault>
        requires { self.now.place ≤ 65536 }
        ensures small { IfOk result (λ r. next_place (statement.now, r) ≤ 65536) }
        ensures exact { LineGives (λ r. r) result
            (laid_out (past_of kept.now self.now) self.now.place
            (is_selected self.now.has_ended self.now.parts statement.now) statement.now) }
    {
        if self.is_selected(statement) {
            return self.lay_out_assembled(alloc, kept, statement);
        }
        Ok(Laid {
            place: self.place,
            is_assembled: false,
            value: 0,
        })
    }

    // Takes the next statement, which is laid out here.
    fn advance(
        &mut self,
        alloc: Global,
        statement: &'a Statement,
        row: Laid,
    ) -> Result<(), AllocError>
        requires { next_place (statement.now, row) ≤ 65536 }
        ensures { OnOk result (LaysOutNext self.old self.new statement.now row) }
    {
        define(alloc, &mut self.own, statement, row)?;
        note_names(alloc, &mut self.needed, &mut self.used, statement, row)?;
        update_parts(&mut self.parts, statement, row.value)?;
        self.rows.push(row)?;
        self.has_ended = is_end(statement) || self.has_ended;
        self.place = next_place(statement, row);
        Ok(())
    }

    // Lays out the next statement, on this line.
    fn lay(
        &mut self,
        alloc: Global,
        kept: &Symbols,
        line: usize,
        statement: &'a Statement,
    ) -> Result<Laid, AsmFault>
        requires { self.old.place ≤ 65536 }
        ensures exact { Gives (λ r. r) result (at_line line
            (laid_out (past_of kept.now self.old) self.old.place
            (is_selected self.old.has_ended self.old.parts statement.now) statement.now)) }
        ensures advances { IfOk result (λ r. LaysOutNext self.old self.new statement.now r) }
        ensures small { OnOk result (self.new.place ≤ 65536) }
    {
        match self.lay_out(alloc, kept, statement) {
            Ok(row) => {
                self.advance(alloc, statement, row)?;
                Ok(row)
            }
            Err(fault) => Err(on_line(line, fault)),
        }
    }

    // Lays out statements in turn, from the first line on.
    fn lay_all(
        &mut self,
        alloc: Global,
        kept: &Symbols,
        statements: &'a [Statement],
    ) -> Result<(), AsmFault>
        requires few { length statements.now ≤ MOST_LINES }
        requires rows { self.old.rows.items ≡ [] }
        requires represents { IsLayoutAfter [] self.old }
        ensures exact { Gives (λ _. lines_of [] statements.now self.new.rows.items) result
            (layout kept.now [] statements.now) }
        ensures own { OnOk result
            (self.new.own ≡ definitions (lines_of [] statements.now self.new.rows.items)) }
        ensures rows { OnOk result (length self.new.rows.items ≡ length statements.now) }
    {
        for (i, statement) in statements.iter().enumerate() {
            let _ = self.lay(alloc, kept, i + 1, statement)?;
        }
        Ok(())
    }
}

/// Lays out the statements of a cell, or returns the first fault of its layout.
pub(crate) fn lay_out<'a>(
    alloc: Global,
    kept: &Symbols,
    statements: &'a [Statement],
) -> Result<Layout<'a>, AsmFault>
    requires { length statements.now ≤ MOST_LINES }
    ensures exact { Gives (λ l. lines_of [] statements.now l.rows.items) result
        (layout kept.now [] statements.now) }
    ensures own { IfOk result (λ l. l.own ≡ definitions (lines_of [] statements.now l.rows.items)) }
    ensures rows { IfOk result (λ l. length l.rows.items ≡ length statements.now) }
{
    let mut state = Layout::new(alloc);
    state.lay_all(alloc, kept, statements)?;
    Ok(state)
}
