//! Statements: what lines say.
ghost use Rattle.std.specs.Prelude.{◌≡◌, ◌≤◌, ◌<◌, ◌++◌, ◌∷◌, [], length, OnOk, OnErr};

use asm_expr::expression::Expr;
use asm_expr::name::Name;
use base_text::sequence::Sequence;
use i80_base::instruction::{ByteOperation, Instr, WordOperation};
use std::alloc::{AllocError, Global};
use std::marker::Model;

/// The most lines of a cell.
pub const MOST_LINES: usize = 65_537;

/// An expression and the column, from 1, of its first character.
#[derive(Drop)]
pub struct Operand {
    pub column: usize,
    pub expr: Expr,
}

/// A name that a statement defines, and its column.
#[derive(Drop)]
pub struct Label {
    pub column: usize,
    pub name: Name,
}

/// An instruction, with the expression of its operand if it has one.
#[derive(Drop)]
pub enum Instruction {
    /// One byte, without an expression.
    Alone(Instr),
    Byte(ByteOperation, Operand),
    Word(WordOperation, Operand),
    /// RST.
    Restart(Operand),
}

/// An operand of DB.
#[derive(Drop)]
pub enum Data {
    /// The bytes of a string that is a whole operand, from 1 to 128.
    Text(Sequence<u8>),
    Byte(Operand),
}

/// What a statement does.
#[derive(Drop)]
pub enum Action {
    Instruction(Instruction),
    /// DB.
    Bytes(Sequence<Data>),
    /// DW.
    Words(Sequence<Operand>),
    /// DS.
    Space(Operand),
    /// ORG.
    Origin(Operand),
    /// EQU.
    Equate(Label, Operand),
    /// SET.
    Set(Label, Operand),
    If(Operand),
    Else,
    EndIf,
    End(Option<Operand>),
}

/// An action and the column of its word.
#[derive(Drop)]
pub struct Operation {
    pub column: usize,
    pub action: Action,
}

/// What a line says.
#[derive(Drop)]
pub struct Statement {
    pub label: Option<Label>,
    pub operation: Option<Operation>,
}

/// The statements of a cell, one for each line up to the one with END.
pub struct Statements {
    lines: Vec<Statement>,
}

// One function for all places where statements are dropped, here and in the crates above.
impl Drop for Statements {
    fn drop(self) {
        let Self { lines: _ } = self;
    }
}

impl Model for Statements {
    ghost use Rattle.std.specs.Prelude.{List, length, ◌≤◌};
    ghost use Rattle.asm_syntax.specs.declared.statement.Statement.{Statement};
    ghost use Rattle.asm_syntax.specs.declared.statement.TheConstants.{MOST_LINES};
    ghost use Rattle.std.specs.Coded.{codes};
    ghost use Rattle.asm_expr.specs.contracts.expression.Expr as expr;

    ghost Value = { List Statement };

    ghost coded = { Prim.hlevel (codes, expr.the_row.coded) };

    ghost view = { λ s. s.lines.items };

    ghost invariant = { λ s. length s.lines.items ≤ MOST_LINES };
}

impl Statements {
    /// No statements.
    pub fn new(alloc: Global) -> Statements
        ensures { result ≡ [] }
    {
        Statements {
            lines: Vec::new(alloc),
        }
    }

    /// Adds the statement of the next line.
    pub fn push(&mut self, statement: Statement) -> Result<(), AllocError>
        requires { length self.old < MOST_LINES }
        ensures ok { OnOk result (self.new ≡ self.old ++ statement ∷ []) }
        ensures err { OnErr result (self.new ≡ self.old) }
    {
        self.lines.push(statement)?;
        Ok(())
    }

    /// The statements.
    pub fn as_slice(&self) -> &[Statement]
        ensures items { result.now ≡ self.now }
        ensures within { length result.now ≤ MOST_LINES }
    {
        self.lines.as_slice()
    }
}
