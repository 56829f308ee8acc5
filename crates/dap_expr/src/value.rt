//! The value of an expression on a board.
ghost use Rattle.std.specs.Prelude.{◌≡◌, false};
ghost use Rattle.i80_exec.specs.State.{word_at};
ghost use Rattle.lab_core.specs.Board.{Board};
ghost use Rattle.lab_core.specs.Labs.{RepresentsBoard};
ghost use Rattle.dap_expr.specs.Values as values;

use crate::brackets::{Read, Width};
use crate::clause::{Clause, Joint, Sense};
use crate::expression::Expression;
use crate::names::Names;
use crate::part::hl;
use crate::term::Term;
use asm_expr::evaluation::{ExprFault, value};
use asm_expr::expression::Expr;
use lab_core::lab::Lab;

/// The word at an address, low byte first.
pub fn word_at(lab: &Lab, address: u16) -> u16
    ensures { (b : Board) → RepresentsBoard lab.now b → result ≡ word_at b.machine address }
{
    let low = u16::from(lab.peek(address));
    let high = u16::from(lab.peek(address.wrapping_add(1)));
    high * 256 + low
}

pub fn read_at(lab: &Lab, width: Width, address: u16) -> u16
    ensures { (b : Board) → RepresentsBoard lab.now b → result ≡ values.read_at b.machine width address }
{
    match width {
        Width::Byte => u16::from(lab.peek(address)),
        Width::Word => word_at(lab, address),
    }
}

/// The value of a tree after these reads.
pub fn tree_value(lab: &Lab, reads: &[u16; 16], tree: &Expr) -> Result<u16, ExprFault>
    ensures { (b : Board) → RepresentsBoard lab.now b → result ≡ values.tree_value b reads.now tree.now }
{
    let names = Names {
        symbols: lab.symbols(),
        regs: lab.regs(),
        m: lab.peek(hl(lab.regs())),
        reads: *reads,
    };
    value(tree, &names, lab.regs().pc)
}

fn read_value(lab: &Lab, reads: &[u16; 16], read: &Read) -> Result<u16, ExprFault>
    ensures { (b : Board) → RepresentsBoard lab.now b → result ≡ values.read_value b reads.now read.now }
{
    let address = tree_value(lab, reads, &read.address)?;
    Ok(read_at(lab, read.width, address))
}

/// The values with that of one more read.
fn with_value(before: [u16; 16], number: usize, value: u16) -> [u16; 16]
    ensures { result ≡ values.with_value before number value }
{
    let mut values = before;
    if number < 16 {
        values[number] = value;
    }
    values
}

/// The values of reads.
#[tactic(auto, unfolding(crate::specs::Values::values_from))]
pub fn read_values(lab: &Lab, reads: &[Read]) -> Result<[u16; 16], ExprFault>
    ensures { (b : Board) → RepresentsBoard lab.now b → result ≡ values.read_values b reads.now }
{
    let mut values = [0; 16];
    for (number, read) in reads.iter().enumerate() {
        let value = read_value(lab, &values, read)?;
        values = with_value(values, number, value);
    }
    Ok(values)
}

fn term_value(lab: &Lab, term: &Term) -> Result<u16, ExprFault>
    ensures { (b : Board) → RepresentsBoard lab.now b → result ≡ values.term_value b term.now }
{
    let reads = read_values(lab, term.reads.as_slice())?;
    tree_value(lab, &reads, &term.tree)
}

fn in_sense(sense: Sense, value: u16) -> u16
    ensures { result ≡ values.in_sense sense value }
{
    match sense {
        Sense::Plain => value,
        Sense::Truth => u16::from(value != 0),
        Sense::Not => u16::from(value == 0),
    }
}

fn clause_value(lab: &Lab, clause: &Clause) -> Result<u16, ExprFault>
    ensures { (b : Board) → RepresentsBoard lab.now b → result ≡ values.clause_value b clause.now }
{
    let value = term_value(lab, &clause.term)?;
    Ok(in_sense(clause.sense, value))
}

/// Whether a part is true with those before it in its alternative, where `holds` says whether they are.
fn holds_after(lab: &Lab, holds: bool, clause: &Clause) -> Result<bool, ExprFault>
    ensures { (b : Board) → RepresentsBoard lab.now b → result ≡ values.holds_after b holds clause.now }
{
    if clause.joint == Joint::And && !holds {
        return Ok(false);
    }
    let value = clause_value(lab, clause)?;
    Ok(value != 0)
}

/// Whether a condition is true. Alternatives after the first true one have no part in it.
#[tactic(auto, unfolding(crate::specs::Values::holds_from))]
fn holds(lab: &Lab, clauses: &[Clause]) -> Result<bool, ExprFault>
    ensures { (b : Board) → RepresentsBoard lab.now b → result ≡ values.holds_from b false clauses.now }
{
    let mut holds = false;
    for clause in clauses {
        if holds && clause.joint == Joint::Or {
            return Ok(true);
        }
        holds = holds_after(lab, holds, clause)?;
    }
    Ok(holds)
}

fn clauses_value(lab: &Lab, clauses: &[Clause]) -> Result<u16, ExprFault>
    ensures { (b : Board) → RepresentsBoard lab.now b → result ≡ values.clauses_value b clauses.now }
{
    match clauses {
        [clause] => clause_value(lab, clause),
        _ => {
            let holds = holds(lab, clauses)?;
            Ok(u16::from(holds))
        }
    }
}

impl Expression {
    /// The value on a board.
    pub fn value(&self, lab: &Lab) -> Result<u16, ExprFault>
        ensures { (b : Board) → RepresentsBoard lab.now b → result ≡ values.value_on b self.now }
    {
        clauses_value(lab, self.clauses.as_slice())
    }
}
