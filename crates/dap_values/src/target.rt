//! The places that expressions name.
ghost use Rattle.std.specs.Prelude.{◌≡◌, ◌≤◌, IfOk, option_map};
ghost use Rattle.lab_core.specs.Board.{Board};
ghost use Rattle.lab_core.specs.Labs.{RepresentsBoard};
ghost use Rattle.dap_values.specs.Targets as targets;
ghost use Rattle.dap_values.specs.Targets.{target_on, value_at, size_of, largest};

use asm_expr::evaluation::ExprFault;
use asm_expr::expression::Expr;
use asm_syntax::keyword::RegisterWord;
use dap_expr::brackets::{Read, Width};
use dap_expr::clause::{Clause, Sense};
use dap_expr::expression::Expression;
use dap_expr::part::{Part, hl, part_named, part_owning, part_value};
use dap_expr::term::Term;
use dap_expr::value::{read_values, tree_value, word_at};
use lab_core::lab::Lab;
use std::alloc::{AllocError, Global};

/// A place that an expression names.
#[derive(Clone, Copy)]
pub enum Target {
    Part(Part),
    Byte(u16),
    /// Low byte first. Addresses wrap.
    Word(u16),
}

/// How much a place holds.
#[derive(Clone, Copy)]
pub enum Size {
    Flag,
    Byte,
    Word,
}

// ---- the place

/// The name that a tree is, if it is one.
#[tactic(auto, using(crate::proofs::TargetLemmas::alone_first, crate::proofs::TargetLemmas::deeper))]
fn name_alone<'a>(alloc: Global, tree: &'a Expr) -> Result<Option<&'a str>, AllocError>
    ensures { IfOk result (λ name. option_map (λ n. n.now) name ≡ targets.name_alone tree.now) }
{
    if tree.depth() != 1 {
        return Ok(None);
    }
    let names = tree.names(alloc)?;
    match names.first() {
        Some(name) => Ok(Some(name.as_str())),
        None => Ok(None),
    }
}

fn at_address(width: Width, address: Result<u16, ExprFault>) -> Option<Target>
    ensures { result ≡ targets.at_address width address }
{
    match (width, address) {
        (Width::Byte, Ok(address)) => Some(Target::Byte(address)),
        (Width::Word, Ok(address)) => Some(Target::Word(address)),
        (_, Err(_)) => None,
    }
}

/// The value of a read's address after the reads before it.
fn address_after(lab: &Lab, before: &[Read], read: &Read) -> Result<u16, ExprFault>
    ensures { (b : Board) → RepresentsBoard lab.now b
        → result ≡ targets.address_after b before.now read.now }
{
    let values = read_values(lab, before)?;
    tree_value(lab, &values, &read.address)
}

/// The place of the read with this number, if it is the last one.
fn last_read(lab: &Lab, reads: &[Read], number: u8) -> Option<Target>
    ensures { (b : Board) → RepresentsBoard lab.now b → result ≡ targets.last_read b reads.now number }
{
    let index = usize::from(number);
    if reads.len() != index + 1 {
        return None;
    }
    let before = reads.split_at(index).0;
    let read = &reads[index];
    at_address(read.width, address_after(lab, before, read))
}

/// The number of the read that a name stands for.
fn read_number(name: &[u8]) -> Option<u8>
    ensures { result ≡ targets.read_number name.now }
{
    match name {
        [number] if *number < 16 => Some(*number),
        _ => None,
    }
}

/// The part that a name stands for.
fn part_on(lab: &Lab, name: &str) -> Option<Part>
    ensures { (b : Board) → RepresentsBoard lab.now b → result ≡ targets.part_on b name.now }
{
    if let Some(part) = part_owning(name.as_bytes()) {
        return Some(part);
    }
    match lab.symbols().get(name) {
        Some(_) => None,
        None => part_named(name.as_bytes()),
    }
}

/// The part that a name stands for where nothing is read.
fn part_target(lab: &Lab, reads: &[Read], name: &str) -> Option<Target>
    ensures { (b : Board) → RepresentsBoard lab.now b
        → result ≡ targets.part_target b reads.now name.now }
{
    if !reads.is_empty() {
        return None;
    }
    match part_on(lab, name) {
        Some(part) => Some(Target::Part(part)),
        None => None,
    }
}

fn named_target(lab: &Lab, reads: &[Read], name: &str) -> Option<Target>
    ensures { (b : Board) → RepresentsBoard lab.now b
        → result ≡ targets.named_target b reads.now name.now }
{
    match read_number(name.as_bytes()) {
        Some(number) => last_read(lab, reads, number),
        None => part_target(lab, reads, name),
    }
}

fn term_target(alloc: Global, lab: &Lab, term: &Term) -> Result<Option<Target>, AllocError>
    ensures { (b : Board) → RepresentsBoard lab.now b
        → IfOk result (λ found. found ≡ targets.term_target b term.now) }
{
    match name_alone(alloc, &term.tree)? {
        Some(name) => Ok(named_target(lab, term.reads.as_slice(), name)),
        None => Ok(None),
    }
}

fn clause_target(alloc: Global, lab: &Lab, clause: &Clause) -> Result<Option<Target>, AllocError>
    ensures { (b : Board) → RepresentsBoard lab.now b
        → IfOk result (λ found. found ≡ targets.clause_target b clause.now) }
{
    match clause.sense {
        Sense::Plain => term_target(alloc, lab, &clause.term),
        Sense::Truth | Sense::Not => Ok(None),
    }
}

/// The place that an expression is: a part's name, `[e]` or `word[e]` alone. A symbol is none, and neither is
/// what an address without a value would read.
pub fn target_of(
    alloc: Global,
    lab: &Lab,
    expression: &Expression,
) -> Result<Option<Target>, AllocError>
    ensures { (b : Board) → RepresentsBoard lab.now b
        → IfOk result (λ found. found ≡ target_on b expression.now) }
{
    match expression.clauses.as_slice() {
        [clause] => clause_target(alloc, lab, clause),
        _ => Ok(None),
    }
}

// ---- what it holds

fn part_size(part: Part) -> Size
    ensures { result ≡ targets.part_size part }
{
    match part {
        Part::Register(RegisterWord::Sp | RegisterWord::Psw) => Size::Word,
        Part::Register(_) => Size::Byte,
        Part::Bc | Part::De | Part::Hl | Part::Pc => Size::Word,
        _ => Size::Flag,
    }
}

impl Size {
    /// The largest value.
    pub fn largest(self) -> u16
        ensures { result ≡ largest self }
    {
        match self {
            Size::Flag => 1,
            Size::Byte => 255,
            Size::Word => 65535,
        }
    }
}

impl Target {
    pub fn size(self) -> Size
        ensures { result ≡ size_of self }
    {
        match self {
            Target::Part(part) => part_size(part),
            Target::Byte(_) => Size::Byte,
            Target::Word(_) => Size::Word,
        }
    }
}

/// What a place holds.
pub fn value_at(lab: &Lab, target: Target) -> u16
    ensures value { (b : Board) → RepresentsBoard lab.now b → result ≡ value_at b.machine target }
    ensures fits { result ≤ largest (size_of target) }
{
    match target {
        Target::Part(part) => part_value(lab.regs(), lab.peek(hl(lab.regs())), part),
        Target::Byte(address) => u16::from(lab.peek(address)),
        Target::Word(address) => word_at(lab, address),
    }
}
