//! What an editor is told of data that it may watch.
ghost use Rattle.std.specs.Prelude.{◌≡◌, ◌++◌, IfOk, OnOk, string_bytes};
ghost use Rattle.lab_shown.specs.Scopes.{scope_with};
ghost use Rattle.lab_core.specs.Board.{Board};
ghost use Rattle.lab_core.specs.Labs.{RepresentsBoard};
ghost use Rattle.dap_expr.specs.Expressions.{expression_of};
ghost use Rattle.dap_breakpoints.specs.Info as info;
ghost use Rattle.dap_breakpoints.specs.Info.{QueryGives, fault_text, description_of, data_info};

use crate::place::{DataPlace, bytes_within, push_name, register_named};
use asm_expr::evaluation::ExprFault;
use asm_syntax::fault::{FaultKind, LineFault};
use base_text::hexadecimal::{push_word, read_word};
use base_text::text::Text;
use dap_expr::expression::Expression;
use dap_messages::message::DataInfo;
use dap_requests::request::DataQuery;
use lab_core::lab::Lab;
use lab_shown::scope::Scope;
use std::alloc::{AllocError, Global};

/// The greatest number of bytes that are watched together.
const MOST_BYTES: u32 = 16;

/// The reference of the scope that shows the stack.
const STACK: u32 = 6;

/// Why there is nothing to watch.
#[derive(Clone, Copy)]
enum QueryFault {
    OutOfMemory,
    ProgramCounter,
    /// A variable that is neither a register nor in memory.
    Elsewhere,
    /// A fault in an expression.
    Expression { column: usize, kind: FaultKind },
    NoValue(ExprFault),
    /// No bytes, or too many.
    Count,
    /// Bytes beyond the last address.
    PastEnd,
}

// ---- bytes at an address

fn bytes_at(count: u32, address: u16) -> Result<DataPlace, QueryFault>
    ensures { result ≡ info.bytes_at count address }
{
    if count < 1 || MOST_BYTES < count {
        return Err(QueryFault::Count);
    }
    match bytes_within(address, count as u16) {
        None => Err(QueryFault::PastEnd),
        Some(bytes) => Ok(bytes),
    }
}

// ---- by a name in a scope

fn register_at(name: &str) -> Option<Result<DataPlace, QueryFault>>
    ensures { result ≡ info.register_at name.now }
{
    if name == "PC" {
        return Some(Err(QueryFault::ProgramCounter));
    }
    match register_named(name) {
        None => None,
        Some(register) => Some(Ok(register)),
    }
}

fn word_at(count: u32, name: &str) -> Option<Result<DataPlace, QueryFault>>
    ensures { result ≡ info.word_at count name.now }
{
    match read_word(name.as_bytes()) {
        None => None,
        Some(address) => Some(bytes_at(count, address)),
    }
}

fn register_of_scope(name: &str) -> Result<DataPlace, QueryFault>
    ensures { result ≡ info.register_of_scope name.now }
{
    match register_at(name) {
        None => Err(QueryFault::Elsewhere),
        Some(found) => found,
    }
}

fn in_scope(scope: Option<Scope>, query: &DataQuery) -> Option<Result<DataPlace, QueryFault>>
    ensures { result ≡ info.in_scope scope query.now }
{
    match scope {
        Some(Scope::Registers) => Some(register_of_scope(query.name.as_str())),
        Some(Scope::Memory) => word_at(query.count, query.name.as_str()),
        Some(Scope::Symbols) => None,
        _ => Some(Err(QueryFault::Elsewhere)),
    }
}

// By its name alone, unless it is an expression.
fn by_name(query: &DataQuery) -> Option<Result<DataPlace, QueryFault>>
    ensures { result ≡ info.by_name query.now }
{
    if query.is_address {
        None
    } else if query.scope == 0 {
        register_at(query.name.as_str())
    } else if query.scope == STACK {
        word_at(2, query.name.as_str())
    } else {
        in_scope(Scope::with_reference(query.scope), query)
    }
}

// ---- by an expression

fn address_of(alloc: Global, lab: &Lab, text: &str) -> Result<u16, QueryFault>
    ensures { (b : Board) → RepresentsBoard lab.now b
        → QueryGives result (info.address_of b (expression_of text.now)) }
{
    match Expression::parse(alloc, text) {
        Ok(expression) => match expression.value(lab) {
            Ok(address) => Ok(address),
            Err(why) => Err(QueryFault::NoValue(why)),
        },
        Err(LineFault::OutOfMemory) => Err(QueryFault::OutOfMemory),
        Err(LineFault::At { column, kind }) => Err(QueryFault::Expression { column, kind }),
    }
}

fn by_expression(alloc: Global, lab: &Lab, query: &DataQuery) -> Result<DataPlace, QueryFault>
    ensures { (b : Board) → RepresentsBoard lab.now b
        → QueryGives result (info.by_expression b query.now) }
{
    let address = address_of(alloc, lab, query.name.as_str())?;
    bytes_at(query.count, address)
}

fn place_at(alloc: Global, lab: &Lab, query: &DataQuery) -> Result<DataPlace, QueryFault>
    ensures { (b : Board) → RepresentsBoard lab.now b
        → QueryGives result (info.place_at b query.now) }
{
    match by_name(query) {
        None => by_expression(alloc, lab, query),
        Some(found) => found,
    }
}

// ---- what is told

fn value_fault_name(fault: ExprFault) -> &'static str
    ensures { result.now ≡ info.value_fault_name fault }
{
    match fault {
        ExprFault::Undefined => "Undefined",
        ExprFault::Divisor => "Divisor",
    }
}

fn fault_text(alloc: Global, name: &str, fault: QueryFault) -> Result<Text, AllocError>
    ensures { IfOk result (λ text. text ≡ fault_text name.now fault) }
{
    let mut text = String::new(alloc);
    match fault {
        QueryFault::OutOfMemory => text.push_str("out of memory")?,
        QueryFault::ProgramCounter => text.push_str("PC changes at every step")?,
        QueryFault::Elsewhere => text.push_str("only registers and memory can be watched")?,
        QueryFault::Expression { column, kind } => {
            text.push_str(name)?;
            write!(text, ": column {column}: ")?;
            text.push_str(kind.name())?;
        }
        QueryFault::NoValue(fault) => {
            text.push_str(name)?;
            text.push_str(": ")?;
            text.push_str(value_fault_name(fault))?;
        }
        QueryFault::Count => text.push_str("1 to 16 bytes can be watched")?,
        QueryFault::PastEnd => text.push_str("the bytes end beyond FFFF")?,
    }
    Ok(Text::from(text))
}

// Appends how many bytes there are, and where.
fn push_bytes(text: &mut String, address: u16, count: u16) -> Result<(), AllocError>
    ensures { OnOk result (string_bytes text.new
        ≡ string_bytes text.old ++ info.bytes_text address count) }
{
    write!(text, "{count}")?;
    text.push_str(if count == 1 {
        " byte at "
    } else {
        " bytes at "
    })?;
    push_word(text, address)
}

fn description_of(alloc: Global, place: DataPlace) -> Result<Text, AllocError>
    ensures { IfOk result (λ text. text ≡ description_of place) }
{
    let mut text = String::new(alloc);
    match place {
        DataPlace::Register(register) => {
            text.push_str("register ")?;
            push_name(&mut text, register)?;
        }
        DataPlace::Pair(high, low) => {
            text.push_str("registers ")?;
            push_name(&mut text, high)?;
            text.push_str(" and ")?;
            push_name(&mut text, low)?;
        }
        DataPlace::Bytes { address, count } => push_bytes(&mut text, address, count)?,
    }
    Ok(Text::from(text))
}

/// What an editor is told of the data that it asks for.
pub fn data_info(alloc: Global, lab: &Lab, query: &DataQuery) -> Result<DataInfo, AllocError>
    ensures { (b : Board) → RepresentsBoard lab.now b
        → IfOk result (λ info. info ≡ data_info b query.now) }
{
    match place_at(alloc, lab, query) {
        Ok(place) => Ok(DataInfo {
            data_id: Some(place.id(alloc)?),
            description: description_of(alloc, place)?,
        }),
        Err(QueryFault::OutOfMemory) => Err(AllocError),
        Err(fault) => Ok(DataInfo {
            data_id: None,
            description: fault_text(alloc, query.name.as_str(), fault)?,
        }),
    }
}
