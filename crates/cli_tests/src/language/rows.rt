//! Rows of a text: what is asked, which may have several lines, ` |` and what must be told of it, with or
//! without blanks around it.

use crate::language::operands::{put_misplaced, put_names, put_shape, put_split, put_string};
use crate::language::sessions::put_cell;
use crate::language::texts::put_count;
use crate::language::tokens::put_tokens;
use crate::language::vocabulary::put_keyword;
use asm_build::symbols::Symbols;
use std::alloc::{AllocError, Global};
use std::process::Abort;

/// What is asked for in the rows of a text.
#[derive(Clone, Copy)]
pub enum Asked {
    /// A line's tokens or its fault.
    Tokens,
    /// A word's keyword.
    Keyword,
    /// Whether a string is an expression, given what stands between its quotes.
    Shape,
    /// The characters of a string, given what stands between its quotes.
    Characters,
    /// How operands are split at commas.
    Split,
    /// The column of the leftmost word that can't stand where it does.
    Misplaced,
    /// Whether the names in an expression are I and X.
    Names,
    /// How many statements a text has.
    Count,
    /// What a cell gives over the symbols that the row before it left.
    Cell,
}

/// Adds what is told of a row. Only cells take symbols, and leave some.
fn tell(
    alloc: Global,
    asked: Asked,
    text: &str,
    kept: &mut Symbols,
    told: &mut String,
) -> Result<(), AllocError> {
    match asked {
        Asked::Tokens => put_tokens(alloc, text.as_bytes(), told),
        Asked::Keyword => put_keyword(text.as_bytes(), told),
        Asked::Shape => put_shape(text.as_bytes(), told),
        Asked::Characters => put_string(alloc, text.as_bytes(), told),
        Asked::Split => put_split(alloc, text.as_bytes(), told),
        Asked::Misplaced => put_misplaced(alloc, text.as_bytes(), told),
        Asked::Names => put_names(alloc, text.as_bytes(), told),
        Asked::Count => put_count(alloc, text, told),
        Asked::Cell => put_cell(alloc, text, kept, told),
    }
}

/// Where the comparison is: the row's lines so far, what is told of it, and the symbols that are left.
#[derive(Drop)]
struct Place {
    text: String,
    told: String,
    kept: Symbols,
}

// Adds a row that is told otherwise than it must, and what is told.
fn put_other(place: &Place, wanted: &str, others: &mut String) -> Result<(), AllocError> {
    if place.told.as_str().trim() == wanted.trim() {
        return Ok(());
    }
    others.push_str(place.text.as_str())?;
    others.push_str(" |")?;
    others.push_str(wanted)?;
    others.push_str(", not ")?;
    others.push_str(place.told.as_str())?;
    others.push('\n')
}

fn put_row(
    alloc: Global,
    asked: Asked,
    place: &mut Place,
    wanted: &str,
    others: &mut String,
) -> Result<(), AllocError> {
    tell(
        alloc,
        asked,
        place.text.as_str(),
        &mut place.kept,
        &mut place.told,
    )?;
    put_other(place, wanted, others)?;
    place.text.clear();
    place.told.clear();
    Ok(())
}

// Takes a line of rows.
fn take_line(
    alloc: Global,
    asked: Asked,
    place: &mut Place,
    line: &str,
    others: &mut String,
) -> Result<(), AllocError> {
    match line.split_once(" |") {
        Some((end, wanted)) => {
            place.text.push_str(end)?;
            put_row(alloc, asked, place, wanted, others)
        }
        None => {
            place.text.push_str(line)?;
            place.text.push('\n')
        }
    }
}

fn take_lines(
    alloc: Global,
    asked: Asked,
    place: &mut Place,
    rows: &str,
    others: &mut String,
) -> Result<(), AllocError> {
    for line in rows.lines() {
        take_line(alloc, asked, place, line, others)?;
    }
    Ok(())
}

/// Compares what is told of each row with what must be.
pub fn compare(rt: &(impl Abort + AllocGlobal), asked: Asked, rows: &str) {
    let alloc = rt.alloc();
    let mut place = Place {
        text: String::new(alloc),
        told: String::new(alloc),
        kept: Symbols::new(alloc),
    };
    let mut others = String::new(alloc);
    let taken = take_lines(alloc, asked, &mut place, rows, &mut others);
    let are_all_taken = taken.is_ok() && place.text.is_empty();
    drop(place);
    assert!(rt; are_all_taken && others.is_empty(), "{others}");
    drop(others);
}
