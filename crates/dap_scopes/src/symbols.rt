//! The symbols that have a part in their names, a line for each.
ghost use Rattle.std.specs.Prelude.{◌≡◌, [], ◌∷◌, ◌++◌, List, length, IfOk, OnOk, string_bytes};
ghost use Rattle.base_text.specs.Bytes.{Bytes};
ghost use Rattle.lab_core.specs.Board.{Board};
ghost use Rattle.lab_core.specs.Labs.{RepresentsBoard};
ghost use Rattle.dap_scopes.specs.Symbols as shown;
ghost use Rattle.dap_scopes.specs.Symbols.{joined_lines, symbols_with};

use crate::completion::begins_with;
use asm_build::symbols::{Symbol, Symbols};
use asm_syntax::numeral::push_word;
use base_text::text::Text;
use lab_core::lab::Lab;
use lab_views::names::symbol_at;
use std::alloc::{AllocError, Global};

/// The most symbols that are shown.
const MOST: usize = 256;

fn has_part(name: &[u8], part: &[u8]) -> bool
    ensures { result ≡ shown.has_part name.now part.now }
{
    for start in 0..name.len() {
        let (_, end) = name.split_at(start);
        if begins_with(end, part) {
            return true;
        }
    }
    begins_with(&[], part)
}

fn push_symbol(text: &mut String, name: &str, symbol: Symbol) -> Result<(), AllocError>
    ensures { OnOk result (string_bytes text.new
        ≡ string_bytes text.old ++ shown.symbol_line (name.now, symbol)) }
{
    text.push_str(name)?;
    text.push_str(" ")?;
    push_word(text, symbol.value)
}

/// Appends a symbol's line to so many lines.
fn push_line(text: &mut String, count: usize, name: &str, symbol: Symbol) -> Result<(), AllocError>
    ensures { (lines : List Bytes) → count ≡ length lines → string_bytes text.old ≡ joined_lines lines
        → OnOk result (string_bytes text.new
        ≡ joined_lines (lines ++ shown.symbol_line (name.now, symbol) ∷ [])) }
{
    if count == 0 {
        return push_symbol(text, name, symbol);
    }
    text.push_str("\n")?;
    push_symbol(text, name, symbol)
}

fn text_with(alloc: Global, symbols: &Symbols, part: &[u8]) -> Result<Text, AllocError>
    ensures { IfOk result (λ text. text ≡ shown.text_with symbols.now part.now) }
{
    let mut text = String::new(alloc);
    let mut count = 0;
    for index in 0..symbols.len() {
        let (name, symbol) = symbol_at(symbols, index);
        if !has_part(name.as_bytes(), part) {
            continue;
        }
        if count == MOST {
            return Ok(Text::from(text));
        }
        push_line(&mut text, count, name, symbol)?;
        count += 1;
    }
    Ok(Text::from(text))
}

/// The program's symbols whose names have a part, at most 256, in order of definition: on a line each, the
/// name and the value. Upper and lower case are the same. Each name has the empty part.
pub fn symbols_text(alloc: Global, lab: &Lab, part: &str) -> Result<Text, AllocError>
    ensures { (b : Board) → RepresentsBoard lab.now b
        → IfOk result (λ text. text ≡ symbols_with b part.now) }
{
    text_with(alloc, lab.symbols(), part.as_bytes())
}
