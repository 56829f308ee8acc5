//! The names of routines.
ghost use Rattle.std.specs.Prelude.{◌≡◌, ◌<◌, ◌++◌, ◌&&◌, ◌==◌, length, option_map, slice_get, codes};
ghost use Rattle.std.specs.Prelude.{IfOk, Some};
ghost use Rattle.base_text.specs.Hexadecimal.{upper_word};
ghost use Rattle.lab_views.specs.Frames as frames;

use asm_build::symbols::{Symbol, SymbolKind, Symbols};
use base_text::hexadecimal::push_word;
use base_text::text::Text;
use std::alloc::{AllocError, Global};

fn is_label(kind: SymbolKind) -> bool
    ensures { result ≡ frames.is_label kind }
{
    match kind {
        SymbolKind::Label => true,
        SymbolKind::Equ => false,
        SymbolKind::Set => false,
    }
}

fn labels(address: u16, symbol: Symbol) -> bool
    ensures { result ≡ (frames.is_label symbol.kind && symbol.value == address) }
{
    is_label(symbol.kind) && symbol.value == address
}

/// The name and the symbol at an index, in order of definition.
pub fn symbol_at(symbols: &Symbols, index: usize) -> (&str, Symbol)
    requires { index < length symbols.now }
    ensures { slice_get symbols.now index ≡ Some (result.0.now, result.1) }
{
    match symbols.at(index) {
        Some(entry) => entry,
        None => unreachable!(),
    }
}

/// The first label with an address.
pub fn label_of(symbols: &Symbols, address: u16) -> Option<&str>
    ensures { option_map (λ name. name.now) result ≡ frames.label_of symbols.now address }
{
    for index in 0..symbols.len() {
        let (name, symbol) = symbol_at(symbols, index);
        if labels(address, symbol) {
            return Some(name);
        }
    }
    None
}

fn address_name(alloc: Global, address: u16) -> Result<Text, AllocError>
    ensures { IfOk result (λ name. name ≡ upper_word address ++ codes "H") }
{
    let mut name = String::new(alloc);
    push_word(&mut name, address)?;
    name.push_str("H")?;
    Ok(Text::from(name))
}

/// The name of the routine at an address: the first label there, or else the address.
pub fn routine_name(alloc: Global, symbols: &Symbols, address: u16) -> Result<Text, AllocError>
    ensures { IfOk result (λ name. name ≡ frames.routine_name symbols.now address) }
{
    match label_of(symbols, address) {
        Some(name) => Text::copy_of(alloc, name),
        None => address_name(alloc, address),
    }
}
