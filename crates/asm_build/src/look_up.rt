//! The values of names for operands.
ghost use Rattle.std.specs.Prelude.{◌≡◌};
ghost use Rattle.asm_build.specs.Reading.{symbol_at, or_else, value_in, late_symbol};

use crate::symbols::Symbols;
use asm_expr::env::Env;

/// For operands that the layout depends on: the cell's own definition so far, else the kept one.
#[derive(Clone, Copy)]
pub(crate) struct EarlyNames<'a> {
    pub(crate) own: &'a Symbols,
    pub(crate) kept: &'a Symbols,
}

impl Env for EarlyNames<'_> {
    ghost values = { λ e x. value_in (or_else (symbol_at e.own.now x) (symbol_at e.kept.now x)) };

    fn get(&self, name: &str) -> Option<u16> {
        match self.own.get(name) {
            Some(symbol) => Some(symbol.value),
            None => self.kept.get(name).map(|symbol| symbol.value),
        }
    }
}

/// For other operands: the cell's label or EQU, or its latest SET, else the kept definition.
#[derive(Clone, Copy)]
pub(crate) struct LateNames<'a> {
    pub(crate) own: &'a Symbols,
    pub(crate) sets: &'a Symbols,
    pub(crate) kept: &'a Symbols,
}

impl Env for LateNames<'_> {
    ghost values = { λ e x. value_in
        (late_symbol (symbol_at e.own.now x) (symbol_at e.sets.now x) (symbol_at e.kept.now x)) };

    fn get(&self, name: &str) -> Option<u16> {
        match self.own.get(name) {
            None => self.kept.get(name).map(|symbol| symbol.value),
            Some(symbol) => {
                if !symbol.kind.is_set() {
                    return Some(symbol.value);
                }
                match self.sets.get(name) {
                    Some(set) => Some(set.value),
                    None => self.kept.get(name).map(|symbol| symbol.value),
                }
            }
        }
    }
}
