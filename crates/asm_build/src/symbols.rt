//! Symbols: names with their values (8080/8085 Assembly Language Programming Manual, chapter 2,
//! "Symbols and symbol tables").
ghost use Rattle.std.specs.Prelude.{◌≡◌, ◌++◌, ◌∷◌, [], None, length, option_map, slice_get, fold};
ghost use Rattle.std.specs.Prelude.{OnOk, OnErr, IfOk};

use std::alloc::{AllocError, Global};
use std::collections::HashMap;
use std::marker::Model;

/// How a name was defined.
#[derive(Clone, Copy, PartialEq, Eq)]
pub enum SymbolKind {
    Label,
    Equ,
    Set,
}

impl SymbolKind {
    ghost use Rattle.asm_build.specs.Statements.{is_set};

    pub(crate) fn is_set(self) -> bool
        ensures { result ≡ is_set self }
    {
        match self {
            SymbolKind::Label => false,
            SymbolKind::Equ => false,
            SymbolKind::Set => true,
        }
    }
}

/// The value of a name, and how it was defined.
#[derive(Clone, Copy)]
pub struct Symbol {
    pub value: u16,
    pub kind: SymbolKind,
}

/// Names, in upper case, with their values, in the order of definition.
pub struct Symbols {
    entries: Vec<(String, Symbol)>,
    // The index of each name.
    places: HashMap<String, usize>,
}

// One function for all places where symbols are dropped.
impl Drop for Symbols {
    fn drop(self) {
        let Self {
            entries: _,
            places: _,
        } = self;
    }
}

impl Model for Symbols {
    ghost use Rattle.std.specs.Prelude.{◌≡◌, List, ℕ};
    ghost use Rattle.asm_build.specs.declared.symbols.Symbol.{Symbol};

    ghost Value = { List (List ℕ × Symbol) };

    ghost use Rattle.std.specs.HashMap.{get_by_text};
    ghost use Rattle.asm_build.specs.Texts.{entries_in, place_in};

    ghost view = { λ s. entries_in s.entries.items };

    ghost invariant = { λ s. (x : List ℕ) → get_by_text s.places x
        ≡ place_in (entries_in s.entries.items) x };
}

impl Symbols {
    ghost use Rattle.asm_build.specs.Reading.{symbol_at};
    ghost use Rattle.asm_build.specs.Meaning.{with_symbol};
    ghost use Rattle.asm_build.specs.Texts.{place_in};

    /// No symbols.
    pub fn new(alloc: Global) -> Symbols
        ensures { result ≡ [] }
    {
        Symbols {
            entries: Vec::new(alloc),
            places: HashMap::new(alloc),
        }
    }

    /// The number of symbols.
    pub fn len(&self) -> usize
        ensures { result ≡ length self.now }
    {
        self.entries.len()
    }

    /// The symbol of this name, which is in upper case.
    pub fn get(&self, name: &str) -> Option<Symbol>
        ensures { result ≡ symbol_at self.now name.now }
    {
        match self.places.get(name) {
            None => None,
            Some(place) => Some(self.entries[*place].1),
        }
    }

    /// The name at this index, from 0, in the order of definition, and its symbol.
    pub fn at(&self, index: usize) -> Option<(&str, Symbol)>
        ensures { option_map (λ e. (e.0.now, e.1)) result ≡ slice_get self.now index }
    {
        let (name, symbol) = self.entries.get(index)?;
        Some((name.as_str(), *symbol))
    }

    // Adds a symbol whose name is new. Each allocation comes before the first change.
    fn add(&mut self, alloc: Global, name: &str, symbol: Symbol) -> Result<(), AllocError>
        requires { place_in self.old name.now ≡ None }
        ensures ok { OnOk result (self.new ≡ self.old ++ (name.now, symbol) ∷ []) }
        ensures err { OnErr result (self.new ≡ self.old) }
    {
        let key = String::from_str(alloc, name)?;
        let text = String::from_str(alloc, name)?;
        self.entries.reserve(1)?;
        self.places.insert(key, self.entries.len())?;
        self.entries.push((text, symbol))?;
        Ok(())
    }

    // Adds a symbol, or replaces the one of this name in its place.
    pub(crate) fn define(
        &mut self,
        alloc: Global,
        name: &str,
        symbol: Symbol,
    ) -> Result<(), AllocError>
        ensures ok { OnOk result (self.new ≡ with_symbol self.old name.now symbol) }
        ensures err { OnErr result (self.new ≡ self.old) }
    {
        match self.places.get(name) {
            None => self.add(alloc, name, symbol),
            Some(place) => {
                self.entries[*place].1 = symbol;
                Ok(())
            }
        }
    }

    // A copy of the symbols.
    pub(crate) fn copy(&self) -> Result<Symbols, AllocError>
        ensures { IfOk result (λ s. s ≡ self.now) }
    {
        let entries = self.entries.clone()?;
        let places = self.places.clone()?;
        Ok(Symbols { entries, places })
    }

    // Adds the others, each in turn.
    pub(crate) fn define_all(&mut self, alloc: Global, others: &Symbols) -> Result<(), AllocError>
        ensures { OnOk result (self.new
            ≡ fold (λ es e. with_symbol es e.0 e.1) self.old others.now) }
    {
        for index in 0..others.len() {
            if let Some((name, symbol)) = others.at(index) {
                self.define(alloc, name, symbol)?;
            }
        }
        Ok(())
    }
}
