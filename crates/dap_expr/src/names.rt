//! The values of names on a board.
ghost use Rattle.std.specs.Prelude.{◌≡◌};
ghost use Rattle.dap_expr.specs.Names.{read_named};

use crate::part::{part_named, part_owning, part_value};
use asm_build::symbols::Symbols;
use asm_expr::env::Env;
use i80_exec::registers::Registers;

/// What names stand for: reads, parts of the machine and symbols.
#[derive(Clone, Copy)]
pub(crate) struct Names<'a> {
    pub(crate) symbols: &'a Symbols,
    pub(crate) regs: Registers,
    /// The byte at HL.
    pub(crate) m: u8,
    pub(crate) reads: [u16; 16],
}

fn read_named(reads: &[u16], name: &[u8]) -> Option<u16>
    ensures { result ≡ read_named reads.now name.now }
{
    match name {
        [number] => reads.get(usize::from(*number)).copied(),
        _ => None,
    }
}

impl Env for Names<'_> {
    ghost use Rattle.dap_expr.specs.Names.{value_named};

    ghost values = { λ e x. value_named e.symbols.now e.regs e.m e.reads x };

    fn get(&self, name: &str) -> Option<u16> {
        let bytes = name.as_bytes();
        if let Some(value) = read_named(&self.reads, bytes) {
            return Some(value);
        }
        if let Some(part) = part_owning(bytes) {
            return Some(part_value(self.regs, self.m, part));
        }
        if let Some(symbol) = self.symbols.get(name) {
            return Some(symbol.value);
        }
        match part_named(bytes) {
            Some(part) => Some(part_value(self.regs, self.m, part)),
            None => None,
        }
    }
}
