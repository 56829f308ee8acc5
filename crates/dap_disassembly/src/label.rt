//! The lines of labels.
ghost use Rattle.std.specs.Prelude.{◌≡◌, IfOk, option_and_then};
ghost use Rattle.lab_image.specs.Loads.{origin_of};
ghost use Rattle.lab_core.specs.Board.{Board};
ghost use Rattle.lab_core.specs.Labs.{RepresentsBoard};
ghost use Rattle.dap_disassembly.specs.Labels as labels;

use asm_build::symbols::{Symbol, SymbolKind};
use lab_core::lab::Lab;
use lab_image::origin::Origin;
use std::alloc::{AllocError, Global};

/// A line of a kept source.
#[derive(Clone, Copy)]
pub struct SourceLine {
    /// The number of the source.
    pub source: u32,
    /// From 1.
    pub line: u32,
}

/// The line of the statement that begins at the address of this origin, if one does.
fn line_begun(origin: Option<Origin>) -> Option<SourceLine>
    ensures { result ≡ labels.line_begun origin }
{
    let origin = origin?;
    if !origin.is_first {
        return None;
    }
    match u32::try_from(origin.line) {
        Ok(line) => Some(SourceLine {
            source: origin.source,
            line,
        }),
        Err(_) => None,
    }
}

fn line_at(lab: &Lab, address: Option<u16>) -> Option<SourceLine>
    ensures { (b : Board) → RepresentsBoard lab.now b
        → result ≡ option_and_then (λ n. labels.line_begun (origin_of b.loads n)) address }
{
    line_begun(lab.origin_at(address?))
}

fn value_of_label(symbol: Symbol) -> Option<u16>
    ensures { result ≡ labels.value_of_label symbol }
{
    match symbol.kind {
        SymbolKind::Label => Some(symbol.value),
        SymbolKind::Equ | SymbolKind::Set => None,
    }
}

/// The line of the statement that begins at the value of a label, if there is one. Upper and lower case of
/// the name are the same. A line number of more than 32 bits isn't found, since no breakpoint can be there.
pub fn line_of_label(alloc: Global, lab: &Lab, name: &str) -> Result<Option<SourceLine>, AllocError>
    ensures { (b : Board) → RepresentsBoard lab.now b
        → IfOk result (λ line. line ≡ labels.line_of_label b name.now) }
{
    let name = name.to_ascii_uppercase(alloc)?;
    match lab.symbols().get(name.as_str()) {
        Some(symbol) => Ok(line_at(lab, value_of_label(symbol))),
        None => Ok(None),
    }
}
