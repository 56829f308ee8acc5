//! Intel HEX, read.
ghost use Rattle.asm_hex.specs.Outcome.{Gives};
ghost use Rattle.asm_hex.specs.Contents.{hex_of};
ghost use Rattle.asm_hex.specs.File.{file_value};

use crate::contents::{Contents, file_of_contents};
use crate::fault::{HexFault, HexFaultKind};
use std::alloc::Global;

/// The most bytes of a file.
pub const MOST_BYTES: usize = 1_048_576;

/// What a file gives.
#[derive(Drop)]
pub struct HexFile {
    /// Bytes with their addresses, no two at one address, in the order of the file.
    pub bytes: Vec<(u16, u8)>,
    /// Where the program starts, if the file says so.
    pub start: Option<u16>,
}

/// Reads a file in Intel HEX. Addresses are of 16 bits; the start is the address of the end record, unless
/// that is 0.
#[tactic(auto, unfolding(crate::specs::Contents::hex_of))]
pub fn read_hex(alloc: Global, text: &[u8]) -> Result<HexFile, HexFault>
    ensures { Gives file_value result (hex_of text.now) }
{
    if text.len() > MOST_BYTES {
        return Err(HexFault::At {
            line: 1,
            kind: HexFaultKind::TooLong,
        });
    }
    let mut contents = Contents::new(alloc)?;
    let count = contents.add_lines(alloc, text)?;
    file_of_contents(contents, count)
}
