//! The bytes of a memory, address by address.
ghost use Rattle.std.specs.Prelude.{◌≡◌, length, IfOk};
ghost use Rattle.asm_hex.specs.Cells.{cells_of};

use i80_base::memory::MEMORY_SIZE;
use std::alloc::{AllocError, Global};

/// For each of the 65,536 addresses the byte there, if there is one.
pub fn cells(alloc: Global, bytes: &[(u16, u8)]) -> Result<Vec<Option<u8>>, AllocError>
    ensures cells { IfOk result (λ cells. cells.items ≡ cells_of bytes.now) }
    ensures count { IfOk result (λ cells. length cells.items ≡ 65536) }
{
    let mut cells = Vec::new(alloc);
    cells.resize(MEMORY_SIZE, None)?;
    for (address, byte) in bytes {
        cells[*address as usize] = Some(*byte);
    }
    Ok(cells)
}
