//! Bytes of memory.
ghost use Rattle.std.specs.Prelude.{◌≡◌, IfOk};
ghost use Rattle.lab_core.specs.Board.{Board};
ghost use Rattle.lab_core.specs.Labs.{RepresentsBoard};
ghost use Rattle.dap_values.specs.Memory as memory;

use base_text::sequence::Bytes;
use i80_base::memory::MEMORY_SIZE;
use lab_core::lab::Lab;
use std::alloc::{AllocError, Global};

/// The number of addresses.
const ADDRESSES: u32 = MEMORY_SIZE as u32;

/// `count` bytes from an address on, or fewer if the last address comes before.
pub fn read_memory(alloc: Global, lab: &Lab, address: u16, count: u32) -> Result<Bytes, AllocError>
    ensures { (b : Board) → RepresentsBoard lab.now b
        → IfOk result (λ bytes. bytes ≡ memory.bytes_from b.machine address count) }
{
    let start = u32::from(address);
    let many = count.min(ADDRESSES - start);
    let mut bytes = Bytes::new(alloc);
    for offset in 0..many {
        bytes.push(lab.peek((start + offset) as u16))?;
    }
    Ok(bytes)
}
