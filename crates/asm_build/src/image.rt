//! The bytes of a cell with their addresses.
ghost use Rattle.std.specs.Prelude.{◌≡◌, ◌++◌, ◌∷◌, [], ◌%◌, ◌+◌, ℕ, false, length, slice_index_or};
ghost use Rattle.std.specs.Prelude.{IfOk, OnOk};
ghost use Rattle.asm_build.specs.Images.{has};
ghost use Rattle.asm_build.specs.Meaning.{at_address, overlaps};

use i80_base::memory::MEMORY_SIZE;
use std::alloc::{AllocError, Global};
use std::marker::Model;

/// Bytes with their addresses, in the order in which they were added, and for each address whether
/// it has one.
#[derive(Drop)]
pub(crate) struct Image {
    bytes: Vec<(u16, u8)>,
    is_taken: Vec<bool>,
}

impl Model for Image {
    ghost use Rattle.std.specs.Prelude.{◌≡◌, List, ℕ, false, ◌<◌, length, slice_index_or};
    ghost use Rattle.asm_build.specs.Images.{has};

    ghost Value = { List (ℕ × ℕ) };

    ghost view = { λ i. i.bytes.items };

    ghost invariant = { λ i. (length i.is_taken.items ≡ 65536)
        × ((a : ℕ) → a < 65536 → slice_index_or i.is_taken.items a false ≡ has i.bytes.items a) };
}

// `count` times `false`.
fn all_false(alloc: Global, count: usize) -> Result<Vec<bool>, AllocError>
    ensures count { IfOk result (λ v. length v.items ≡ count) }
    ensures none { IfOk result (λ v. (a : ℕ) → slice_index_or v.items a false ≡ false) }
{
    vec![in alloc; false; count]
}

impl Image {
    pub(crate) fn new(alloc: Global) -> Result<Image, AllocError>
        ensures { IfOk result (λ i. i ≡ []) }
    {
        let is_taken = all_false(alloc, MEMORY_SIZE)?;
        Ok(Image {
            bytes: Vec::new(alloc),
            is_taken,
        })
    }

    fn has(&self, address: u16) -> bool
        ensures { result ≡ has self.now address }
    {
        self.is_taken[address as usize]
    }

    fn put(&mut self, address: u16, byte: u8) -> Result<(), AllocError>
        ensures { OnOk result (self.new ≡ self.old ++ (address, byte) ∷ []) }
    {
        self.bytes.push((address, byte))?;
        self.is_taken[address as usize] = true;
        Ok(())
    }

    // Whether one of the addresses of these bytes, from the first on, has a byte already.
    pub(crate) fn overlaps(&self, address: u16, bytes: &[u8]) -> bool
        ensures { result ≡ overlaps self.now (at_address address bytes.now) }
    {
        let mut next = address;
        for _ in bytes {
            if self.has(next) {
                return true;
            }
            next = next.wrapping_add(1);
        }
        false
    }

    // Adds bytes at the addresses from the first on.
    pub(crate) fn append(&mut self, address: u16, bytes: &[u8]) -> Result<(), AllocError>
        ensures { OnOk result (self.new ≡ self.old ++ at_address address bytes.now) }
    {
        let mut next = address;
        for byte in bytes {
            self.put(next, *byte)?;
            next = next.wrapping_add(1);
        }
        Ok(())
    }

    pub(crate) fn into_vec(self) -> Vec<(u16, u8)>
        ensures { result.items ≡ self }
    {
        let Image { bytes, is_taken: _ } = self;
        bytes
    }
}
