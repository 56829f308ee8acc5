//! The bytes of a memory, one after the other.
ghost use Rattle.std.specs.Prelude.{◌≡◌, ◌≤◌, length, IfOk};
ghost use Rattle.cli_hex.specs.Binary.{from_first, to_last, plain_bytes, binary_of, com_of, is_below};

use std::alloc::{AllocError, Global};

/// The address at which a program for CP/M begins.
const COM_START: usize = 0x100;

fn from_first(cells: &[Option<u8>]) -> &[Option<u8>]
    ensures { result.now ≡ from_first cells.now }
{
    let mut rest = cells;
    while let Some((first, others)) = rest.split_first() {
        if first.is_some() {
            return rest;
        }
        rest = others;
    }
    rest
}

fn to_last(cells: &[Option<u8>]) -> &[Option<u8>]
    ensures { result.now ≡ to_last cells.now }
{
    let mut rest = cells;
    while let Some((last, others)) = rest.split_last() {
        if last.is_some() {
            return rest;
        }
        rest = others;
    }
    rest
}

/// The bytes of cells, 0 if there is none.
fn plain_bytes(alloc: Global, cells: &[Option<u8>]) -> Result<Vec<u8>, AllocError>
    ensures { IfOk result (λ bytes. bytes.items ≡ plain_bytes cells.now) }
{
    let mut bytes = Vec::new(alloc);
    for cell in cells {
        bytes.push(cell.unwrap_or(0))?;
    }
    Ok(bytes)
}

/// The bytes from the first to the last.
#[tactic(auto, unfolding(crate::specs::Binary::binary_of))]
pub(crate) fn binary(alloc: Global, cells: &[Option<u8>]) -> Result<Vec<u8>, AllocError>
    ensures { IfOk result (λ bytes. bytes.items ≡ binary_of cells.now) }
{
    plain_bytes(alloc, to_last(from_first(cells)))
}

/// The bytes from 0100H to the last.
#[tactic(auto, unfolding(crate::specs::Binary::com_of))]
pub(crate) fn com(alloc: Global, cells: &[Option<u8>]) -> Result<Vec<u8>, AllocError>
    requires { COM_START ≤ length cells.now }
    ensures { IfOk result (λ bytes. bytes.items ≡ com_of cells.now) }
{
    let (_, rest) = cells.split_at(COM_START);
    plain_bytes(alloc, to_last(rest))
}

/// Whether there is a byte below 0100H.
#[tactic(auto, unfolding(crate::specs::Binary::is_below))]
pub(crate) fn is_below(cells: &[Option<u8>]) -> bool
    requires { COM_START ≤ length cells.now }
    ensures { result ≡ is_below cells.now }
{
    let (front, _) = cells.split_at(COM_START);
    front.iter().any(|cell| cell.is_some())
}
