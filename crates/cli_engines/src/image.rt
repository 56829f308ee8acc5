//! The image of a cell, bytes with their addresses: stored in a machine, and printed.
ghost use Rattle.std.specs.Prelude.{◌≡◌, ◌<◌, ◌≤◌, ◌+◌, ◌++◌, ◌∷◌, List, ℕ, OnOk, IfOk, length, drop, take};
ghost use Rattle.std.specs.Prelude.{string_bytes};
ghost use Rattle.i80_exec.specs.State.{with_image_bytes};
ghost use Rattle.cli_engines.specs.Image.{fill, cells_of, leading, spaced_bytes, image_line};
ghost use Rattle.cli_engines.specs.Image.{lines_from, image_text};

use base_text::hexadecimal::push_word;
use cli_run::printing::push_field;
use i80_base::memory::MEMORY_SIZE;
use i80_exec::machine::Machine;
use std::alloc::{AllocError, Global};

/// The most bytes on a line.
const LINE_BYTES: usize = 16;

/// Stores each byte of an image at its address.
pub fn store_image(machine: &mut Machine, image: &[(u16, u8)])
    ensures { machine.new ≡ with_image_bytes machine.old image.now }
{
    for (address, byte) in image {
        machine.poke(*address, *byte);
    }
}

/// Appends the lines of an image in the order of addresses, such as `0000: 3E 05 76`. A line ends
/// before an address without a byte, and after 16 bytes.
pub fn push_image(alloc: Global, text: &mut String, image: &[(u16, u8)]) -> Result<(), AllocError>
    ensures { OnOk result (string_bytes text.new ≡ string_bytes text.old ++ image_text image.now) }
{
    let cells = cells(alloc, image)?;
    push_lines(text, cells.as_slice())
}

/// The byte at each of the addresses, if the image has one.
fn cells(alloc: Global, image: &[(u16, u8)]) -> Result<Vec<Option<u8>>, AllocError>
    ensures { IfOk result (λ cells. cells.items ≡ cells_of image.now) }
{
    let mut cells = Vec::new(alloc);
    cells.resize(MEMORY_SIZE, None)?;
    for (address, byte) in image {
        cells[*address as usize] = Some(*byte);
    }
    Ok(cells)
}

fn push_lines(text: &mut String, cells: &[Option<u8>]) -> Result<(), AllocError>
    requires { length cells.now ≤ 65536 }
    ensures { OnOk result (string_bytes text.new ≡ string_bytes text.old ++ lines_from 0 0 cells.now) }
{
    let mut printed = 0;
    for address in 0..cells.len() {
        let (_, rest) = cells.split_at(address);
        printed = push_cell(text, address as u16, printed, rest)?;
    }
    Ok(())
}

/// Appends the line that begins at the first of the cells, if one does, where `printed` of them are on a
/// line already. Returns the number of those after the first that are on a line then.
fn push_cell(
    text: &mut String,
    address: u16,
    printed: usize,
    cells: &[Option<u8>],
) -> Result<usize, AllocError>
    requires { 0 < length cells.now }
    ensures { IfOk result (λ count.
        string_bytes text.new ++ lines_from (address + 1) count (drop 1 cells.now)
        ≡ string_bytes text.old ++ lines_from address printed cells.now) }
{
    if printed > 0 {
        return Ok(printed - 1);
    }
    if cells[0].is_none() {
        return Ok(0);
    }
    push_word(text, address)?;
    text.push_str(":")?;
    let (front, _) = cells.split_at(cells.len().min(LINE_BYTES));
    let count = push_bytes(text, front)?;
    text.push_str("\n")?;
    Ok(count.saturating_sub(1))
}

/// Appends the bytes up to the first cell that has none, and returns their number.
fn push_bytes(text: &mut String, cells: &[Option<u8>]) -> Result<usize, AllocError>
    ensures text { OnOk result
        (string_bytes text.new ≡ string_bytes text.old ++ spaced_bytes (leading cells.now)) }
    ensures count { IfOk result (λ count. count ≡ length (leading cells.now)) }
{
    let mut count = 0;
    for cell in cells {
        let Some(byte) = cell else {
            return Ok(count);
        };
        push_field(text, " ", *byte)?;
        count += 1;
    }
    Ok(count)
}
