//! Intel HEX, written.
ghost use Rattle.std.specs.Prelude.{◌≡◌, ◌+◌, ◌%◌, ◌/◌, ◌<◌, ◌≤◌, ◌++◌, ◌∷◌, [], length, drop, sum, OnOk};
ghost use Rattle.std.specs.Prelude.{IfOk, string_bytes};
ghost use Rattle.asm_hex.specs.Record.{digits_of};
ghost use Rattle.asm_hex.specs.Written.{leading, cells_line, records_from, records_text, hex_text};

use base_text::hexadecimal::{push_byte, push_word};
use std::alloc::AllocError;

/// The most bytes of a record.
const RECORD_BYTES: usize = 16;

/// The number of cells before the first that has no byte.
fn count_leading(cells: &[Option<u8>]) -> usize
    ensures { result ≡ length (leading cells.now) }
{
    let mut count = 0;
    for cell in cells {
        if cell.is_none() {
            return count;
        }
        count += 1;
    }
    count
}

/// Appends count, address and kind, and returns their sum modulo 256.
fn push_head(text: &mut String, count: u8, address: u16, kind: u8) -> Result<u8, AllocError>
    ensures text { OnOk result (string_bytes text.new ≡ string_bytes text.old
        ++ digits_of (count ∷ (address / 256 ∷ (address % 256 ∷ (kind ∷ []))))) }
    ensures sum { IfOk result (λ total.
        total ≡ sum (count ∷ (address / 256 ∷ (address % 256 ∷ (kind ∷ [])))) % 256) }
{
    push_byte(text, count)?;
    push_word(text, address)?;
    push_byte(text, kind)?;
    let [high, low] = address.to_be_bytes();
    Ok(
        count
            .wrapping_add(high)
            .wrapping_add(low)
            .wrapping_add(kind),
    )
}

/// Appends the bytes up to the first cell that has none, and returns the sum with them, modulo 256.
fn push_cells(text: &mut String, cells: &[Option<u8>], head: u8) -> Result<u8, AllocError>
    ensures text { OnOk result
        (string_bytes text.new ≡ string_bytes text.old ++ digits_of (leading cells.now)) }
    ensures sum { IfOk result (λ total. total ≡ (head + sum (leading cells.now)) % 256) }
{
    let mut total = head;
    for cell in cells {
        let Some(byte) = cell else {
            return Ok(total);
        };
        push_byte(text, *byte)?;
        total = total.wrapping_add(*byte);
    }
    Ok(total)
}

/// Appends the record of the bytes up to the first cell that has none, and returns their number.
fn push_record(
    text: &mut String,
    address: u16,
    kind: u8,
    cells: &[Option<u8>],
) -> Result<usize, AllocError>
    requires { length cells.now < 256 }
    ensures text { OnOk result (string_bytes text.new
        ≡ string_bytes text.old ++ cells_line address kind cells.now) }
    ensures count { IfOk result (λ count. count ≡ length (leading cells.now)) }
{
    let count = count_leading(cells);
    text.push_str(":")?;
    let head = push_head(text, count as u8, address, kind)?;
    let total = push_cells(text, cells, head)?;
    push_byte(text, 0u8.wrapping_sub(total))?;
    text.push_str("\n")?;
    Ok(count)
}

/// Appends the record that begins at the first of the cells, if one does, where `covered` of them are in a
/// record already. Returns the number of those after the first that are in a record then.
fn push_cell(
    text: &mut String,
    address: u16,
    covered: usize,
    cells: &[Option<u8>],
) -> Result<usize, AllocError>
    requires { 0 < length cells.now }
    ensures { IfOk result (λ count.
        string_bytes text.new ++ records_text (records_from (address + 1) count (drop 1 cells.now))
        ≡ string_bytes text.old ++ records_text (records_from address covered cells.now)) }
{
    if covered > 0 {
        return Ok(covered - 1);
    }
    if cells[0].is_none() {
        return Ok(0);
    }
    let (front, _) = cells.split_at(cells.len().min(RECORD_BYTES));
    let count = push_record(text, address, 0, front)?;
    Ok(count.saturating_sub(1))
}

fn push_records(text: &mut String, cells: &[Option<u8>]) -> Result<(), AllocError>
    requires { length cells.now ≤ 65536 }
    ensures { OnOk result (string_bytes text.new
        ≡ string_bytes text.old ++ records_text (records_from 0 0 cells.now)) }
{
    let mut covered = 0;
    for address in 0..cells.len() {
        let (_, rest) = cells.split_at(address);
        covered = push_cell(text, address as u16, covered, rest)?;
    }
    Ok(())
}

/// Appends Intel HEX for the bytes that there are, each at the address that is the index of its cell, and a
/// start.
#[tactic(auto, unfolding(crate::specs::Written::hex_text))]
pub fn push_hex(
    text: &mut String,
    cells: &[Option<u8>],
    start: Option<u16>,
) -> Result<(), AllocError>
    requires { length cells.now ≤ 65536 }
    ensures { OnOk result
        (string_bytes text.new ≡ string_bytes text.old ++ hex_text cells.now start) }
{
    push_records(text, cells)?;
    push_record(text, start.unwrap_or(0), 1, &[])?;
    Ok(())
}
