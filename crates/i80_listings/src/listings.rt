//! The listing of a memory with gaps.
ghost use Rattle.std.specs.Prelude.{◌≡◌, ◌≤◌, ◌-◌, ◌++◌, length, IfOk, OnOk, string_bytes};
ghost use Rattle.i80_dis.specs.Text.{listing_of};
ghost use Rattle.i80_listings_laws.specs.Runs.{runs_of};
ghost use Rattle.i80_listings_laws.specs.Text.{runs_text, start_line, listings_of};

use asm_syntax::numeral::push_word;
use i80_dis::listing::listing;
use std::alloc::{AllocError, Global};

// Appends the listing of the run that ends before this address.
fn push_run(alloc: Global, text: &mut String, end: usize, run: &[u8]) -> Result<(), AllocError>
    requires within { end ≤ 65536 }
    requires run { length run.now ≤ end }
    ensures { OnOk result (string_bytes text.new
        ≡ string_bytes text.old ++ listing_of (end - length run.now) run.now) }
{
    if run.is_empty() {
        return Ok(());
    }
    let lines = listing(alloc, (end - run.len()) as u16, run)?;
    text.push_str(lines.as_str())?;
    Ok(())
}

// Appends the listing of each run.
fn push_runs(alloc: Global, text: &mut String, cells: &[Option<u8>]) -> Result<(), AllocError>
    requires { length cells.now ≤ 65536 }
    ensures { OnOk result (string_bytes text.new
        ≡ string_bytes text.old ++ runs_text (runs_of cells.now)) }
{
    let mut run = Vec::new(alloc);
    for (address, cell) in cells.iter().enumerate() {
        match *cell {
            Some(byte) => run.push(byte)?,
            None => {
                push_run(alloc, text, address, run.as_slice())?;
                run.clear();
            }
        }
    }
    push_run(alloc, text, cells.len(), run.as_slice())
}

// Appends the line with END.
fn push_start(text: &mut String, start: u16) -> Result<(), AllocError>
    ensures { OnOk result (string_bytes text.new ≡ string_bytes text.old ++ start_line start) }
{
    text.push_str("END ")?;
    push_word(text, start)?;
    text.push_str("\n")?;
    Ok(())
}

/// The listing of a memory: for each run of consecutive addresses that have a byte the listing of its
/// bytes, and last, if there is a start, an END with it. `cells` has the byte of each address from 0 on,
/// or `None` where there is none.
///
/// The text is a cell that assembles to these bytes and this start, unless a memory with hardly a gap and
/// a start gives one line more than a cell may have (see `laws`). The time is linear in the number of cells.
pub fn listings(
    alloc: Global,
    cells: &[Option<u8>],
    start: Option<u16>,
) -> Result<String, AllocError>
    requires { length cells.now ≤ 65536 }
    ensures { IfOk result (λ text. string_bytes text ≡ listings_of cells.now start) }
{
    let mut text = String::new(alloc);
    push_runs(alloc, &mut text, cells)?;
    if let Some(address) = start {
        push_start(&mut text, address)?;
    }
    Ok(text)
}
