//! Memory as lines of disassembly.
ghost use Rattle.std.specs.Prelude.{◌≡◌, IfOk};
ghost use Rattle.lab_views.specs.Code as code;

use base_text::sequence::{Bytes, Sequence};
use base_text::text::Text;
use i80_dis::line::line_at;
use i80_exec::machine::Machine;
use i80_rows::decoding::decode;
use lab_shown::shown::CodeLine;
use std::alloc::{AllocError, Global};

/// The three bytes from an address on, which is what the longest instruction has.
fn bytes_at(machine: &Machine, address: u16) -> [u8; 3]
    ensures { result ≡ code.bytes_at machine.now address }
{
    [
        machine.peek(address),
        machine.peek(address.wrapping_add(1)),
        machine.peek(address.wrapping_add(2)),
    ]
}

/// The address after the line at this one.
fn next_address(machine: &Machine, address: u16) -> u16
    ensures { result ≡ code.next_address machine.now address }
{
    let length = match decode(&bytes_at(machine, address)) {
        Ok((_, length)) => length,
        // An undefined opcode is a line by itself.
        Err(_) => 1,
    };
    address.wrapping_add(u16::from(length))
}

fn code_line(alloc: Global, machine: &Machine, address: u16) -> Result<CodeLine, AllocError>
    ensures { IfOk result (λ line. line ≡ code.line_at machine.now address) }
{
    let all = bytes_at(machine, address);
    let line = line_at(alloc, &all, address)?;
    let mut bytes = Bytes::copy_of(alloc, &all)?;
    bytes.truncate(usize::from(line.length));
    Ok(CodeLine {
        address,
        bytes,
        text: Text::from(line.text),
    })
}

/// That many lines from an address on.
pub(crate) fn lines(
    alloc: Global,
    machine: &Machine,
    address: u16,
    count: u32,
) -> Result<Sequence<CodeLine>, AllocError>
    ensures { IfOk result (λ lines. lines ≡ code.lines_from machine.now address count) }
{
    let mut next = address;
    let mut lines = Sequence::new(alloc);
    for _ in 0..count {
        let line = code_line(alloc, machine, next)?;
        lines.push(line)?;
        next = next_address(machine, next);
    }
    Ok(lines)
}

/// The address after that many instructions, which are counted as lines of a listing.
pub(crate) fn after(machine: &Machine, address: u16, count: u16) -> u16
    ensures { result ≡ code.after_instructions machine.now address count }
{
    let mut next = address;
    for _ in 0..count {
        next = next_address(machine, next);
    }
    next
}
