//! Going back over instructions.
ghost use Rattle.std.specs.Prelude.{◌≡◌, ◌≤◌};
ghost use Rattle.lab_core.specs.Board.{Board};
ghost use Rattle.lab_core.specs.Labs.{RepresentsBoard};
ghost use Rattle.dap_disassembly.specs.Instructions as instructions;

use lab_core::lab::Lab;

/// Whether a loaded statement begins at `start`, and the line of code there ends right before `address`.
fn ends_before(lab: &Lab, address: u16, start: u16) -> bool
    ensures { (b : Board) → RepresentsBoard lab.now b → result ≡ instructions.ends_before b address start }
{
    match lab.origin_at(start) {
        Some(origin) => origin.is_first && lab.after_instructions(start, 1) == address,
        None => false,
    }
}

/// The address at which the instruction before an address begins.
fn instruction_before(lab: &Lab, address: u16) -> u16
    ensures { (b : Board) → RepresentsBoard lab.now b → result ≡ instructions.instruction_before b address }
{
    let one_byte = address.wrapping_sub(1);
    let two_bytes = address.wrapping_sub(2);
    let three_bytes = address.wrapping_sub(3);
    if ends_before(lab, address, one_byte) {
        return one_byte;
    }
    if ends_before(lab, address, two_bytes) {
        return two_bytes;
    }
    if ends_before(lab, address, three_bytes) {
        return three_bytes;
    }
    one_byte
}

/// The address `count` instructions before another one, at most 65,536 of them. Addresses wrap.
///
/// Code can't be read backwards: the instruction before an address is the nearest one at which a loaded
/// statement begins and that ends right before the address, as the code view shows it on this memory. If
/// there is none, it is the byte before.
pub fn before_instructions(lab: &Lab, address: u16, count: u32) -> u16
    requires { count ≤ 65536 }
    ensures { (b : Board) → RepresentsBoard lab.now b
        → result ≡ instructions.before_instructions b address count }
{
    let mut first = address;
    for _ in 0..count {
        first = instruction_before(lab, first);
    }
    first
}
