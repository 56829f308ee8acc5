//! The address after any number of instructions, in bounded time.
ghost use Rattle.std.specs.Prelude.{◌≡◌, ◌<◌, IfSome};
ghost use Rattle.lab_views.specs.Code as code;
ghost use Rattle.lab_core.specs.Board.{Board};
ghost use Rattle.lab_core.specs.Labs.{RepresentsBoard};

use lab_core::lab::Lab;

/// How many instructions a lab passes at once.
const STRIDE: u32 = 65_535;

/// The number of addresses.
const ADDRESSES: u32 = 65_536;

/// The number of instructions after which an address recurs, if it does.
/// No more than `ADDRESSES` need to be tried.
fn cycle_at(lab: &Lab, address: u16) -> Option<u32>
    ensures cycles { (b : Board) → RepresentsBoard lab.now b
        → IfSome result (λ n. code.after_instructions b.machine address n ≡ address) }
    ensures positive { IfSome result (λ n. 0 < n) }
{
    let mut next = address;
    for passed in 0..ADDRESSES {
        next = lab.after_instructions(next, 1);
        if next == address {
            return Some(passed + 1);
        }
    }
    None
}

/// The address after `count` instructions, found by passing each of them.
fn in_strides(lab: &Lab, address: u16, count: u32) -> u16
    ensures { (b : Board) → RepresentsBoard lab.now b
        → result ≡ code.after_instructions b.machine address count }
{
    let mut next = address;
    let mut left = count;
    while left > STRIDE {
        next = lab.after_instructions(next, STRIDE as u16);
        left -= STRIDE;
    }
    lab.after_instructions(next, left as u16)
}

/// The address `count` instructions after another one, as the code view lists them. Addresses wrap.
/// Each address has one successor, so that after 65,536 instructions the addresses repeat; whole cycles are
/// skipped.
pub fn after_instructions(lab: &Lab, address: u16, count: u32) -> u16
    ensures { (b : Board) → RepresentsBoard lab.now b
        → result ≡ code.after_instructions b.machine address count }
{
    if count <= STRIDE {
        return in_strides(lab, address, count);
    }
    let far = in_strides(lab, address, STRIDE);
    let left = count - STRIDE;
    match cycle_at(lab, far) {
        Some(cycle) => in_strides(lab, far, left % cycle),
        None => in_strides(lab, far, left),
    }
}
