//! Where the return addresses of live frames lead.
ghost use Rattle.std.specs.Prelude.{◌≡◌, ◌<◌, Some, IfOk, length, reverse, slice_get};
ghost use Rattle.lab_core.specs.Board.{Board};
ghost use Rattle.lab_core.specs.Labs.{RepresentsBoard};
ghost use Rattle.dap_scopes.specs.Stack as stack;

use asm_build::symbols::Symbols;
use base_text::text::Text;
use lab_core::lab::Lab;
use lab_frames::frame::Frame;
use lab_frames::frames::Frames;
use lab_views::names::routine_name;
use std::alloc::{AllocError, Global};

/// A live frame by its age, where 0 is the innermost.
fn frame_at(frames: &Frames, age: usize) -> Frame
    requires { age < length frames.now }
    ensures { slice_get (reverse frames.now) age ≡ Some result }
{
    match frames.get(age) {
        Some(frame) => frame,
        None => unreachable!(),
    }
}

/// Of the frame whose return address is at an address, if there is one: the next older frame, if there is
/// one.
fn older_than(address: u16, frames: &Frames) -> Option<Option<Frame>>
    ensures { result ≡ stack.older_than address (reverse frames.now) }
{
    for age in 0..frames.len() {
        if frame_at(frames, age).slot == address {
            return Some(frames.get(age + 1));
        }
    }
    None
}

fn frame_name(alloc: Global, symbols: &Symbols, frame: Option<Frame>) -> Result<Text, AllocError>
    ensures { IfOk result (λ name. name ≡ stack.frame_name symbols.now frame) }
{
    match frame {
        None => Text::copy_of(alloc, "main"),
        Some(frame) => routine_name(alloc, symbols, frame.target),
    }
}

/// The name of the routine to which the return address of a live frame leads back.
pub(crate) fn returns_to(alloc: Global, lab: &Lab, address: u16) -> Result<Option<Text>, AllocError>
    ensures { (b : Board) → RepresentsBoard lab.now b
        → IfOk result (λ name. name ≡ stack.returns_to b address) }
{
    match older_than(address, lab.frames()) {
        None => Ok(None),
        Some(older) => {
            let name = frame_name(alloc, lab.symbols(), older)?;
            Ok(Some(name))
        }
    }
}
