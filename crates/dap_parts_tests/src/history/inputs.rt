//! Inputs as tests write them.
ghost use Rattle.lab_core.specs.Events.{Fits};

use crate::history::play::{Live, numbers, told};
use crate::history::seen::{Notes, note};
use base_text::sequence::Bytes;
use dap_history::input::Input;
use i80_base::flags::Flags;
use i80_exec::registers::{Interrupts, Registers};
use lab_core::event::Event;
use lab_core::lab::Lab;
use std::alloc::{AllocError, Global};

// A to L become 1 to 7, of the flags S and CY are set.
fn registers(pc: u64, sp: u64) -> Registers {
    Registers {
        a: 1,
        b: 2,
        c: 3,
        d: 4,
        e: 5,
        h: 6,
        l: 7,
        flags: Flags::from_byte(0x83),
        sp: (sp & 0xffff) as u16,
        pc: (pc & 0xffff) as u16,
        interrupts: Interrupts::On,
    }
}

// Bytes to type, so many.
fn many(alloc: Global, count: u64) -> Result<Bytes, AllocError> {
    let bytes = vec![in alloc; 7u8; (count & 0xff_ffff) as usize]?;
    Ok(Bytes::from(bytes))
}

/// An input that types so many bytes.
pub fn typed(alloc: Global, count: u64) -> Result<Input, AllocError> {
    Ok(Input::Typed(many(alloc, count)?))
}

fn written(alloc: Global, address: u64, text: &str) -> Result<Input, AllocError> {
    let bytes = Bytes::copy_of(alloc, text.as_bytes())?;
    Ok(Input::Write {
        address: (address & 0xffff) as u16,
        bytes,
    })
}

// The input of a line, as a history takes it: type and a text, many and how many bytes are typed, switches
// or press and a number, registers and what PC and SP are set to, or write, an address and a text.
fn input_of(alloc: Global, (word, rest): (&str, &str)) -> Result<Input, AllocError> {
    let [n, second, _] = numbers(rest);
    match word {
        "type" => Ok(Input::Typed(Bytes::copy_of(alloc, rest.as_bytes())?)),
        "many" => typed(alloc, n),
        "switches" => Ok(Input::Switches((n & 0xff) as u8)),
        "press" => Ok(Input::Press((n & 0xff) as u8)),
        "registers" => Ok(Input::Registers(registers(n, second))),
        _ => written(alloc, n, rest.split_once(" ").unwrap_or(("", "")).1),
    }
}

// Does an event, whatever it answers.
fn do_event(alloc: Global, lab: &mut Lab, event: Event) -> Result<(), AllocError>
    requires { Fits event }
{
    let answer = told(alloc, lab, event)?;
    drop(answer);
    Ok(())
}

// Does to a board what the input says, by the board's own calls.
fn give(alloc: Global, lab: &mut Lab, input: Input) -> Result<(), AllocError> {
    match input {
        Input::Typed(bytes) => do_event(alloc, lab, Event::Typed(bytes)),
        Input::Switches(byte) => do_event(alloc, lab, Event::Switches(byte)),
        Input::Press(n) => do_event(alloc, lab, Event::Press(n)),
        Input::Registers(registers) => {
            lab.set_registers(registers);
            Ok(())
        }
        Input::Write { address, bytes } => {
            lab.write(address, bytes.as_slice());
            drop(bytes);
            Ok(())
        }
    }
}

// Records an input. Gives whether it did.
fn is_recorded(live: &mut Live, input: Input) -> bool {
    let _ = live.history.forget_after(live.count);
    live.history.record(live.count, input).is_ok()
}

/// Changes a run where it is, and records that, at the second try if the first finds no memory.
pub fn change(live: &mut Live, notes: &mut Notes, line: (&str, &str)) -> Result<bool, AllocError> {
    let input = input_of(live.alloc, line)?;
    give(live.alloc, &mut live.lab, input)?;
    if live.is_plain {
        note(notes, live)?;
        return Ok(true);
    }
    let input = input_of(live.alloc, line)?;
    if is_recorded(live, input) {
        return Ok(true);
    }
    let input = input_of(live.alloc, line)?;
    Ok(is_recorded(live, input))
}
