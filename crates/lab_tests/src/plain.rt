//! Chance runs of steps and changes by hand: the live frames, against those that are found by the rule over
//! all entries.
ghost use Rattle.std.specs.Prelude.{IfOk};
ghost use Rattle.lab_core.specs.Events.{Fits};

use crate::told::expect_told;
use i80_exec::registers::{Registers, Stepped};
use lab_core::event::{Event, StepRequest};
use lab_core::lab::Lab;
use lab_frames::frame::Frame;
use lab_frames::frames::Frames;
use lab_shown::step::{Granularity, StepKind};
use lab_test_kit::script::{poke, tell_event};
use std::alloc::{AllocError, Global};
use std::rt::HostRuntime;

/// A step: the frame that it made, what it answered, and SP after it.
#[derive(Clone, Copy)]
struct Entry {
    made: Option<Frame>,
    answer: Stepped,
    sp: u16,
}

impl Entry {
    /// A return from the slot, a call at or above it, or any step that leaves SP above it.
    fn ends(&self, slot: u16) -> bool {
        let by_answer = match self.answer {
            Stepped::Called { slot: called, .. } => called >= slot,
            Stepped::Returned { slot: from } => from == slot,
            _ => false,
        };
        by_answer || self.sp > slot
    }
}

fn is_live(frame: Frame, later: &[Entry]) -> bool {
    for entry in later {
        if entry.ends(frame.slot) {
            return false;
        }
    }
    true
}

// Whether the frames that these steps made and that no later one of them ends are those that are kept.
fn are_live(entries: &[Entry], frames: &Frames) -> bool {
    let mut left = frames.len();
    for (place, entry) in entries.iter().enumerate() {
        let Some(frame) = entry.made else {
            continue;
        };
        if !is_live(frame, &entries[place + 1..]) {
            continue;
        }
        if left == 0 || frames.get(left - 1) != Some(frame) {
            return false;
        }
        left -= 1;
    }
    left == 0
}

// What the instruction with this opcode answered, by the registers before and after it.
fn answer(opcode: u8, before: &Registers, after: &Registers) -> Stepped {
    let is_taken = after.sp != before.sp;
    match opcode & 0xc7 {
        0xc7 | 0xc4 if is_taken => Stepped::Called {
            slot: after.sp,
            target: after.pc,
        },
        0xc5 if opcode == 0xcd => Stepped::Called {
            slot: after.sp,
            target: after.pc,
        },
        0xc1 if opcode == 0xc9 => Stepped::Returned { slot: before.sp },
        0xc0 if is_taken => Stepped::Returned { slot: before.sp },
        _ => Stepped::Done,
    }
}

fn entry_of(opcode: u8, before: &Registers, after: &Registers) -> Entry {
    let answer = answer(opcode, before, after);
    let made = match answer {
        Stepped::Called { slot, target } => Some(Frame {
            slot,
            target,
            site: before.pc,
        }),
        _ => None,
    };
    Entry {
        made,
        answer,
        sp: after.sp,
    }
}

// Does an event. Gives whether the answer begins with this text.
fn answers(alloc: Global, lab: &mut Lab, event: Event, wanted: &str) -> bool
    requires { Fits event }
{
    let mut told = String::new(alloc);
    let put = tell_event(lab, event, &mut told);
    let is_so = put.is_ok() && told.as_str().starts_with(wanted);
    drop(told);
    is_so
}

// Asks for one step.
fn is_asked(alloc: Global, lab: &mut Lab) -> bool {
    let request = StepRequest {
        kind: StepKind::In,
        granularity: Granularity::Instruction,
    };
    answers(alloc, lab, Event::Step(request), "Accepted")
}

// Makes one step of a stopped run. None where the run has ended.
fn step(alloc: Global, lab: &mut Lab) -> Option<Entry> {
    let before = lab.regs();
    let opcode = lab.peek(before.pc);
    if !is_asked(alloc, lab) || !answers(alloc, lab, Event::Slice(1), "1 Stop(Step)") {
        return None;
    }
    let after = lab.regs();
    Some(entry_of(opcode, &before, &after))
}

fn poke_number(alloc: Global, reference: u32, name: &str, value: u16) -> Result<Event, AllocError>
    ensures { IfOk result (λ event. Fits event) }
{
    let value = format!(in alloc; "{value}")?;
    poke(alloc, reference, name, value.as_str())
}

/// Values of SP at which slots lie next to one another, and wrap.
const PLACES: [u16; 8] = [
    0xfffe, 0xffff, 0x0000, 0x0001, 0x0002, 0x0100, 0x0102, 0xfffc,
];

/// CALL, CNZ, RET, RNZ, RST 0, PUSH PSW, POP PSW, INX SP, DCX SP, SPHL, XTHL, NOP and two more.
const OPCODES: [u8; 16] = [
    0xcd, 0xc4, 0xc9, 0xc0, 0xc7, 0xf5, 0xf1, 0x33, 0x3b, 0xf9, 0xe3, 0x00, 0xcd, 0xc9, 0xcd, 0xc9,
];

/// Numbers by chance (Numerical Recipes' linear congruential generator).
fn next(number: u32) -> u32 {
    number.wrapping_mul(1_664_525).wrapping_add(1_013_904_223)
}

fn poke_at_pc(alloc: Global, lab: &Lab, opcode: u8) -> Result<Event, AllocError>
    ensures { IfOk result (λ event. Fits event) }
{
    let name = format!(in alloc; "{:04x}", lab.regs().pc)?;
    let event = poke_number(alloc, 5, name.as_str(), u16::from(opcode));
    drop(name);
    event
}

// A change by hand: SP, PC, or the byte at PC.
fn change(alloc: Global, lab: &mut Lab, number: u32) -> Result<bool, AllocError> {
    let some = (number >> 16) as u16;
    let event = match number >> 30 {
        0 => poke_number(alloc, 1, "SP", PLACES[(some % 8) as usize])?,
        1 => poke_number(alloc, 1, "PC", some % 0x0200)?,
        _ => poke_at_pc(alloc, lab, OPCODES[(some % 16) as usize])?,
    };
    Ok(answers(alloc, lab, event, "Poked"))
}

// A run that is stopped at its beginning.
fn begin(alloc: Global, lab: &mut Lab) -> bool {
    let _ = answers(alloc, lab, Event::Interrupt, "");
    answers(alloc, lab, Event::Start(0), "Started") && answers(alloc, lab, Event::Pause, "Accepted")
}

/// How many steps of a run are looked at, from its beginning.
const LENGTH: usize = 48;

// Makes a change or a step, in a new run where the last one ended or had all of its steps. Gives whether the
// frames are those of the rule.
fn go_on(
    alloc: Global,
    lab: &mut Lab,
    entries: &mut Vec<Entry>,
    number: u32,
) -> Result<bool, AllocError> {
    if number & 0x0300_0000 == 0 {
        return Ok(change(alloc, lab, number)? && are_live(entries, lab.frames()));
    }
    match step(alloc, lab) {
        Some(entry) if entries.len() < LENGTH => entries.push(entry)?,
        _ => {
            entries.clear();
            if !begin(alloc, lab) {
                return Ok(false);
            }
        }
    }
    Ok(are_live(entries, lab.frames()))
}

// The first of so many changes and steps after which the frames are others.
fn first_apart(alloc: Global, lab: &mut Lab, count: u32) -> Result<Option<u32>, AllocError> {
    let mut entries = Vec::new(alloc);
    let mut number = 1u32;
    for place in 0..count {
        number = next(number);
        if !go_on(alloc, lab, &mut entries, number)? {
            return Ok(Some(place));
        }
    }
    Ok(None)
}

// Tells after how many changes and steps a new board's frames aren't those of the rule, if they ever aren't.
fn tell_apart(alloc: Global, lab: &mut Lab, told: &mut String) -> Result<(), AllocError> {
    if !answers(alloc, lab, Event::Attach, "Accepted") || !begin(alloc, lab) {
        return told.push_str("no run");
    }
    match first_apart(alloc, lab, 20_000)? {
        Some(place) => write!(told, "after {place} changes and steps"),
        None => Ok(()),
    }
}

fn tell_on_new(alloc: Global, told: &mut String) -> Result<(), AllocError> {
    let mut lab = Lab::new(alloc)?;
    let put = tell_apart(alloc, &mut lab, told);
    drop(lab);
    put
}

#[test]
fn frames_are_those_of_the_rule(rt: HostRuntime) {
    let mut told = String::new(rt.alloc());
    let put = tell_on_new(rt.alloc(), &mut told);
    expect_told(&rt, "other frames", put, told, "");
}
