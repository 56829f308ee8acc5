//! What tests compare of a run.
use crate::history::play::Live;
use i80_exec::registers::Interrupts;
use lab_core::lab::Lab;
use lab_frames::frame::Frame;
use std::alloc::AllocError;

/// What a run was after a count of steps, and with all inputs until then.
#[derive(Clone, Copy)]
pub struct Seen {
    pub count: u64,
    pub hash: u64,
    pub pc: u16,
    /// Whether a statement begins at PC.
    pub is_first: bool,
    /// How many frames were live.
    pub depth: usize,
}

/// What tests note.
#[derive(Drop)]
pub struct Notes {
    pub seen: Vec<Seen>,
    /// The first row that was wrong, and how many steps the run had made.
    pub wrong: Option<(usize, u64)>,
}

impl Notes {
    /// Keeps the row, if it is the first one that is wrong.
    pub fn tell(&mut self, is_right: bool, row: usize, count: u64) {
        if !is_right && self.wrong.is_none() {
            self.wrong = Some((row, count));
        }
    }
}

// One more number in a hash (Fowler, Noll and Vo's 1a).
fn mixed(hash: u64, number: u16) -> u64 {
    (hash ^ u64::from(number)).wrapping_mul(1_099_511_628_211)
}

fn with_bytes(hash: u64, lab: &Lab, start: u16, count: u16) -> u64 {
    let mut hash = hash;
    for i in 0..count {
        hash = mixed(hash, u16::from(lab.peek(start.wrapping_add(i))));
    }
    hash
}

fn with_frame(hash: u64, frame: Frame) -> u64 {
    mixed(mixed(mixed(hash, frame.slot), frame.target), frame.site)
}

fn with_frames(hash: u64, lab: &Lab) -> u64 {
    let mut hash = hash;
    for age in 0..lab.frames().len() {
        if let Some(frame) = lab.frames().get(age) {
            hash = with_frame(hash, frame);
        }
    }
    mixed(hash, (lab.frames().len() & 0xffff) as u16)
}

fn with_registers(hash: u64, lab: &Lab) -> u64 {
    let registers = lab.regs();
    let bytes = [
        registers.a,
        registers.b,
        registers.c,
        registers.d,
        registers.e,
        registers.h,
        registers.l,
        registers.flags.to_byte(),
    ];
    let mut hash = hash;
    for byte in bytes {
        hash = mixed(hash, u16::from(byte));
    }
    let interrupts = match registers.interrupts {
        Interrupts::Off => 0,
        Interrupts::On => 1,
        Interrupts::Arming => 2,
    };
    mixed(mixed(mixed(hash, registers.pc), registers.sp), interrupts)
}

fn with_devices(hash: u64, lab: &Lab) -> u64 {
    let devices = lab.devices();
    let waiting = mixed(hash, (devices.bytes_waiting() & 0xffff) as u16);
    let panel = mixed(
        mixed(waiting, u16::from(devices.switches())),
        u16::from(devices.lamps()),
    );
    mixed(panel, devices.request().map_or(8, u16::from))
}

/// A hash of what the run of this board is now: the registers; the bytes below 0100H, those from 0200H to
/// 023FH, and those from 3F80H to 3FFFH; the live frames; and the devices.
pub fn see(lab: &Lab) -> u64 {
    let registers = with_registers(14_695_981_039_346_656_037, lab);
    let low = with_bytes(registers, lab, 0, 0x100);
    let data = with_bytes(low, lab, 0x200, 0x40);
    let stack = with_bytes(data, lab, 0x3f80, 0x80);
    with_devices(with_frames(stack, lab), lab)
}

fn seen_now(live: &Live) -> Seen {
    let pc = live.lab.regs().pc;
    Seen {
        count: live.count,
        hash: see(&live.lab),
        pc,
        is_first: match live.lab.origin_at(pc) {
            Some(origin) => origin.is_first,
            None => false,
        },
        depth: live.lab.frames().len(),
    }
}

/// Notes what the run is now, in place of what it was after as many steps.
pub fn note(notes: &mut Notes, live: &Live) -> Result<(), AllocError> {
    if let Some(last) = notes.seen.last()
        && last.count == live.count
    {
        let _ = notes.seen.pop();
    }
    notes.seen.push(seen_now(live))?;
    Ok(())
}
