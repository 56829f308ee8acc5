//! Changes of the machine by hand, in any state of the run.
ghost use Rattle.std.specs.Prelude.{◌≡◌};
ghost use Rattle.lab_core.specs.Board.{Board};
ghost use Rattle.lab_core.specs.Changes.{with_bytes, after_write, after_registers};
ghost use Rattle.lab_core.specs.Labs.{RepresentsBoard};

use crate::lab::Lab;
use i80_exec::machine::Machine;
use i80_exec::registers::Registers;

impl Lab {
    /// Writes bytes to memory from an address on, wrapping from FFFFH to 0000H. This isn't a step of the run.
    pub fn write(&mut self, address: u16, bytes: &[u8])
        ensures { (b : Board) → RepresentsBoard self.old b
            → RepresentsBoard self.new (after_write address bytes.now b) }
    {
        store(&mut self.machine, address, bytes);
    }

    /// Sets the registers, flags and interrupt state. If SP rises, a pending Step is canceled. It is no step.
    pub fn set_registers(&mut self, registers: Registers)
        ensures { (b : Board) → RepresentsBoard self.old b
            → RepresentsBoard self.new (after_registers registers b) }
    {
        let rises = self.machine.sp() < registers.sp;
        let request = if rises { None } else { self.context.request };
        self.machine.set_regs(registers);
        self.context.request = request;
    }
}

// Stores bytes from an address on. Addresses wrap.
fn store(machine: &mut Machine, start: u16, bytes: &[u8])
    ensures { machine.new ≡ with_bytes start bytes.now machine.old }
{
    let mut address = start;
    for byte in bytes {
        machine.poke(address, *byte);
        address = address.wrapping_add(1);
    }
}
