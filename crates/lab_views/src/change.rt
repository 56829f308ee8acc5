//! A change by hand.
ghost use Rattle.std.specs.Prelude.{◌≡◌, ◌≤◌};
ghost use Rattle.lab_views.specs.Values.{largest_at};
ghost use Rattle.lab_views.specs.Changes.{machine_with};

use i80_exec::machine::Machine;
use lab_shown::place::Place;

/// Puts a value at a place. Nothing else changes: no flag, no interrupt state, no other byte.
pub fn put(machine: &mut Machine, place: Place, value: u16)
    requires { value ≤ largest_at place }
    ensures { machine.new ≡ machine_with place value machine.old }
{
    let mut regs = machine.regs();
    match place {
        Place::A => regs.a = value as u8,
        Place::B => regs.b = value as u8,
        Place::C => regs.c = value as u8,
        Place::D => regs.d = value as u8,
        Place::E => regs.e = value as u8,
        Place::H => regs.h = value as u8,
        Place::L => regs.l = value as u8,
        Place::Sp => regs.sp = value,
        Place::Pc => regs.pc = value,
        Place::Memory(address) => return machine.poke(address, value as u8),
    }
    machine.set_regs(regs);
}
