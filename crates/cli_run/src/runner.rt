//! A machine with its devices, stepped until its program ends.
ghost use Rattle.std.specs.Prelude.{◌≡◌, ◌++◌, OnOk, IfOk, string_bytes};
ghost use Rattle.cli_run.specs.Computer.{Computer, fresh, end_of, stored_from};
ghost use Rattle.cli_run.specs.RunText.{run_text, run_end_text};
ghost use Rattle.i80_exec.specs.State.{power_on};

use crate::ending::Ending;
use crate::printing::{push_ending, push_registers};
use i80_base::instruction::DecodeFault;
use i80_devs::devices::Devices;
use i80_exec::machine::Machine;
use i80_exec::registers::{Interrupts, Registers, Stepped};
use i80_rows::decoding::decode_on;
use std::alloc::{AllocError, Global};
use std::marker::Model;

/// A machine and its devices, with the outcome of the last step.
#[derive(Drop)]
pub struct Runner {
    machine: Machine,
    devices: Devices,
    last: Stepped,
}

impl Model for Runner {
    ghost use Rattle.cli_run.specs.Runner.{RunnerState};

    ghost Value = { RunnerState };

    ghost view = { λ r. record { machine = r.machine; devices = r.devices; last = r.last } };
}

impl Runner {
    ghost use Rattle.cli_run.specs.Runner.{RepresentsComputer, Steps, HasRun};

    /// A runner of this machine, with new devices.
    pub fn new(alloc: Global, machine: Machine) -> Runner
        ensures { RepresentsComputer result (fresh machine) }
    {
        Runner {
            machine,
            devices: Devices::new(alloc),
            last: Stepped::Done,
        }
    }

    /// Appends the registers after each of at most `limit` steps, and how the run ended.
    pub fn print_run(&mut self, limit: u64, text: &mut String) -> Result<(), AllocError>
        ensures { OnOk result ((start : Computer) → RepresentsComputer self.old start
            → string_bytes text.new ≡ string_bytes text.old ++ run_text limit start) }
    {
        for _ in 0..limit {
            match self.ending(false) {
                Some(ending) => {
                    push_ending(text, ending)?;
                    return Ok(());
                }
                None => {
                    self.step()?;
                    push_registers(text, &self.regs())?;
                }
            }
        }
        if let Some(ending) = self.ending(true) {
            push_ending(text, ending)?;
        }
        Ok(())
    }

    /// Appends the registers at the end of a run of at most `limit` steps, and how it ended.
    pub fn print_end(&mut self, limit: u64, text: &mut String) -> Result<(), AllocError>
        ensures { OnOk result ((start : Computer) → RepresentsComputer self.old start
            → string_bytes text.new ≡ string_bytes text.old ++ run_end_text limit start) }
    {
        let ending = self.run(limit)?;
        push_registers(text, &self.regs())?;
        if let Some(ending) = ending {
            push_ending(text, ending)?;
        }
        Ok(())
    }

    /// Makes at most `limit` steps, up to the end of the run.
    fn run(&mut self, limit: u64) -> Result<Option<Ending>, AllocError>
        ensures { IfOk result (λ ending. (start : Computer) → RepresentsComputer self.old start
            → HasRun limit start self.new ending) }
    {
        for _done in 0..limit {
            match self.ending(false) {
                Some(ending) => return Ok(Some(ending)),
                None => self.step()?,
            }
        }
        Ok(self.ending(true))
    }

    /// How the run ends here, if it does; `is_last` if it has had as many steps as it may have.
    fn ending(&self, is_last: bool) -> Option<Ending>
        ensures { result ≡ end_of is_last self.now.last self.now.machine }
    {
        let regs = self.machine.regs();
        if let Stepped::Halted = self.last {
            return Some(match regs.interrupts {
                Interrupts::Off => Ending::Halted,
                _ => Ending::Waiting,
            });
        }
        if is_last {
            return Some(Ending::Limit);
        }
        let opcode = self.machine.peek(regs.pc);
        match decode_on(&[opcode], self.machine.board()) {
            Err(DecodeFault::Undefined) => Some(Ending::Undefined(opcode)),
            _ => None,
        }
    }

    fn step(&mut self) -> Result<(), AllocError>
        ensures { OnOk result (Steps self.old self.new) }
    {
        self.devices.reserve_out(1)?;
        self.last = self.machine.step(&mut self.devices);
        let _ = self.devices.take_out();
        Ok(())
    }

    fn regs(&self) -> Registers
        ensures { result ≡ self.now.machine.regs }
    {
        self.machine.regs()
    }
}

/// A machine after power-on, with these bytes stored from address 0 on.
pub fn load(alloc: Global, bytes: &[u8]) -> Result<Machine, AllocError>
    ensures { IfOk result (λ m. m ≡ stored_from 0 bytes.now power_on) }
{
    let mut machine = Machine::new(alloc)?;
    store(&mut machine, bytes);
    Ok(machine)
}

fn store(machine: &mut Machine, bytes: &[u8])
    ensures { machine.new ≡ stored_from 0 bytes.now machine.old }
{
    let mut address = 0u16;
    for byte in bytes {
        machine.poke(address, *byte);
        address = address.wrapping_add(1);
    }
}
