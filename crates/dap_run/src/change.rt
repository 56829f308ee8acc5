//! Applying events to a board.
ghost use Rattle.std.specs.Prelude.{◌≡◌, true, false, Err, OnOk, OnErr};
ghost use Rattle.lab_core.specs.Board.{Board};
ghost use Rattle.lab_core.specs.Events.{Fits};
ghost use Rattle.lab_core.specs.Labs.{RepresentsBoard};
ghost use Rattle.dap_run.specs.Boards.{IsSure, after, after_goto, begin_run};

use lab_core::answer::Answer;
use lab_core::event::Event;
use lab_core::fault::EventFault;
use lab_core::lab::Lab;
use std::alloc::AllocError;

fn is_out_of_memory(answer: Result<Answer, EventFault>) -> bool
    ensures lack { answer ≡ Err EventFault.OutOfMemory → result ≡ true }
    ensures only { result ≡ true → answer ≡ Err EventFault.OutOfMemory }
{
    let is_out = matches!(answer, Err(EventFault::OutOfMemory));
    drop(answer);
    is_out
}

/// Applies an event. If the board refuses it, the board stays as it was.
pub fn change(lab: &mut Lab, event: Event) -> Result<(), AllocError>
    requires { Fits event }
    ensures ok { (b : Board) → RepresentsBoard lab.old b
        → OnOk result (RepresentsBoard lab.new (after event b)) }
    ensures err { OnErr result (lab.new ≡ lab.old) }
{
    let answer = lab.apply(&event);
    drop(event);
    if is_out_of_memory(answer) {
        return Err(AllocError);
    }
    Ok(())
}

/// Applies an event that allocates nothing. If the board refuses it, the board stays as it was.
pub fn change_surely(lab: &mut Lab, event: Event)
    requires { IsSure event }
    ensures { (b : Board) → RepresentsBoard lab.old b → RepresentsBoard lab.new (after event b) }
{
    let answer = lab.apply(&event);
    drop(event);
    drop(answer);
}

/// Sets PC by hand.
pub fn set_pc(lab: &mut Lab, address: u16)
    ensures { (b : Board) → RepresentsBoard lab.old b → RepresentsBoard lab.new (after_goto address b) }
{
    let mut registers = lab.regs();
    registers.pc = address;
    lab.set_registers(registers);
}

/// Begins a run at an address.
pub fn begin(lab: &mut Lab, start: u16)
    ensures { (b : Board) → RepresentsBoard lab.old b → RepresentsBoard lab.new (begin_run start false b) }
{
    change_surely(lab, Event::Start(start));
}

/// Begins a run at an address, and stops it before its first step.
pub fn begin_stopped(lab: &mut Lab, start: u16)
    ensures { (b : Board) → RepresentsBoard lab.old b → RepresentsBoard lab.new (begin_run start true b) }
{
    begin(lab, start);
    change_surely(lab, Event::Pause);
}
