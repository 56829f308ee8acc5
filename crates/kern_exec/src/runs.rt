//! Starting, interrupting and resetting a run, and console input.
ghost use Rattle.std.specs.Prelude.{◌≡◌, is_ok, OnErr, OnOk};
ghost use Rattle.i80_devs.specs.Past.{Typed};
ghost use Rattle.lab_core.specs.declared.run_state.RunState.TheVariants.{NoRun};
ghost use Rattle.lab_core.specs.Board.{Board};
ghost use Rattle.lab_core.specs.Events.{after_start, reset, with_operation};
ghost use Rattle.lab_core.specs.Labs.{RepresentsBoard};
ghost use Rattle.kern_exec.specs.Boards.{end_run_if_any};

use crate::board::apply_event;
use base_text::sequence::Bytes;
use kern_post::post::copy_bytes;
use lab_core::answer::Answer;
use lab_core::event::Event;
use lab_core::fault::EventFault;
use lab_core::lab::Lab;
use std::alloc::AllocError;

fn is_done(answer: Result<Answer, EventFault>) -> bool
    ensures { result ≡ is_ok answer }
{
    let is_done = answer.is_ok();
    drop(answer);
    is_done
}

/// Starts a run at an address. There must be none.
pub fn start(lab: &mut Lab, address: u16)
    ensures { (b : Board) → RepresentsBoard lab.old b → b.run ≡ NoRun
        → RepresentsBoard lab.new (after_start address b) }
{
    drop(apply_event(lab, Event::Start(address)));
}

/// Ends the run, if there is one.
pub fn interrupt(lab: &mut Lab)
    ensures { (b : Board) → RepresentsBoard lab.old b → RepresentsBoard lab.new (end_run_if_any b) }
{
    drop(apply_event(lab, Event::Interrupt));
}

/// Puts the machine and the devices back to their state at power-on, and ends the run.
pub fn reset(lab: &mut Lab) -> Result<(), AllocError>
    ensures ok { OnOk result ((b : Board) → RepresentsBoard lab.old b → RepresentsBoard lab.new (reset b)) }
    ensures err { OnErr result (lab.new ≡ lab.old) }
{
    if is_done(apply_event(lab, Event::Reset)) {
        return Ok(());
    }
    Err(AllocError)
}

/// Types bytes at the console.
pub fn type_bytes(lab: &mut Lab, bytes: &Bytes) -> Result<(), AllocError>
    ensures ok { OnOk result ((b : Board) → RepresentsBoard lab.old b
        → RepresentsBoard lab.new (with_operation (Typed bytes.now) b)) }
    ensures err { OnErr result (lab.new ≡ lab.old) }
{
    let bytes = copy_bytes(bytes)?;
    if is_done(apply_event(lab, Event::Typed(bytes))) {
        return Ok(());
    }
    Err(AllocError)
}
