//! Steps and inputs that are made again.
ghost use Rattle.std.specs.Prelude.{◌≡◌, ◌≤◌, ◌↔◌, IfOk, OnOk, OnErr, IsTrue, Err};
ghost use Rattle.lab_core.specs.declared.run_state.RunState.TheVariants.{Running};
ghost use Rattle.lab_core.specs.Board.{Board};
ghost use Rattle.lab_core.specs.Slices.{after_steps, left_by};
ghost use Rattle.lab_core.specs.Labs.{RepresentsBoard};
ghost use Rattle.lab_core.specs.Events.{Fits};
ghost use Rattle.lab_core.specs.Moments.{IsMomentOf, put_back};
ghost use Rattle.dap_history.specs.Runs.{after_event, after_input, at_from, RunsDetached};
ghost use Rattle.dap_history.specs.Runs.{IsWholeSlice, KeepsRest, OnlyRunChanges};

use crate::fault::ReplayFault;
use crate::input::{Input, Recorded};
use base_text::sequence::Bytes;
use lab_core::answer::{Answer, SliceOutcome};
use lab_core::event::Event;
use lab_core::fault::EventFault;
use lab_core::lab::Lab;
use lab_core::lab::moments::Moment;
use std::alloc::{AllocError, Global};

/// The most steps that a slice makes.
const SLICE: u64 = 4096;

// How a slice ended that was to make `n` steps, and made them.
fn outcome_of(answer: Result<Answer, EventFault>, n: u16) -> Result<SliceOutcome, ReplayFault>
    ensures { IfOk result (λ outcome. IsWholeSlice n answer outcome) }
{
    match answer {
        Ok(
            Answer::Sliced {
                executed,
                traffic,
                outcome,
            },
        ) => {
            drop(traffic);
            if executed == n {
                Ok(outcome)
            } else {
                Err(ReplayFault::NotReached)
            }
        }
        Err(EventFault::OutOfMemory) => Err(ReplayFault::OutOfMemory),
        other => {
            drop(other);
            Err(ReplayFault::NotReached)
        }
    }
}

// Makes a slice of `n` steps, and returns how it ended.
fn slice(lab: &mut Lab, n: u16) -> Result<SliceOutcome, ReplayFault>
    requires some { 1 ≤ n }
    requires few { n ≤ 4096 }
    ensures ok { (b : Board) → RepresentsBoard lab.old b → b.run ≡ Running
        → IfOk result (λ outcome. RepresentsBoard lab.new (left_by outcome (after_steps n b))) }
    ensures rest { OnlyRunChanges lab.old lab.new }
{
    let event = Event::Slice(n);
    let answer = lab.apply(&event);
    drop(event);
    outcome_of(answer, n)
}

/// Lets a run go on that has just stopped or ended, with no debugger attached.
pub fn go_on(lab: &mut Lab) -> Result<(), AllocError>
    ensures ok { (b : Board) → RepresentsBoard lab.old b
        → OnOk result (RepresentsBoard lab.new (put_back b b)) }
    ensures err { OnErr result (lab.new ≡ lab.old) }
{
    let moment = lab.moment()?;
    lab.put_back(&moment)
}

// Makes `n` steps. The run goes on after HLT too, since registers may be changed by hand there.
fn make_few(lab: &mut Lab, n: u16) -> Result<(), ReplayFault>
    requires some { 1 ≤ n }
    requires few { n ≤ 4096 }
    ensures ok { (was now : Board) → RunsDetached was now lab.old
        → OnOk result (RunsDetached (after_steps n was) now lab.new) }
    ensures rest { OnlyRunChanges lab.old lab.new }
{
    match slice(lab, n)? {
        SliceOutcome::More => Ok(()),
        _ => {
            go_on(lab)?;
            Ok(())
        }
    }
}

// How many of so many steps the next slice makes.
fn few_of(left: u64) -> u16
    requires { 1 ≤ left }
    ensures some { 1 ≤ result }
    ensures few { result ≤ 4096 }
    ensures within { result ≤ left }
{
    left.min(SLICE) as u16
}

fn make_steps(lab: &mut Lab, count: u64) -> Result<(), ReplayFault>
    ensures ok { (was now : Board) → RunsDetached was now lab.old
        → OnOk result (RunsDetached (after_steps count was) now lab.new) }
    ensures rest { OnlyRunChanges lab.old lab.new }
{
    let mut made = 0u64;
    while made < count {
        let n = few_of(count - made);
        make_few(lab, n)?;
        made += u64::from(n);
    }
    Ok(())
}

fn is_out_of_memory(answer: Result<Answer, EventFault>) -> bool
    ensures { IsTrue result ↔ (answer ≡ Err EventFault.OutOfMemory) }
{
    let is_so = matches!(answer, Err(EventFault::OutOfMemory));
    drop(answer);
    is_so
}

// Applies an event again. A refusal leaves the board, as it did the first time.
fn apply(lab: &mut Lab, event: Event) -> Result<(), AllocError>
    requires { Fits event }
    ensures ok { (b : Board) → RepresentsBoard lab.old b
        → OnOk result (RepresentsBoard lab.new (after_event event b)) }
    ensures err { OnErr result (lab.new ≡ lab.old) }
{
    let answer = lab.apply(&event);
    drop(event);
    if is_out_of_memory(answer) {
        return Err(AllocError);
    }
    Ok(())
}

// Types bytes again.
fn type_bytes(alloc: Global, lab: &mut Lab, bytes: &[u8]) -> Result<(), AllocError>
    ensures ok { (b : Board) → RepresentsBoard lab.old b
        → OnOk result (RepresentsBoard lab.new (after_event (Event.Typed bytes.now) b)) }
    ensures err { OnErr result (lab.new ≡ lab.old) }
{
    let copy = Bytes::copy_of(alloc, bytes)?;
    apply(lab, Event::Typed(copy))
}

/// Makes an input. If memory runs out, the board doesn't change.
pub fn redo(alloc: Global, lab: &mut Lab, input: &Input) -> Result<(), AllocError>
    ensures ok { (b : Board) → RepresentsBoard lab.old b
        → OnOk result (RepresentsBoard lab.new (after_input input.now b)) }
    ensures err { OnErr result (lab.new ≡ lab.old) }
{
    match input {
        Input::Typed(bytes) => type_bytes(alloc, lab, bytes.as_slice()),
        Input::Switches(byte) => apply(lab, Event::Switches(*byte)),
        Input::Press(n) => apply(lab, Event::Press(*n)),
        Input::Registers(registers) => {
            lab.set_registers(*registers);
            Ok(())
        }
        Input::Write { address, bytes } => {
            lab.write(*address, bytes.as_slice());
            Ok(())
        }
    }
}

/// Makes a run with no debugger go on from where it had made `from` steps to where it has made `to`, with
/// these inputs on the way.
pub fn replay(
    alloc: Global,
    lab: &mut Lab,
    log: &[Recorded],
    from: u64,
    to: u64,
) -> Result<(), ReplayFault>
    ensures ok { (was now : Board) → RunsDetached was now lab.old
        → OnOk result (RunsDetached (at_from from was log.now to) now lab.new) }
    ensures rest { OnlyRunChanges lab.old lab.new }
{
    let mut at = from;
    let mut rest = log;
    while let Some((next, later)) = rest.split_first() {
        if next.count > to {
            break;
        }
        make_steps(lab, next.count.saturating_sub(at))?;
        redo(alloc, lab, &next.input)?;
        at = next.count;
        rest = later;
    }
    make_steps(lab, to.saturating_sub(at))
}

/// Puts a run back to a moment at which it had made `from` steps, and makes it go on from there, with no
/// debugger, to where it has made `to`, with these inputs on the way.
pub fn rewind(
    alloc: Global,
    lab: &mut Lab,
    moment: &Moment,
    log: &[Recorded],
    from: u64,
    to: u64,
) -> Result<(), ReplayFault>
    ensures ok { (was now : Board) → IsMomentOf moment.now was → RepresentsBoard lab.old now
        → OnOk result (RunsDetached (at_from from was log.now to) now lab.new) }
    ensures rest { (was now : Board) → IsMomentOf moment.now was → RepresentsBoard lab.old now
        → KeepsRest now lab.new }
{
    lab.put_back(moment)?;
    replay(alloc, lab, log, from, to)
}
