//! Calls at a desk and on a kernel, and their outcomes.
ghost use Rattle.std.specs.Prelude.{◌≡◌};

use crate::outcomes::{Outcome, outcome_of};
use kern_core::call::Reply;
use kern_core::fault::KernelFault;
use kern_core::kernel::Kernel;
use kern_desk::seated::{Desk, Pass};
use kern_test_kit::actions::{Action, call_of};
use std::alloc::Global;
use std::process::Abort;
use std::sync::Wait;

/// A row of a test: a seat, its call, and the expected outcome. The call's moment is the row's number, from
/// 0.
pub type Row = (u32, Action, Outcome);

/// A call with its moment, in seconds since 1970.
#[derive(Clone, Copy)]
pub struct TimedAction {
    pub action: Action,
    pub unix_seconds: u64,
}

/// A call and its outcome.
#[derive(Clone, Copy)]
pub struct Turn {
    pub call: TimedAction,
    pub outcome: Outcome,
}

impl Turn {
    /// The turn with this call, at this moment, and this outcome.
    pub fn new(action: Action, unix_seconds: u64, outcome: Outcome) -> Turn {
        let call = TimedAction {
            action,
            unix_seconds,
        };
        Turn { call, outcome }
    }
}

/// Makes a call at a desk.
pub fn make<R: Wait + Abort>(
    rt: &R,
    alloc: Global,
    desk: &Desk,
    pass: &mut Pass,
    call: TimedAction,
) -> Outcome
    requires { pass.old.turnstile ≡ desk.now }
    ensures { pass.new.turnstile ≡ desk.now }
{
    let call = call_of(alloc, call.action, call.unix_seconds).expect(rt, "memory for a call");
    take_outcome(desk.turn(rt, pass, call).expect(rt, "a turn"))
}

/// Makes a call on a kernel.
pub fn act<R: Abort>(rt: &R, alloc: Global, kernel: &mut Kernel, call: TimedAction) -> Outcome {
    let call = call_of(alloc, call.action, call.unix_seconds).expect(rt, "memory for a call");
    take_outcome(kernel.act(call))
}

fn take_outcome(answer: Result<Reply, KernelFault>) -> Outcome {
    let outcome = outcome_of(&answer);
    drop(answer);
    outcome
}
