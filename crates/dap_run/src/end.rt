//! The end of a run.
ghost use Rattle.std.specs.Prelude.{◌≡◌};
ghost use Rattle.lab_core.specs.Board.{Board};
ghost use Rattle.lab_core.specs.Labs.{RepresentsBoard};
ghost use Rattle.dap_run.specs.Ends as ends;
ghost use Rattle.dap_run.specs.Ends.{exit_code, exception_at, stop_at, left_at_end, held_at_end};

use dap_messages::message::{EditorStop, UndefinedOpcode};
use dap_requests::request::ExceptionFilters;
use lab_core::answer::{End, SliceOutcome};
use lab_core::lab::Lab;

/// What becomes of a program whose run ends.
#[derive(Clone, Copy)]
pub enum EndPolicy {
    /// It is over.
    Exit,
    /// It is stopped there, with all that it left.
    Hold,
}

/// The exit code of a program whose run ended so.
pub fn exit_code(end: End) -> u8
    ensures { result ≡ exit_code end }
{
    match end {
        End::Halted => 0,
        End::Undefined { .. } => 1,
    }
}

/// The opcode that ended a run, if one did.
pub fn exception_at(end: End) -> Option<UndefinedOpcode>
    ensures { result ≡ exception_at end }
{
    match end {
        End::Halted => None,
        End::Undefined { opcode, pc } => Some(UndefinedOpcode { opcode, pc }),
    }
}

/// Why an editor shows a program as stopped whose run ended so.
pub fn stop_at(end: End) -> EditorStop
    ensures { result ≡ stop_at end }
{
    match exception_at(end) {
        None => EditorStop::Halted,
        Some(undefined) => EditorStop::Exception(undefined),
    }
}

fn leave_at_end(lab: &mut Lab, policy: EndPolicy)
    ensures { (b : Board) → RepresentsBoard lab.old b → RepresentsBoard lab.new (left_at_end policy b) }
{
    match policy {
        EndPolicy::Exit => {}
        EndPolicy::Hold => lab.hold(),
    }
}

fn is_held_at(held: ExceptionFilters, end: End) -> bool
    ensures { result ≡ ends.is_held_at held end }
{
    match end {
        End::Halted => held.halt,
        End::Undefined { .. } => held.undefined,
    }
}

/// What becomes of a program whose run ended so, by the ends at which it is held.
pub fn policy_at(held: ExceptionFilters, end: End) -> EndPolicy
    ensures { result ≡ ends.policy_at held end }
{
    if is_held_at(held, end) {
        EndPolicy::Hold
    } else {
        EndPolicy::Exit
    }
}

/// Stops a run at its end if it is to be held there.
pub fn hold_at_end(lab: &mut Lab, held: ExceptionFilters, outcome: SliceOutcome)
    ensures { (b : Board) → RepresentsBoard lab.old b
        → RepresentsBoard lab.new (held_at_end held outcome b) }
{
    match outcome {
        SliceOutcome::More | SliceOutcome::Waiting | SliceOutcome::Stop(_) => {}
        SliceOutcome::End(end) => leave_at_end(lab, policy_at(held, end)),
    }
}
