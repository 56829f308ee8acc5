//! How far a program is, and what its run's end makes of it.
ghost use Rattle.std.specs.Prelude.{◌≡◌, option_map};
ghost use Rattle.dap_run.specs.Lives as lives;
ghost use Rattle.dap_run.specs.Lives.{is_live, held_for, held_ends, ended_program, end_of};
ghost use Rattle.dap_run.specs.Lives.{exception_of};

use crate::end::{EndPolicy, exception_at, policy_at};
use crate::program::{Phase, Program};
use dap_messages::message::UndefinedOpcode;
use dap_requests::request::{ExceptionFilters, Launch};
use lab_core::answer::End;

/// Of an editor that set no filter.
pub const NO_FILTERS: ExceptionFilters = ExceptionFilters {
    undefined: false,
    halt: false,
};

/// Whether a program was launched and isn't over.
pub fn is_live(program: &Option<Program>) -> bool
    ensures { result ≡ is_live program.now }
{
    match program {
        None => false,
        Some(program) => !matches!(program.phase, Phase::Over),
    }
}

/// Ends the program, if one was launched.
pub fn end_program(program: &mut Option<Program>)
    ensures { program.new ≡ option_map (lives.in_phase Phase.Over) program.old }
{
    if let Some(program) = program {
        program.phase = Phase::Over;
    }
}

fn held_for(filters: ExceptionFilters, launch: &Launch) -> ExceptionFilters
    ensures { result ≡ held_for filters launch.now }
{
    ExceptionFilters {
        undefined: launch.is_debugged && (launch.stops_at_end || filters.undefined),
        halt: launch.is_debugged && (launch.stops_at_end || filters.halt),
    }
}

/// The ends at which the program's run is held.
pub fn held_ends(filters: ExceptionFilters, program: &Option<Program>) -> ExceptionFilters
    ensures { result ≡ held_ends filters program.now }
{
    match program {
        None => NO_FILTERS,
        Some(program) => held_for(filters, &program.launch),
    }
}

// How far a program is after its run ended.
fn ended_phase(policy: EndPolicy, end: End) -> Phase
    ensures { result ≡ lives.ended_phase policy end }
{
    match policy {
        EndPolicy::Exit => Phase::Over,
        EndPolicy::Hold => Phase::Held(end),
    }
}

/// Notes that the program's run ended.
pub fn note_end(program: &mut Option<Program>, filters: ExceptionFilters, end: End)
    ensures { program.new ≡ option_map (ended_program filters end) program.old }
{
    if let Some(program) = program {
        let policy = policy_at(held_for(filters, &program.launch), end);
        program.phase = ended_phase(policy, end);
    }
}

fn released_phase(phase: Phase) -> Phase
    ensures { result ≡ lives.released_phase phase }
{
    match phase {
        Phase::Held(_) => Phase::Begun,
        Phase::Loaded | Phase::Begun | Phase::Over => phase,
    }
}

/// Lets a program whose run is held at its end go on from elsewhere.
pub fn release_program(program: &mut Option<Program>)
    ensures { program.new ≡ option_map lives.released_program program.old }
{
    if let Some(program) = program {
        program.phase = released_phase(program.phase);
    }
}

/// How the run ended that is held there, if one is.
pub fn end_of(program: &Option<Program>) -> Option<End>
    ensures { result ≡ end_of program.now }
{
    match program.as_ref()?.phase {
        Phase::Held(end) => Some(end),
        Phase::Loaded | Phase::Begun | Phase::Over => None,
    }
}

/// The opcode that ended the run that is held there, if one did.
pub fn exception_of(program: &Option<Program>) -> Option<UndefinedOpcode>
    ensures { result ≡ exception_of program.now }
{
    exception_at(end_of(program)?)
}
