//! How a launched program begins.
ghost use Rattle.std.specs.Prelude.{◌≡◌, OnOk, OnErr, IfOk};
ghost use Rattle.lab_core.specs.Board.{Board};
ghost use Rattle.lab_core.specs.Labs.{RepresentsBoard};
ghost use Rattle.dap_run.specs.Boards.{begin_run};
ghost use Rattle.dap_launch.specs.Programs.{pauses, with_input, begun_board, begun_if, board_if};

use base_text::latin::to_bytes;
use dap_requests::request::Launch;
use dap_run::change::{begin, begin_stopped, change};
use dap_run::program::{LoadedProgram, Phase, Program};
use lab_core::event::Event;
use lab_core::lab::Lab;
use std::alloc::{AllocError, Global};

/// Whether a launched program stops before its first instruction.
pub fn pauses(launch: &Launch) -> bool
    ensures { result ≡ pauses launch.now }
{
    launch.stops_on_entry && launch.is_debugged
}

fn begin_run(lab: &mut Lab, program: &Program)
    ensures { (b : Board) → RepresentsBoard lab.old b → RepresentsBoard lab.new
        (begin_run program.now.start (pauses program.now.launch) b) }
{
    if pauses(&program.launch) {
        begin_stopped(lab, program.start);
    } else {
        begin(lab, program.start);
    }
}

// Types on the board's keyboard.
fn type_input(alloc: Global, lab: &mut Lab, input: &str) -> Result<(), AllocError>
    ensures ok { (b : Board) → RepresentsBoard lab.old b
        → OnOk result (RepresentsBoard lab.new (with_input input.now b)) }
    ensures err { OnErr result (lab.new ≡ lab.old) }
{
    if input.is_empty() {
        return Ok(());
    }
    let bytes = to_bytes(alloc, input)?;
    change(lab, Event::Typed(bytes))
}

/// Begins a run of the program, stopped before its first step if it was launched so. What is typed before
/// that step is typed first, since only that allocates.
pub fn begin_program(alloc: Global, lab: &mut Lab, program: &Program) -> Result<(), AllocError>
    ensures ok { (b : Board) → RepresentsBoard lab.old b
        → OnOk result (RepresentsBoard lab.new (begun_board program.now b)) }
    ensures err { OnErr result (lab.new ≡ lab.old) }
{
    type_input(alloc, lab, program.launch.input.as_str())?;
    begin_run(lab, program);
    Ok(())
}

/// Begins a loaded program, if it is to begin at once.
pub fn begin_if(alloc: Global, loaded: &mut LoadedProgram, begins: bool) -> Result<(), AllocError>
    ensures program { OnOk result (loaded.new.program ≡ begun_if begins loaded.old.program) }
    ensures board { (b : Board) → RepresentsBoard loaded.old.lab b
        → OnOk result (RepresentsBoard loaded.new.lab (board_if begins loaded.old.program b)) }
{
    if begins {
        begin_program(alloc, &mut loaded.lab, &loaded.program)?;
        loaded.program.phase = Phase::Begun;
    }
    Ok(())
}

/// A copy of a launch.
pub fn copy_launch(launch: &Launch) -> Result<Launch, AllocError>
    ensures { IfOk result (λ copy. copy ≡ launch.now) }
{
    let program = launch.program.clone()?;
    let canonical = launch.canonical.clone()?;
    let input = launch.input.clone()?;
    Ok(Launch {
        program,
        canonical,
        stops_on_entry: launch.stops_on_entry,
        stops_at_end: launch.stops_at_end,
        is_debugged: launch.is_debugged,
        has_aliases: launch.has_aliases,
        switches: launch.switches,
        input,
        has_watch_commands: launch.has_watch_commands,
        origin: launch.origin,
        start: launch.start,
    })
}
