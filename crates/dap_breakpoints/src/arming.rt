//! The breakpoints of a launched program, at which its run stops.
ghost use Rattle.std.specs.Prelude.{◌≡◌, ◌≤◌, length, IfOk, OnOk, OnErr, ◌++◌};
ghost use Rattle.lab_core.specs.Board.{Board};
ghost use Rattle.lab_core.specs.Labs.{RepresentsBoard};
ghost use Rattle.dap_breakpoints.specs.Lines.{lines_on, labels_on};
ghost use Rattle.dap_breakpoints.specs.Arming.{board_armed_at, conditional_in, lists_in, program_lists};
ghost use Rattle.dap_breakpoints.specs.Arming.{AreFew, armed_for, program_board, placed_on, off_lines};
ghost use Rattle.dap_breakpoints.specs.Arming.{conditional_for, program_conditions, ArmsAs};

use crate::data::push_watches;
use crate::instructions::push_breaks;
use crate::lines::{labels_on, lines_on};
use base_text::sequence::Sequence;
use base_text::text::Text;
use dap_conditions::conditions::conditional_points;
use dap_messages::message::PlacedBreakpoint;
use dap_points::board::board_lines;
use dap_points::points::WantedBreakpoints;
use dap_requests::request::{
    DataBreakpoint, FunctionBreakpoint, InstructionBreakpoint, LineBreakpoint,
};
use dap_run::change::change;
use dap_run::program::Program;
use dap_slice::conditions::ConditionalBreakpoints;
use lab_core::event::Event;
use lab_core::lab::Lab;
use std::alloc::{AllocError, Global};

/// Makes the board stop on these lines of a text. If memory runs out the board stays as it was.
pub fn arm(lab: &mut Lab, path: &Text, lines: Sequence<u32>) -> Result<(), AllocError>
    requires { length lines ≤ 256 }
    ensures ok { (b : Board) → RepresentsBoard lab.old b
        → OnOk result (RepresentsBoard lab.new (board_armed_at path.now lines b)) }
    ensures err { OnErr result (lab.new ≡ lab.old) }
{
    let path = path.clone()?;
    change(lab, Event::SetBreakpoints { path, lines })
}

/// The breakpoints that are wanted of a program: on its lines, which are those of the source with this
/// number, at labels, on data, and at instructions.
#[derive(Clone, Copy)]
pub struct ProgramBreakpoints<'a> {
    pub number: u32,
    pub lines: &'a [LineBreakpoint],
    pub functions: &'a [FunctionBreakpoint],
    pub on_data: &'a [DataBreakpoint],
    pub instructions: &'a [InstructionBreakpoint],
}

/// Those on lines, and those at labels, on its board; and the lines at which the board itself stops.
#[derive(Drop)]
struct PlacedLists {
    lines: Sequence<PlacedBreakpoint>,
    labels: Sequence<PlacedBreakpoint>,
    on_board: Sequence<u32>,
}

// Those of a program's breakpoints on lines and at labels at which its run stops.
fn conditional_in(
    alloc: Global,
    lab: &Lab,
    program: &Program,
    lists: &PlacedLists,
) -> Result<ConditionalBreakpoints, AllocError>
    ensures { (b : Board) → RepresentsBoard lab.now b → IfOk result
        (λ points. points ≡ conditional_in program.now b lists.now) }
{
    if !program.launch.is_debugged {
        return ConditionalBreakpoints::new(alloc);
    }
    conditional_points(
        alloc,
        lab,
        &program.launch.program,
        lists.on_board.as_slice(),
        lists.lines.as_slice(),
        lists.labels.as_slice(),
    )
}

// The breakpoints on lines and at labels that are wanted of a program's board.
fn placed(
    alloc: Global,
    lab: &Lab,
    wanted: &ProgramBreakpoints<'_>,
) -> Result<PlacedLists, AllocError>
    requires { AreFew (lists_in wanted.now) }
    ensures lists { (b : Board) → RepresentsBoard lab.now b
        → IfOk result (λ lists. lists ≡ placed_on b (lists_in wanted.now)) }
    ensures few { IfOk result (λ lists. length lists.on_board ≤ 256) }
{
    let lines = lines_on(alloc, lab, wanted.number, wanted.lines)?;
    let labels = labels_on(alloc, lab, wanted.functions)?;
    let on_board = board_lines(alloc, lines.as_slice(), labels.as_slice())?;
    Ok(PlacedLists {
        lines,
        labels,
        on_board,
    })
}

// Adds those on data and at instructions.
fn push_off_lines(
    alloc: Global,
    lab: &Lab,
    program: &Program,
    wanted: &ProgramBreakpoints<'_>,
    points: &mut ConditionalBreakpoints,
) -> Result<(), AllocError>
    requires { AreFew (lists_in wanted.now) }
    ensures { (b : Board) → RepresentsBoard lab.now b
        → OnOk result (points.new ≡ points.old ++ off_lines program.now (lists_in wanted.now) b) }
{
    if program.launch.is_debugged {
        push_watches(alloc, lab, points, wanted.on_data)?;
        push_breaks(alloc, lab, points, wanted.instructions)?;
    }
    Ok(())
}

// All at which its run stops.
fn conditional_with(
    alloc: Global,
    lab: &Lab,
    program: &Program,
    wanted: &ProgramBreakpoints<'_>,
    lists: &PlacedLists,
) -> Result<ConditionalBreakpoints, AllocError>
    requires { AreFew (lists_in wanted.now) }
    ensures { (b : Board) → RepresentsBoard lab.now b → IfOk result (λ points. points
        ≡ conditional_in program.now b lists.now ++ off_lines program.now (lists_in wanted.now) b) }
{
    let mut points = conditional_in(alloc, lab, program, lists)?;
    push_off_lines(alloc, lab, program, wanted, &mut points)?;
    Ok(points)
}

/// The breakpoints at which a program's run stops: those on lines, at labels, on data and at instructions.
pub fn conditional_for(
    alloc: Global,
    lab: &Lab,
    program: &Program,
    wanted: &ProgramBreakpoints<'_>,
) -> Result<ConditionalBreakpoints, AllocError>
    requires { AreFew (lists_in wanted.now) }
    ensures { (b : Board) → RepresentsBoard lab.now b
        → IfOk result (λ points. points ≡ conditional_for program.now (lists_in wanted.now) b) }
{
    let lists = placed(alloc, lab, wanted)?;
    conditional_with(alloc, lab, program, wanted, &lists)
}

/// Makes a program's board stop at these breakpoints, and returns all at which its run stops. If memory runs
/// out the board stays as it was.
pub fn arm_with(
    alloc: Global,
    lab: &mut Lab,
    program: &Program,
    wanted: &ProgramBreakpoints<'_>,
) -> Result<ConditionalBreakpoints, AllocError>
    requires { AreFew (lists_in wanted.now) }
    ensures ok { ArmsAs (armed_for program.now (lists_in wanted.now))
        (conditional_for program.now (lists_in wanted.now)) lab.old result lab.new }
    ensures err { OnErr result (lab.new ≡ lab.old) }
{
    let lists = placed(alloc, lab, wanted)?;
    let points = conditional_with(alloc, lab, program, wanted, &lists)?;
    arm(lab, &program.launch.program, lists.on_board)?;
    Ok(points)
}

/// The breakpoints that are kept for a program.
pub fn wanted_of<'a>(points: &'a WantedBreakpoints, program: &Program) -> ProgramBreakpoints<'a>
    ensures lists { lists_in result ≡ program_lists program.now points.now }
    ensures few { AreFew (lists_in result) }
{
    let path = program.launch.canonical.as_str();
    ProgramBreakpoints {
        number: points.number_of(path),
        lines: points.lines_at(path),
        functions: points.functions(),
        on_data: points.on_data(),
        instructions: points.instructions(),
    }
}

/// Makes a program's board stop at the breakpoints that are kept for the program, and returns all at which
/// its run stops. If memory runs out the board stays as it was.
pub fn arm_program(
    alloc: Global,
    lab: &mut Lab,
    program: &Program,
    points: &WantedBreakpoints,
) -> Result<ConditionalBreakpoints, AllocError>
    ensures ok { ArmsAs (program_board program.now points.now)
        (program_conditions program.now points.now) lab.old result lab.new }
    ensures err { OnErr result (lab.new ≡ lab.old) }
{
    arm_with(alloc, lab, program, &wanted_of(points, program))
}
