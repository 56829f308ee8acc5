//! The commands that show something of a board and change nothing.
ghost use Rattle.std.specs.Prelude.{◌≡◌, ◌+◌};
ghost use Rattle.i80_exec.specs.State.{modulo_65536};
ghost use Rattle.dap_board.specs.Commands.{command_result, event_result, code_lines_result, Performs, IsLook};

use crate::event::answer_to;
use crate::far::after_instructions;
use base_text::text::Text;
use dap_answers::answer::Body;
use dap_talk::command::DapCommand;
use lab_core::event::Event;
use lab_core::fault::EventFault;
use lab_core::lab::Lab;
use lab_views::view::View;

/// The variables of a frontend's inspector are the registers.
const REGISTERS: u32 = 1;

/// The body that shows a view.
fn show(lab: &mut Lab, view: View) -> Result<Body, EventFault>
    ensures { Performs (event_result (Event.Show view)) lab.old result lab.new }
{
    answer_to(lab, Event::Show(view))
}

fn source(lab: &mut Lab, path: &Text) -> Result<Body, EventFault>
    ensures { Performs (event_result (Event.Show (View.Source path.now))) lab.old result lab.new }
{
    let path = path.clone()?;
    show(lab, View::Source(path))
}

fn stack_trace(lab: &mut Lab, start: u32, levels: u32) -> Result<Body, EventFault>
    ensures { Performs (event_result (Event.Show (View.Frames start levels))) lab.old result lab.new }
{
    show(lab, View::Frames { start, levels })
}

fn variables(lab: &mut Lab, reference: u32, start: u32, count: u32) -> Result<Body, EventFault>
    ensures { Performs (event_result (Event.Show
        (View.Variables reference start count))) lab.old result lab.new }
{
    show(
        lab,
        View::Variables {
            reference,
            start,
            count,
        },
    )
}

/// The address `offset` bytes after another one. Addresses wrap.
fn address_after(address: u16, offset: u32) -> u16
    ensures { result ≡ modulo_65536 (address + offset) }
{
    ((u64::from(address) + u64::from(offset)) % 65_536) as u16
}

fn disassemble(
    lab: &mut Lab,
    address: u16,
    offset: u32,
    instruction_offset: u32,
    count: u16,
) -> Result<Body, EventFault>
    ensures { Performs (code_lines_result address offset instruction_offset count) lab.old result lab.new }
{
    let first = after_instructions(lab, address_after(address, offset), instruction_offset);
    show(
        lab,
        View::Code {
            address: first,
            count: u32::from(count),
        },
    )
}

/// Returns the body of a command that only looks at the board, or why the board refuses it.
#[tactic(auto, using(crate::proofs::CommandLemmas::arms), unfolding(crate::specs::Commands::command_result))]
pub fn look(lab: &mut Lab, command: &DapCommand) -> Result<Body, EventFault>
    requires { IsLook command.now }
    ensures { Performs (command_result command.now) lab.old result lab.new }
{
    match command {
        DapCommand::StackTrace {
            start_frame,
            levels,
        } => stack_trace(lab, *start_frame, *levels),
        DapCommand::Scopes { frame_id } => show(lab, View::Scopes(*frame_id)),
        DapCommand::Variables {
            reference,
            start,
            count,
        } => variables(lab, *reference, *start, *count),
        DapCommand::Disassemble {
            address,
            offset,
            instruction_offset,
            instruction_count,
        } => {
            disassemble(
                lab,
                *address,
                *offset,
                *instruction_offset,
                *instruction_count,
            )
        }
        DapCommand::Source { path } => source(lab, path),
        DapCommand::DebugInfo => show(lab, View::Info),
        DapCommand::InspectVariables => variables(lab, REGISTERS, 0, 0),
        _ => unreachable!(),
    }
}
