//! Loading a program.
ghost use Rattle.std.specs.Prelude.{◌≡◌, ◌≢◌, Err, IfOk};
ghost use Rattle.lab_core.specs.Board.{opening};
ghost use Rattle.lab_core.specs.Labs.{RepresentsBoard};
ghost use Rattle.dap_board.specs.Commands.{board_with};
ghost use Rattle.dap_launch.specs.Loading.{board_to_load_on, start_of, fault_of, load_result, Loads};

use base_text::text::Text;
use dap_requests::request::Launch;
use dap_run::change::change_surely;
use i80_base::board::Board;
use lab_core::answer::Answer;
use lab_core::event::Event;
use lab_core::fault::EventFault;
use lab_core::lab::Lab;
use std::alloc::{AllocError, Global};

/// A program on a board of its own, before it begins.
#[derive(Drop)]
pub struct Loaded {
    pub lab: Lab,
    pub start: u16,
}

/// Why a program can't be loaded.
#[derive(Clone, Copy)]
pub enum LoadFault {
    OutOfMemory,
    /// END names no start address.
    NoStart,
    Refused(EventFault),
}

impl From<AllocError> for LoadFault {
    ghost use Rattle.dap_launch.specs.declared.load.LoadFault.TheVariants.{OutOfMemory};

    ghost from_gives = { λ _ fault. fault ≡ OutOfMemory };

    fn from(_: AllocError) -> LoadFault {
        LoadFault::OutOfMemory
    }
}

fn board_with_aliases(has_aliases: bool) -> Board
    ensures { result ≡ board_with has_aliases }
{
    if has_aliases {
        Board::Aliases
    } else {
        Board::Strict
    }
}

// Sets up a new board for a launch.
fn prepare(lab: &mut Lab, launch: &Launch)
    requires { RepresentsBoard lab.old opening }
    ensures { RepresentsBoard lab.new (board_to_load_on launch.now) }
{
    change_surely(lab, Event::SetBoard(board_with_aliases(launch.has_aliases)));
    change_surely(lab, Event::Switches(launch.switches));
    if launch.is_debugged {
        change_surely(lab, Event::Attach);
    }
}

fn start_of(answer: Answer) -> Option<u16>
    ensures { result ≡ start_of answer }
{
    match answer {
        Answer::Loaded { start } => start,
        _ => None,
    }
}

fn fault_of(fault: EventFault) -> LoadFault
    ensures { result ≡ fault_of fault }
{
    match fault {
        EventFault::OutOfMemory => LoadFault::OutOfMemory,
        _ => LoadFault::Refused(fault),
    }
}

fn load_event(launch: &Launch, text: &Text) -> Result<Event, AllocError>
    ensures { IfOk result (λ event. event ≡ Event.Load launch.now.program text.now) }
{
    let path = launch.program.clone()?;
    let text = text.clone()?;
    Ok(Event::Load { path, text })
}

/// Loads a program's text on a new board. `OutOfMemory` may be returned in place of any other fault.
pub fn load(alloc: Global, launch: &Launch, text: &Text) -> Result<Loaded, LoadFault>
    ensures { result ≢ Err LoadFault.OutOfMemory → Loads (load_result launch.now text.now) result }
{
    let event = load_event(launch, text)?;
    let mut lab = Lab::new(alloc)?;
    prepare(&mut lab, launch);
    let answer = lab.apply(&event);
    drop(event);
    match answer {
        Ok(answer) => match start_of(answer) {
            Some(start) => Ok(Loaded { lab, start }),
            None => Err(LoadFault::NoStart),
        },
        Err(fault) => Err(fault_of(fault)),
    }
}
