//! Loading a cell.
ghost use Rattle.std.specs.Prelude.{◌≡◌, ◌≢◌, ◌<◌, ◌≤◌, ◌+◌, ◌++◌, length, IfOk, OnErr};
ghost use Rattle.dap_answers.specs.Murmur.{cell_path};
ghost use Rattle.lab_core.specs.Board.{Board};
ghost use Rattle.lab_core.specs.Labs.{RepresentsBoard};
ghost use Rattle.kern_peers.specs.Connections.{Connections};
ghost use Rattle.kern_exec.specs.declared.execution.Current.{Current};
ghost use Rattle.kern_post.specs.declared.content.Ending.TheVariants.{Failed};
ghost use Rattle.kern_exec.specs.Boards.{cell_given, cause_of, loading_by, loading_of, board_after};
ghost use Rattle.kern_exec.specs.Ends.{input_letters, loading_letters};
ghost use Rattle.kern_exec.specs.Prepared.{IsPreparedLoading};

use crate::board::apply_event;
use crate::ends::{PreparedEnd, prepare_end, push_end};
use crate::execution::{Execution, copy_text};
use crate::letters::{busy, publish};
use crate::loading::Loading;
use base_text::text::Text;
use dap_answers::cell::cell_path;
use kern_peers::peers::Peers;
use kern_post::content::{Cause, Content, Ending};
use kern_post::letters::Letters;
use lab_core::answer::Answer;
use lab_core::event::Event;
use lab_core::fault::EventFault;
use lab_core::lab::Lab;
use std::alloc::{AllocError, Global};

/// What loading the cell of an execution posts, allocated before the board changes. Busy and the
/// execute_input are among the letters already.
#[derive(Drop)]
pub struct PreparedLoading {
    pub letters: Letters,
    pub end: PreparedEnd,
}

// Adds the execute_input, unless the execution is silent.
fn push_input(
    alloc: Global,
    letters: &mut Letters,
    peers: &Peers,
    execution: &Execution,
    count: u64,
) -> Result<(), AllocError>
    requires { length letters.old < 8 }
    ensures letters { IfOk result (λ _. letters.new ≡ letters.old ++ input_letters peers.now
        (record { execution = execution.now; count = count })) }
    ensures bound { length letters.new ≤ length letters.old + 1 }
{
    if execution.request.is_silent {
        return Ok(());
    }
    let code = copy_text(alloc, &execution.request.code)?;
    let content = Content::ExecuteInput { code, count };
    let input = publish(alloc, peers, &execution.header, content)?;
    letters.push(input);
    Ok(())
}

/// Allocates all that posting after loading the cell of an execution needs. `count` is its execution count.
pub fn prepare_loading(
    alloc: Global,
    peers: &Peers,
    execution: &Execution,
    count: u64,
) -> Result<PreparedLoading, AllocError>
    ensures prepared { IfOk result
        (IsPreparedLoading peers.now (record { execution = execution.now; count = count })) }
    ensures bound { IfOk result (λ prepared. length prepared.letters ≤ 2) }
{
    let mut letters = busy(alloc, peers, &execution.header)?;
    push_input(alloc, &mut letters, peers, execution, count)?;
    let end = prepare_end(alloc, peers, execution, count)?;
    Ok(PreparedLoading { letters, end })
}

/// The letters that loading a cell with this result posts.
pub fn letters_of(prepared: PreparedLoading, loading: Loading) -> Letters
    requires { length prepared.letters ≤ 2 }
    ensures { (connections : Connections) (c : Current) → IsPreparedLoading connections c prepared
        → result ≡ loading_letters connections c loading }
{
    let PreparedLoading { mut letters, end } = prepared;
    match loading {
        Loading::Starts(_) => drop(end),
        Loading::Ends(ending) => push_end(&mut letters, end, ending),
    }
    letters
}

fn cause_of(fault: EventFault) -> Cause
    ensures { result ≡ cause_of fault }
{
    match fault {
        EventFault::Assembly(fault) => Cause::Assembly(fault),
        EventFault::SourceNameTaken => Cause::SourceNameTaken,
        _ => Cause::SourcesFull,
    }
}

// A cell that the board refuses ends its execution. Out of memory doesn't.
fn refusal_end(fault: EventFault) -> Result<Loading, AllocError>
    ensures ended { IfOk result (λ loading. loading ≡ Loading.Ends (Failed (cause_of fault))) }
    ensures other { IfOk result (λ _. fault ≢ EventFault.OutOfMemory) }
{
    match fault {
        EventFault::OutOfMemory => Err(AllocError),
        _ => Ok(Loading::Ends(Ending::Failed(cause_of(fault)))),
    }
}

fn loading_by(answer: Answer) -> Loading
    ensures { result ≡ loading_by answer }
{
    match answer {
        Answer::Loaded {
            start: Some(address),
        } => Loading::Starts(address),
        _ => Loading::Ends(Ending::Done),
    }
}

fn load_event(alloc: Global, code: &Text) -> Result<Event, AllocError>
    ensures { IfOk result (λ event. event ≡ Event.Load (cell_path code.now) code.now) }
{
    let path = cell_path(alloc, code.as_str())?;
    let text = copy_text(alloc, code)?;
    Ok(Event::Load { path, text })
}

/// Loads a cell into the board under its path. If memory runs out, the board is unchanged.
pub fn load(alloc: Global, lab: &mut Lab, code: &Text) -> Result<Loading, AllocError>
    ensures loaded { (b : Board) → RepresentsBoard lab.old b → IfOk result (λ loading.
        (loading ≡ loading_of (cell_given code.now b))
        × RepresentsBoard lab.new (board_after b (cell_given code.now b))) }
    ensures err { OnErr result (lab.new ≡ lab.old) }
{
    let event = load_event(alloc, code)?;
    match apply_event(lab, event) {
        Ok(answer) => Ok(loading_by(answer)),
        Err(fault) => {
            let loading = refusal_end(fault)?;
            Ok(loading)
        }
    }
}
