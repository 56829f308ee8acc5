//! Slices of a run.
ghost use Rattle.std.specs.Prelude.{◌≡◌, ◌<◌, ◌≤◌, ◌+◌, ◌++◌, length, IfOk, OnErr, vec_capacity};
ghost use Rattle.std.specs.Prelude.{vec_len, codes, nat_lt, [], if◌then◌else◌};
ghost use Rattle.std.specs.List.{list_all};
ghost use Rattle.base_text.specs.Hexadecimal.{upper_digit, upper_byte};
ghost use Rattle.lab_core.specs.declared.run_state.RunState.TheVariants.{Running};
ghost use Rattle.lab_core.specs.Board.{Board};
ghost use Rattle.lab_core.specs.Labs.{RepresentsBoard};
ghost use Rattle.dap_run.specs.Boards.{RepresentsSomeBoard};
ghost use Rattle.dap_run.specs.Messages.{as_messages};
ghost use Rattle.dap_run.specs.Slices as slices;
ghost use Rattle.dap_run.specs.Slices.{console_events, line_question, line_events, run_end_events};
ghost use Rattle.dap_run.specs.Slices.{undefined_line, exception_events, policy_events};
ghost use Rattle.dap_run.specs.Slices.{stop_event, outcome_events, run_events, MakesSliceIn};
ghost use Rattle.dap_run.specs.Slices.{is_vain_read};
ghost use Rattle.dap_run.specs.Slices.{polls_in_vain, asks_line, slice_context, CountsSlice};
ghost use Rattle.dap_run.specs.Kits.{IsSliceKit, HasRoomBehind};
ghost use Rattle.dap_slice.specs.SliceEnds.{slice_end_within};

use crate::end::{EndPolicy, exit_code, hold_at_end, policy_at, stop_at};
use crate::logs::{log_messages, with_more};
use crate::messages::Messages;
use base_text::sequence::{Bytes, Sequence};
use dap_board::names::reason_of;
use dap_messages::message::{BreakpointStop, EditorEvent, EditorStop, Message, OutputCategory};
use dap_points::kind::kind_of;
use dap_requests::request::ExceptionFilters;
use dap_slice::conditions::ConditionalBreakpoints;
use dap_slice::slice::SliceResult;
use i80_base::ports::PortOperation;
use i80_devs::console::{is_line_requested, print_all};
use lab_core::answer::{End, SliceOutcome, Stop};
use lab_core::lab::Lab;
use lab_core::run_slice::STEPS;
use lab_shown::place::PlaceChange;
use std::alloc::{AllocError, Global};

/// The messages about a slice, how many steps it made, whether the program asked for a line, and how the
/// slice ended.
#[derive(Drop)]
pub struct Slice {
    pub messages: Sequence<Message>,
    pub executed: u16,
    pub asks_line: bool,
    pub outcome: SliceOutcome,
}

/// Room for all messages about a slice, allocated before its first step.
pub struct SliceKit {
    pub messages: Messages,
    /// Room for what is written to the console.
    pub console: Vec<u8>,
    pub question: Bytes,
    /// The beginning of the line about an undefined opcode, with room for the rest.
    pub opcode: Vec<u8>,
}

// Written out so that every place that drops it calls one function.
impl Drop for SliceKit {
    fn drop(self) {
        let Self {
            messages: _,
            console: _,
            question: _,
            opcode: _,
        } = self;
    }
}

/// The length in bytes of the line about an undefined opcode.
const OPCODE_LINE: usize = 28;

fn slice_kit(alloc: Global) -> Result<SliceKit, AllocError>
    ensures { IfOk result IsSliceKit }
{
    let messages = Messages::new(alloc)?;
    let console = Vec::with_capacity(alloc, STEPS.into())?;
    let question = Bytes::copy_of(alloc, b"the program asks for a line: evaluate  type TEXT\n")?;
    let mut opcode = Vec::with_capacity(alloc, OPCODE_LINE)?;
    opcode.extend_from_slice(b"UndefinedOpcode: ")?;
    Ok(SliceKit {
        messages,
        console,
        question,
        opcode,
    })
}

// ---- what the program writes

fn output(category: OutputCategory, bytes: Bytes) -> EditorEvent
    ensures { result ≡ slices.output category bytes }
{
    EditorEvent::Output {
        category,
        bytes,
        place: None,
    }
}

fn is_vain_read(operation: &PortOperation) -> bool
    ensures { result ≡ is_vain_read operation.now }
{
    matches!(
        operation,
        PortOperation::In { port: 0, byte: 2 } | PortOperation::In { port: 1, byte: 0 }
    )
}

fn are_vain_reads(traffic: &[PortOperation]) -> bool
    ensures { result ≡ list_all is_vain_read traffic.now }
{
    traffic.iter().all(is_vain_read)
}

// Whether a slice of so many steps only polls the console, in vain.
fn polls_in_vain(executed: u16, traffic: &[PortOperation]) -> bool
    ensures { result ≡ polls_in_vain executed traffic.now }
{
    executed == STEPS && !traffic.is_empty() && are_vain_reads(traffic)
}

// Whether a slice asks for a line, if one was asked for or not since the last one was typed.
fn asks_line(has_asked: bool, executed: u16, traffic: &[PortOperation]) -> bool
    ensures { result ≡ asks_line has_asked executed traffic.now }
{
    is_line_requested(traffic) || (!has_asked && polls_in_vain(executed, traffic))
}

fn push_console(messages: &mut Messages, console: Vec<u8>)
    requires { length messages.old + 1 ≤ 8 }
    ensures said { messages.new ≡ messages.old ++ as_messages (console_events console.items) }
    ensures few { length messages.new ≤ length messages.old + 1 }
{
    if console.is_empty() {
        return;
    }
    messages.push_event(output(OutputCategory::Stdout, Bytes::from(console)));
}

fn push_line(messages: &mut Messages, question: Bytes, is_asked: bool)
    requires room { length messages.old + 1 ≤ 8 }
    requires question { question ≡ line_question }
    ensures said { messages.new ≡ messages.old ++ as_messages (line_events is_asked) }
    ensures few { length messages.new ≤ length messages.old + 1 }
{
    if is_asked {
        messages.push_event(output(OutputCategory::Console, question));
    }
}

// ---- how the slice ends

fn upper_digit(digit: u8) -> u8
    requires { digit < 16 }
    ensures { result ≡ upper_digit digit }
{
    if digit < 10 { 48 + digit } else { 55 + digit }
}

// Adds a byte as two digits, without allocating.
fn push_byte(text: &mut Vec<u8>, byte: u8)
    requires { vec_len text.old + 2 ≤ vec_capacity text.old }
    ensures items { text.new.items ≡ text.old.items ++ upper_byte byte }
    ensures len { vec_len text.new ≡ vec_len text.old + 2 }
    ensures capacity { vec_capacity text.new ≡ vec_capacity text.old }
{
    text.push_reserved(upper_digit(byte / 16));
    text.push_reserved(upper_digit(byte % 16));
}

// Adds ` at `, without allocating.
fn push_at(text: &mut Vec<u8>)
    requires { vec_len text.old + 4 ≤ vec_capacity text.old }
    ensures items { text.new.items ≡ text.old.items ++ codes " at " }
    ensures len { vec_len text.new ≡ vec_len text.old + 4 }
    ensures capacity { vec_capacity text.new ≡ vec_capacity text.old }
{
    text.push_reserved(b' ');
    text.push_reserved(b'a');
    text.push_reserved(b't');
    text.push_reserved(b' ');
}

// The line about an undefined opcode, without allocating.
fn undefined_line(mut text: Vec<u8>, opcode: u8, pc: u16) -> Bytes
    requires begun { text.items ≡ codes "UndefinedOpcode: " }
    requires room { 28 ≤ vec_capacity text }
    ensures { result ≡ undefined_line opcode pc }
{
    push_byte(&mut text, opcode);
    push_at(&mut text);
    push_byte(&mut text, (pc / 256) as u8);
    push_byte(&mut text, (pc % 256) as u8);
    text.push_reserved(b'\n');
    Bytes::from(text)
}

fn push_exception(messages: &mut Messages, text: Vec<u8>, end: End)
    requires few { length messages.old + 1 ≤ 8 }
    requires begun { text.items ≡ codes "UndefinedOpcode: " }
    requires room { 28 ≤ vec_capacity text }
    ensures told { messages.new ≡ messages.old ++ as_messages (exception_events end) }
    ensures few { length messages.new ≤ length messages.old + 1 }
{
    match end {
        End::Halted => drop(text),
        End::Undefined { opcode, pc } => {
            let line = undefined_line(text, opcode, pc);
            messages.push_event(output(OutputCategory::Stderr, line));
        }
    }
}

fn push_policy(messages: &mut Messages, policy: EndPolicy, end: End)
    requires { length messages.old + 2 ≤ 8 }
    ensures { messages.new ≡ messages.old ++ as_messages (policy_events policy end) }
{
    match policy {
        EndPolicy::Exit => messages.push_end(exit_code(end)),
        EndPolicy::Hold => messages.push_event(EditorEvent::Stopped(stop_at(end))),
    }
}

#[tactic(auto, using(crate::proofs::SliceLemmas::told_both))]
fn push_run_end(messages: &mut Messages, text: Vec<u8>, policy: EndPolicy, end: End)
    requires few { length messages.old + 3 ≤ 8 }
    requires begun { text.items ≡ codes "UndefinedOpcode: " }
    requires room { 28 ≤ vec_capacity text }
    ensures { messages.new ≡ messages.old ++ as_messages (run_end_events policy end) }
{
    push_exception(messages, text, end);
    push_policy(messages, policy, end);
}

/// The event that says that the run is stopped at these breakpoints.
pub fn met_event(change: Option<PlaceChange>, ids: Sequence<u32>) -> EditorEvent
    ensures { result ≡ slices.met_event change ids }
{
    let kind = kind_of(change, ids.as_slice());
    EditorEvent::StoppedAt(BreakpointStop { kind, ids })
}

fn stop_event(change: Option<PlaceChange>, ids: Sequence<u32>, stop: Stop) -> EditorEvent
    ensures { result ≡ stop_event change ids stop }
{
    match (change, stop) {
        (Some(_), _) | (None, Stop::Breakpoint) => met_event(change, ids),
        (None, _) => EditorEvent::Stopped(EditorStop::Board(reason_of(stop))),
    }
}

/// How a slice ended: its outcome, and where it stopped the run, the last step's change and the breakpoints.
#[derive(Drop)]
struct SliceEnd {
    outcome: SliceOutcome,
    change: Option<PlaceChange>,
    ids: Sequence<u32>,
}

fn push_outcome(messages: &mut Messages, text: Vec<u8>, held: ExceptionFilters, end: SliceEnd)
    requires few { length messages.old + 3 ≤ 8 }
    requires begun { text.items ≡ codes "UndefinedOpcode: " }
    requires room { 28 ≤ vec_capacity text }
    ensures { messages.new
        ≡ messages.old ++ as_messages (outcome_events held end.change end.ids end.outcome) }
{
    let SliceEnd {
        outcome,
        change,
        ids,
    } = end;
    match outcome {
        SliceOutcome::More | SliceOutcome::Waiting => drop(text),
        SliceOutcome::Stop(stop) => {
            drop(text);
            messages.push_event(stop_event(change, ids, stop));
        }
        SliceOutcome::End(end) => push_run_end(messages, text, policy_at(held, end), end),
    }
}

impl SliceKit {
    // The messages about a slice with these port operations and this end, which may ask for a line.
    fn tell(
        self,
        held: ExceptionFilters,
        asks: bool,
        traffic: &[PortOperation],
        end: SliceEnd,
    ) -> Sequence<Message>
        requires kit { IsSliceKit self }
        requires few { length traffic.now ≤ 4096 }
        ensures told { result ≡ as_messages
            (run_events asks traffic.now (outcome_events held end.change end.ids end.outcome)) }
        ensures few { length result ≤ 8 }
    {
        let SliceKit {
            mut messages,
            console,
            question,
            opcode,
        } = self;
        let console = print_all(console, traffic);
        push_console(&mut messages, console);
        push_line(&mut messages, question, asks);
        push_outcome(&mut messages, opcode, held, end);
        messages.into_sequence()
    }
}

// ---- the slice

// What breakpoints told before the first step, if there was one, and the messages of the run.
fn told_after(logs: Vec<Message>, executed: u16, messages: Sequence<Message>) -> Sequence<Message>
    requires room { HasRoomBehind logs.items (vec_capacity logs) }
    requires few { length messages ≤ 8 }
    ensures { result ≡ (if nat_lt 0 executed then logs.items else []) ++ messages }
{
    if executed == 0 {
        drop(logs);
        return messages;
    }
    with_more(logs, messages)
}

/// Makes at most `limit` steps of the run on a board, from 1 to 4,096, and returns the messages about them.
/// It ends where the run comes to one of `points`, and tells first what those at PC tell; they count its
/// hits. `held` says at which ends the run is held, `has_asked` whether the program asked for a line since
/// the last one was typed. If no run goes on, it fails like out of memory. If it fails, the board and the
/// counts stay as they were.
pub fn make_slice(
    alloc: Global,
    lab: &mut Lab,
    points: &mut ConditionalBreakpoints,
    limit: u16,
    held: ExceptionFilters,
    has_asked: bool,
) -> Result<Slice, AllocError>
    requires { (1 ≤ limit) × (limit ≤ 4096) × RepresentsSomeBoard lab.old }
    ensures made { MakesSliceIn (slice_context points.old held has_asked) limit lab.old result lab.new }
    ensures hits { CountsSlice points.old lab.old result points.new }
    ensures err { OnErr result ((points.new ≡ points.old) × (lab.new ≡ lab.old)) }
{
    let lines = points.logs(alloc, lab)?;
    let logs = log_messages(alloc, lines)?;
    let kit = slice_kit(alloc)?;
    match points.slice(alloc, lab, limit) {
        Ok(
            SliceResult {
                executed,
                traffic,
                outcome,
                change,
                ids,
            },
        ) => {
            let asks_line = asks_line(has_asked, executed, traffic.as_slice());
            let end = SliceEnd {
                outcome,
                change,
                ids,
            };
            let messages = kit.tell(held, asks_line, traffic.as_slice(), end);
            hold_at_end(lab, held, outcome);
            Ok(Slice {
                messages: told_after(logs, executed, messages),
                executed,
                asks_line,
                outcome,
            })
        }
        Err(_) => {
            drop(kit);
            drop(logs);
            Err(AllocError)
        }
    }
}
