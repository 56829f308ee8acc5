//! Events as tests write them, in turn on a new board.
ghost use Rattle.std.specs.Prelude.{IfOk, IfSome};
ghost use Rattle.lab_core.specs.Events.{Fits};

use crate::ask::{Ask, view};
use crate::told::{put_byte, put_newest, put_registers, put_told};
use base_text::sequence::{Bytes, Sequence};
use base_text::text::Text;
use i80_base::board::Board;
use lab_core::event::{Event, StepRequest};
use lab_core::lab::Lab;
use lab_shown::step::{Granularity, StepKind};
use std::alloc::{AllocError, Global};

/// Changes by hand: a reference, names, and values for each of them.
pub type Changes = (u32, &'static [&'static str], &'static [&'static str]);

/// An event as a test writes it, or a look at what was left.
#[derive(Clone, Copy)]
pub enum Step {
    Load(&'static str, &'static str),
    Dump(&'static str, &'static str),
    Start(u16),
    Slice(u16),
    Pause,
    Resume,
    /// A Step by line.
    Line(StepKind),
    /// A Step by instruction.
    Instruction(StepKind),
    /// A reference, a name and a value.
    Poke(u32, &'static str, &'static str),
    /// Makes these changes in turn, and shows what is answered otherwise than by this text.
    Pokes(&'static [Changes], &'static str),
    Interrupt,
    Reset,
    SetBoard(Board),
    Lines(&'static str, &'static [u32]),
    Attach,
    Detach,
    Typed(&'static str),
    Switches(u8),
    Press(u8),
    Show(Ask),
    /// PC, SP, the interrupt state, and how many frames are live.
    Registers,
    /// The innermost frame.
    Frame,
    /// A byte and its origin.
    Byte(u16),
    Lamps,
    /// Loads 1,024 texts under as many paths: x, xx, and so on.
    Fill,
    /// On a new board: loads a text, attaches a debugger, sets breakpoints on lines that the text has,
    /// starts at address 0, where the text starts too, and makes a slice of ten steps, whose answer it shows.
    Debug(&'static str, &'static [u32]),
}

fn texts(alloc: Global, path: &str, text: &str) -> Result<(Text, Text), AllocError> {
    let path = Text::copy_of(alloc, path)?;
    let text = Text::copy_of(alloc, text)?;
    Ok((path, text))
}

fn load(alloc: Global, path: &str, text: &str) -> Result<Event, AllocError>
    ensures { IfOk result (λ event. Fits event) }
{
    let (path, text) = texts(alloc, path, text)?;
    Ok(Event::Load { path, text })
}

fn dump(alloc: Global, path: &str, text: &str) -> Result<Event, AllocError>
    ensures { IfOk result (λ event. Fits event) }
{
    let (path, text) = texts(alloc, path, text)?;
    Ok(Event::Dump { path, text })
}

/// A change by hand.
pub fn poke(alloc: Global, reference: u32, name: &str, value: &str) -> Result<Event, AllocError>
    ensures { IfOk result (λ event. Fits event) }
{
    let (name, value) = texts(alloc, name, value)?;
    Ok(Event::Poke {
        reference,
        name,
        value,
    })
}

/// No event, where there are more lines than a source may have.
pub fn set_breakpoints(
    alloc: Global,
    path: &str,
    lines: &[u32],
) -> Result<Option<Event>, AllocError>
    ensures { IfOk result (λ event. IfSome event (λ event. Fits event)) }
{
    let lines = Sequence::from(lines.to_vec(alloc)?);
    if lines.len() > 256 {
        return Ok(None);
    }
    let path = Text::copy_of(alloc, path)?;
    Ok(Some(Event::SetBreakpoints { path, lines }))
}

/// The event of a step; none, where it is a look, more than one event, or has more lines than a source may
/// have.
pub fn event_of(alloc: Global, step: Step) -> Result<Option<Event>, AllocError>
    ensures { IfOk result (λ event. IfSome event (λ event. Fits event)) }
{
    Ok(Some(match step {
        Step::Load(path, text) => load(alloc, path, text)?,
        Step::Dump(path, text) => dump(alloc, path, text)?,
        Step::Start(address) => Event::Start(address),
        Step::Slice(n) => Event::Slice(n.max(1).min(4096)),
        Step::Pause => Event::Pause,
        Step::Resume => Event::Resume,
        Step::Line(kind) => Event::Step(StepRequest {
            kind,
            granularity: Granularity::Line,
        }),
        Step::Instruction(kind) => Event::Step(StepRequest {
            kind,
            granularity: Granularity::Instruction,
        }),
        Step::Poke(reference, name, value) => poke(alloc, reference, name, value)?,
        Step::Interrupt => Event::Interrupt,
        Step::Reset => Event::Reset,
        Step::SetBoard(option) => Event::SetBoard(option),
        Step::Lines(path, lines) => return set_breakpoints(alloc, path, lines),
        Step::Attach => Event::Attach,
        Step::Detach => Event::Detach,
        Step::Typed(text) => Event::Typed(Bytes::copy_of(alloc, text.as_bytes())?),
        Step::Switches(byte) => Event::Switches(byte),
        Step::Press(n) => Event::Press(n),
        Step::Show(ask) => Event::Show(view(alloc, ask)?),
        _ => return Ok(None),
    }))
}

/// Adds what is looked at.
fn show(lab: &Lab, step: Step, told: &mut String) -> Result<(), AllocError> {
    match step {
        Step::Registers => put_registers(told, lab),
        Step::Frame => put_newest(told, lab),
        Step::Byte(address) => put_byte(told, lab, address),
        Step::Lamps => write!(told, "{:02X}\n", lab.devices().lamps()),
        _ => Ok(()),
    }
}

/// Does an event. Gives whether it wasn't refused.
pub fn is_done(lab: &mut Lab, event: &Event) -> bool
    requires { Fits event.now }
{
    let answer = lab.apply(event);
    let is_so = answer.is_ok();
    drop(answer);
    is_so
}

/// Loads a text under a path. Gives whether it was taken.
pub fn load_text(alloc: Global, lab: &mut Lab, path: &str, text: &str) -> Result<bool, AllocError> {
    let event = load(alloc, path, text)?;
    let answer = lab.apply(&event);
    drop(event);
    let is_taken = answer.is_ok();
    drop(answer);
    Ok(is_taken)
}

fn fill(alloc: Global, lab: &mut Lab) -> Result<(), AllocError> {
    let mut path = String::new(alloc);
    for _ in 0..1024u16 {
        path.push_str("x")?;
        let _ = load_text(alloc, lab, path.as_str(), "")?;
    }
    Ok(())
}

/// Does an event, and adds what it answers.
pub fn tell_event(lab: &mut Lab, event: Event, told: &mut String) -> Result<(), AllocError>
    requires { Fits event }
{
    let answer = lab.apply(&event);
    drop(event);
    let put = put_told(told, &answer);
    drop(answer);
    put
}

// Adds what an event answers, or what is looked at.
fn tell_one(alloc: Global, lab: &mut Lab, step: Step, told: &mut String) -> Result<(), AllocError> {
    match event_of(alloc, step)? {
        Some(event) => tell_event(lab, event, told),
        None => show(lab, step, told),
    }
}

// What a debugged run's events up to its start answer.
fn put_begun(told: &mut String, lines: &[u32]) -> Result<(), AllocError> {
    told.push_str("Loaded { start: Some(0) }\nAccepted\n")?;
    for line in lines {
        write!(told, "line {line} true\n")?;
    }
    told.push_str("Started\n")
}

// Adds what these events answer, where it is something else.
fn begin(
    alloc: Global,
    lab: &mut Lab,
    text: &'static str,
    lines: &'static [u32],
    told: &mut String,
) -> Result<(), AllocError> {
    let mut begun = String::new(alloc);
    for step in [
        Step::Load("p", text),
        Step::Attach,
        Step::Lines("p", lines),
        Step::Start(0),
    ] {
        tell_one(alloc, lab, step, &mut begun)?;
    }
    let mut wanted = String::new(alloc);
    put_begun(&mut wanted, lines)?;
    if begun.as_str() != wanted.as_str() {
        told.push_str(begun.as_str())?;
    }
    Ok(())
}

// Adds what a step answers, where it isn't this text.
fn tell_other(
    alloc: Global,
    lab: &mut Lab,
    step: Step,
    wanted: &str,
    told: &mut String,
) -> Result<(), AllocError> {
    let mut answered = String::new(alloc);
    tell_one(alloc, lab, step, &mut answered)?;
    if answered.as_str() != wanted {
        told.push_str(answered.as_str())?;
    }
    Ok(())
}

fn tell_changes(
    alloc: Global,
    lab: &mut Lab,
    (reference, names, values): Changes,
    wanted: &str,
    told: &mut String,
) -> Result<(), AllocError> {
    for name in names {
        for value in values {
            tell_other(alloc, lab, Step::Poke(reference, name, value), wanted, told)?;
        }
    }
    Ok(())
}

/// Adds what a step answers.
fn tell(alloc: Global, lab: &mut Lab, step: Step, told: &mut String) -> Result<(), AllocError> {
    match step {
        Step::Fill => fill(alloc, lab),
        Step::Debug(text, lines) => {
            begin(alloc, lab, text, lines, told)?;
            tell_one(alloc, lab, Step::Slice(10), told)
        }
        Step::Pokes(changes, wanted) => {
            for each in changes {
                tell_changes(alloc, lab, *each, wanted, told)?;
            }
            Ok(())
        }
        _ => tell_one(alloc, lab, step, told),
    }
}

fn tell_all(
    alloc: Global,
    lab: &mut Lab,
    steps: &[Step],
    told: &mut String,
) -> Result<(), AllocError> {
    for step in steps {
        tell(alloc, lab, *step, told)?;
    }
    Ok(())
}

// What steps show on a new board.
fn show_steps(alloc: Global, steps: &[Step]) -> Result<String, AllocError> {
    let mut lab = Lab::new(alloc)?;
    let mut told = String::new(alloc);
    let outcome = tell_all(alloc, &mut lab, steps, &mut told);
    drop(lab);
    outcome?;
    Ok(told)
}

/// What a play is about, its steps, and the lines that they show on a new board.
pub type Play = (&'static str, &'static [Step], &'static str);

/// What each of these plays that shows other lines is about, and what it shows: nothing where all are right.
pub fn wrong_plays(alloc: Global, plays: &[Play]) -> Result<String, AllocError> {
    let mut wrong = String::new(alloc);
    for (about, steps, wanted) in plays {
        let told = show_steps(alloc, steps)?;
        if told.as_str() != *wanted {
            write!(wrong, "{about}: {}\n", told.as_str())?;
        }
    }
    Ok(wrong)
}
