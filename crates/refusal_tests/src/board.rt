//! Boards, by lists of events.
ghost use Rattle.std.specs.Prelude.{All, IfOk};
ghost use Rattle.lab_core.specs.Events.{Fits};

use crate::again::{TWICE, again, fail, tell_want};
use crate::plays::PLAYS;
use anyhow::{Result, bail};
use lab_core::answer::{Answers, EventsFault};
use lab_core::event::Event;
use lab_core::lab::Lab;
use lab_test_kit::ask::{Ask, view};
use lab_test_kit::script::{Step, event_of, tell_event};
use lab_test_kit::told::put_told;
use std::alloc::{AllocError, Global};

// What is compared of two boards.
const VIEWS: &[Ask] = &[
    Ask::Info,
    Ask::Frames(0, 0),
    Ask::Variables(1, 0, 0),
    Ask::Variables(2, 0, 0),
    Ask::Variables(3, 0, 0),
    Ask::Variables(4, 0, 0),
    Ask::Variables(5, 0, 256),
    Ask::Code(0, 16),
    Ask::Source("p"),
];

fn events_of(alloc: Global, steps: &[Step]) -> Result<Vec<Event>, AllocError>
    ensures { IfOk result (λ events. All Fits events.items) }
{
    let mut events = Vec::new(alloc);
    for step in steps {
        if let Some(event) = event_of(alloc, *step)? {
            events.push(event)?;
        }
    }
    Ok(events)
}

fn text_of(alloc: Global, answers: &Answers) -> Result<String, AllocError> {
    let mut text = String::new(alloc);
    for answer in answers.as_slice() {
        put_told(&mut text, answer)?;
    }
    Ok(text)
}

fn tell(rt: &impl Print, alloc: Global, answers: &Answers) -> Result<()> {
    let text = again!(rt, "the answers' text", text_of(alloc, answers));
    let told = rt.print(text.as_str());
    drop(text);
    Ok(told?)
}

fn put_origins(text: &mut String, lab: &Lab) -> Result<(), AllocError> {
    for address in 0..32u16 {
        if let Some(origin) = lab.origin_at(address) {
            write!(
                text,
                "{} {} {}\n",
                origin.source, origin.line, origin.is_first
            )?;
        }
    }
    Ok(())
}

fn put_view(text: &mut String, alloc: Global, lab: &mut Lab, ask: Ask) -> Result<(), AllocError> {
    let event = Event::Show(view(alloc, ask)?);
    tell_event(lab, event, text)
}

fn put_views(text: &mut String, alloc: Global, lab: &mut Lab) -> Result<(), AllocError> {
    for ask in VIEWS {
        put_view(text, alloc, lab, *ask)?;
    }
    put_origins(text, lab)
}

// What a board shows, and where its first bytes come from.
fn views_text(alloc: Global, lab: &mut Lab) -> Result<String, AllocError> {
    let mut text = String::new(alloc);
    put_views(&mut text, alloc, lab)?;
    Ok(text)
}

// A new board on which these events were done.
fn replay(alloc: Global, done: &[Event]) -> Result<Lab>
    requires { All Fits done.now }
{
    let mut lab = Lab::new(alloc)?;
    if lab.run(done).is_ok() {
        return Ok(lab);
    }
    drop(lab);
    fail(TWICE)
}

fn expect_views(alloc: Global, lab: &mut Lab, wanted: &str) -> Result<()> {
    let text = views_text(alloc, lab)?;
    if text.as_str() != wanted {
        bail!("the board isn't as before: {text} and {wanted}");
    }
    Ok(())
}

fn expect_same(alloc: Global, lab: &mut Lab, other: &mut Lab) -> Result<()> {
    let wanted = views_text(alloc, other)?;
    let same = expect_views(alloc, lab, wanted.as_str());
    drop(wanted);
    same
}

// The board must be one on which these events and no others were done.
fn expect_as_before(alloc: Global, lab: &mut Lab, done: &[Event]) -> Result<()>
    requires { All Fits done.now }
{
    let mut other = replay(alloc, done)?;
    let same = expect_same(alloc, lab, &mut other);
    drop(other);
    same
}

// Tells what a run answered; how many events were done, where it stopped for want of memory.
fn tell_run(
    rt: &impl Print,
    alloc: Global,
    ran: &Result<Answers, EventsFault>,
) -> Result<Option<usize>> {
    match ran {
        Ok(answers) => {
            tell(rt, alloc, answers)?;
            Ok(None)
        }
        Err(stopped) => {
            tell_want(rt, "run")?;
            tell(rt, alloc, &stopped.answers)?;
            Ok(Some(stopped.answers.len()))
        }
    }
}

fn run_events(
    rt: &impl Print,
    alloc: Global,
    lab: &mut Lab,
    events: &[Event],
) -> Result<Option<usize>>
    requires { All Fits events.now }
{
    let ran = lab.run(events);
    let told = tell_run(rt, alloc, &ran);
    drop(ran);
    told
}

// Does events in turn on a new board. Where they stop, the board must be as after those before, and then the
// others follow.
fn make(rt: &impl Print, alloc: Global, lab: &mut Lab, events: &[Event]) -> Result<()>
    requires { All Fits events.now }
{
    let Some(count) = run_events(rt, alloc, lab, events)? else {
        return Ok(());
    };
    if count > events.len() {
        return fail("there are more answers than events");
    }
    let (done, rest) = events.split_at(count);
    expect_as_before(alloc, lab, done)?;
    match run_events(rt, alloc, lab, rest)? {
        Some(_) => fail(TWICE),
        None => Ok(()),
    }
}

fn play_events(rt: &impl Print, alloc: Global, events: &[Event]) -> Result<()>
    requires { All Fits events.now }
{
    let mut lab = again!(rt, "Lab::new", Lab::new(alloc));
    let made = make(rt, alloc, &mut lab, events);
    drop(lab);
    made
}

fn play(rt: &impl Print, alloc: Global, steps: &[Step]) -> Result<()> {
    let events = again!(rt, "events", events_of(alloc, steps));
    let played = play_events(rt, alloc, events.as_slice());
    drop(events);
    played
}

fn apply(rt: &impl Print, lab: &mut Lab, event: &Event, call: &str) -> Result<()>
    requires { Fits event.now }
{
    let answer = again!(rt, call, lab.apply(event));
    drop(answer);
    Ok(())
}

fn dump(rt: &impl Print, alloc: Global, lab: &mut Lab, call: &str) -> Result<()> {
    let Some(event) = again!(rt, "events", event_of(alloc, Step::Dump("p", "HLT"))) else {
        return Ok(());
    };
    let applied = apply(rt, lab, &event, call);
    drop(event);
    applied
}

// A text that is kept already is dumped without memory: refusals/run looks that this is never told.
fn dump_twice(rt: &impl Print, alloc: Global, lab: &mut Lab) -> Result<()> {
    dump(rt, alloc, lab, "dump")?;
    dump(rt, alloc, lab, "dump of a kept text")
}

/// The run.
pub fn run(rt: &impl Print, alloc: Global) -> Result<()> {
    for steps in PLAYS {
        play(rt, alloc, steps)?;
    }
    let mut lab = again!(rt, "Lab::new", Lab::new(alloc));
    let made = dump_twice(rt, alloc, &mut lab);
    drop(lab);
    made
}
