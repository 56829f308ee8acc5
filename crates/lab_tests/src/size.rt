//! Boards with more than a few of anything: none of it is refused for want of memory.
ghost use Rattle.std.specs.Prelude.{All, IfOk};
ghost use Rattle.lab_core.specs.Events.{Fits};

use lab_core::answer::{Answers, EventsFault};
use lab_core::event::Event;
use lab_core::lab::Lab;
use lab_test_kit::cells::symbols;
use lab_test_kit::script::load_text;
use std::alloc::{AllocError, Global};
use std::rt::HostRuntime;

fn switches(alloc: Global, count: u16) -> Result<Vec<Event>, AllocError>
    ensures { IfOk result (λ events. All Fits events.items) }
{
    let mut events = Vec::new(alloc);
    for number in 0..count {
        events.push(Event::Switches((number % 251) as u8))?;
    }
    Ok(events)
}

fn count_of(answers: &Result<Answers, EventsFault>) -> Option<usize> {
    match answers {
        Ok(answers) => Some(answers.len()),
        Err(_) => None,
    }
}

// How many of these events were answered, where all were.
fn count_answers(lab: &mut Lab, events: &[Event]) -> Option<usize>
    requires { All Fits events.now }
{
    let answers = lab.run(events);
    let count = count_of(&answers);
    drop(answers);
    count
}

#[test]
fn five_thousand_events_are_answered(rt: HostRuntime) -> Result<(), AllocError> {
    let events = switches(rt.alloc(), 5000)?;
    let mut lab = Lab::new(rt.alloc()).expect(&rt, "memory");
    let count = count_answers(&mut lab, &events);
    drop(events);
    let switches = lab.devices().switches();
    drop(lab);
    assert!(rt; count == Some(5000), "5,000 events aren't answered");
    // 4,999 is 19 times 251, and 230.
    assert!(rt; switches == 230);
    Ok(())
}

// Loads a cell of 300 symbols. Whether it was taken.
fn load_symbols(alloc: Global, lab: &mut Lab) -> Result<bool, AllocError> {
    let text = symbols(alloc, "S")?;
    let is_loaded = load_text(alloc, lab, "a", text.as_str());
    drop(text);
    is_loaded
}

// Six bytes that a second cell makes of the symbols of a first one, where both are taken.
fn bytes_of_two_cells(alloc: Global, lab: &mut Lab) -> Result<Option<[u8; 6]>, AllocError> {
    if !load_symbols(alloc, lab)? || !load_text(alloc, lab, "b", "DW S0,S255,S299")? {
        return Ok(None);
    }
    Ok(Some([
        lab.peek(0),
        lab.peek(1),
        lab.peek(2),
        lab.peek(3),
        lab.peek(4),
        lab.peek(5),
    ]))
}

#[test]
fn three_hundred_symbols_are_kept(rt: HostRuntime) -> Result<(), AllocError> {
    let mut lab = Lab::new(rt.alloc())?;
    let bytes = bytes_of_two_cells(rt.alloc(), &mut lab);
    drop(lab);
    // 299 is 012BH, the low byte first.
    assert!(rt; bytes? == Some([0, 0, 255, 0, 0x2b, 0x01]));
    Ok(())
}
