//! Runs as tests write them: the lines of a text, played on a board.
ghost use Rattle.lab_core.specs.Events.{Fits};

use crate::history::acts::act;
use crate::history::inputs::change;
use crate::history::seen::{Notes, note};
use dap_history::history::History;
use dap_history::log::Log;
use dap_slice::conditions::ConditionalBreakpoints;
use lab_core::event::Event;
use lab_core::lab::Lab;
use lab_test_kit::script::{load_text, tell_event};
use std::alloc::{AllocError, Global};

/// A run with its history, a log, and breakpoints with conditions.
#[derive(Drop)]
pub struct Live {
    pub lab: Lab,
    pub history: History,
    pub log: Log,
    pub points: ConditionalBreakpoints,
    pub alloc: Global,
    /// How many steps it has made.
    pub count: u64,
    /// How many steps a slice makes at most.
    pub most: u64,
    /// Whether it is the plain run, which never goes back.
    pub is_plain: bool,
}

// Loads the program, and starts it.
fn load_and_start(alloc: Global, lab: &mut Lab, text: &str) -> Result<(), AllocError> {
    let _ = load_text(alloc, lab, "p", text)?;
    let started = told(alloc, lab, Event::Start(0))?;
    drop(started);
    Ok(())
}

// A new board on which the program begins.
fn begin(alloc: Global, text: &str) -> Result<Lab, AllocError> {
    let mut lab = Lab::new(alloc)?;
    match load_and_start(alloc, &mut lab, text) {
        Ok(()) => Ok(lab),
        Err(_) => {
            drop(lab);
            Err(AllocError)
        }
    }
}

// The history of a run that begins, at the second try if the first finds no memory.
fn history_of(alloc: Global, lab: &Lab) -> Result<History, AllocError> {
    if let Ok(history) = History::new(alloc, lab) {
        return Ok(history);
    }
    History::new(alloc, lab)
}

// A run that begins, with its history.
fn begin_live(alloc: Global, text: &str, is_plain: bool) -> Result<Live, AllocError> {
    let points = ConditionalBreakpoints::new(alloc)?;
    let lab = begin(alloc, text)?;
    match history_of(alloc, &lab) {
        Ok(history) => Ok(Live {
            lab,
            history,
            log: Log::new(alloc),
            points,
            alloc,
            count: 0,
            most: 97,
            is_plain,
        }),
        Err(_) => {
            drop(lab);
            Err(AllocError)
        }
    }
}

/// What an event answers.
pub fn told(alloc: Global, lab: &mut Lab, event: Event) -> Result<String, AllocError>
    requires { Fits event }
{
    let mut told = String::new(alloc);
    match tell_event(lab, event, &mut told) {
        Ok(()) => Ok(told),
        Err(_) => {
            drop(told);
            Err(AllocError)
        }
    }
}

// Makes a slice of at most `n` steps. Its answer begins with how many it made.
fn slice(live: &mut Live, n: u16) -> Result<(), AllocError> {
    let told = told(live.alloc, &mut live.lab, Event::Slice(n.max(1).min(4096)))?;
    let made = match told.as_str().split_once(" ") {
        Some((word, _)) => word.parse().unwrap_or(0),
        None => 0,
    };
    drop(told);
    live.count = live.count.saturating_add(made);
    Ok(())
}

// Saves a moment if one is due, at the second try if the first finds no memory.
fn save(live: &mut Live) {
    if live.history.save_if_due(&live.lab, live.count).is_err() {
        let _ = live.history.save_if_due(&live.lab, live.count);
    }
}

// Makes so many steps in slices, with a moment saved after each slice where one is due.
fn skip(live: &mut Live, steps: u64) -> Result<bool, AllocError> {
    let to = live.count.saturating_add(steps);
    for _ in 0..steps {
        let left = to.saturating_sub(live.count).min(live.most);
        if left > 0 {
            slice(live, (left & 0xffff) as u16)?;
            save(live);
        }
    }
    Ok(live.count == to)
}

// Makes so many steps one by one, and notes what the run is after each.
fn note_each(live: &mut Live, notes: &mut Notes, steps: u64) -> Result<bool, AllocError> {
    let to = live.count.saturating_add(steps);
    for _ in 0..steps {
        slice(live, 1)?;
        note(notes, live)?;
    }
    Ok(live.count == to)
}

/// Does what a word says that isn't for the live run alone.
pub fn make(
    live: &mut Live,
    notes: &mut Notes,
    (word, rest): (&str, &str),
) -> Result<bool, AllocError> {
    let [n, ..] = numbers(rest);
    match word {
        "most" => live.most = n,
        "skip" => return skip(live, n),
        "run" if !live.is_plain => return skip(live, n),
        "run" | "each" => return note_each(live, notes, n),
        _ => return change(live, notes, (word, rest)),
    }
    Ok(true)
}

/// The numbers of a line. What isn't a number stands for the largest one.
pub fn numbers(text: &str) -> [u64; 3] {
    let (first, rest) = text.split_once(" ").unwrap_or((text, ""));
    let (second, third) = rest.split_once(" ").unwrap_or((rest, ""));
    [number(first), number(second), number(third)]
}

fn number(word: &str) -> u64 {
    word.parse().unwrap_or(u64::MAX)
}

// Plays a line: one that begins with + on the live run alone, and one that begins with - on the plain run
// alone. Gives whether it tells what it is to tell.
fn play_line(live: &mut Live, notes: &mut Notes, line: &str) -> Result<bool, AllocError> {
    if let Some(line) = line.strip_prefix("+") {
        if live.is_plain {
            return Ok(true);
        }
        return act(live, notes, line.split_once(" ").unwrap_or((line, "")));
    }
    let line = match line.strip_prefix("-") {
        Some(_) if !live.is_plain => return Ok(true),
        Some(line) => line,
        None => line,
    };
    make(live, notes, line.split_once(" ").unwrap_or((line, "")))
}

fn play_lines(live: &mut Live, notes: &mut Notes, script: &str) -> Result<(), AllocError> {
    note_at_start(live, notes)?;
    let mut row = 0usize;
    for line in script.lines() {
        row = row.saturating_add(1);
        let is_right = play_line(live, notes, line)?;
        notes.tell(is_right, row, live.count);
    }
    Ok(())
}

fn note_at_start(live: &mut Live, notes: &mut Notes) -> Result<(), AllocError> {
    if live.is_plain {
        note(notes, live)?;
    }
    Ok(())
}

fn play(alloc: Global, notes: &mut Notes, case: &str, is_plain: bool) -> Result<(), AllocError> {
    let (program, script) = case.split_once("--\n").unwrap_or((case, ""));
    let mut live = begin_live(alloc, program, is_plain)?;
    let played = play_lines(&mut live, notes, script);
    drop(live);
    played
}

fn play_twice(alloc: Global, notes: &mut Notes, case: &str) -> Result<(), AllocError> {
    play(alloc, notes, case, true)?;
    play(alloc, notes, case, false)
}

/// Plays a program's lines on a plain run and then on a live one. Gives the first line that is wrong, and how
/// many steps the run had made.
pub fn wrong_in(alloc: Global, case: &str) -> Result<Option<(usize, u64)>, AllocError> {
    let mut notes = Notes {
        seen: Vec::new(alloc),
        wrong: None,
    };
    let played = play_twice(alloc, &mut notes, case);
    let wrong = notes.wrong;
    drop(notes);
    played?;
    Ok(wrong)
}
