//! What is done to a live run, and what it must tell.
ghost use Rattle.lab_core.specs.Events.{Fits};

use crate::history::logs::{are_kept, is_appended, is_cut, stay_until};
use crate::history::play::{Live, make, numbers, told};
use crate::history::searches::{
    EACH_HIT, compare_searches, find, goal_of, set_condition, set_line,
};
use crate::history::seen::{Notes, note, see};
use dap_history::fault::ReplayFault;
use lab_core::event::Event;
use lab_core::run_state::RunState;
use lab_test_kit::ask::Ask;
use lab_test_kit::script::{Step, event_of};
use std::alloc::AllocError;

/// Goes to a count of steps, at the second try if the first finds no memory. Gives whether it came there.
pub fn is_there(live: &mut Live, count: u64) -> bool {
    live.count = count;
    match live.history.go_to(&mut live.lab, count) {
        Ok(()) => true,
        Err(ReplayFault::OutOfMemory) => live.history.go_to(&mut live.lab, count).is_ok(),
        Err(ReplayFault::NotReached) => false,
    }
}

// Goes to the count of a note. Gives whether the run is as it was noted.
fn is_as_noted(live: &mut Live, notes: &Notes, at: usize) -> bool {
    match notes.seen.get(at) {
        Some(seen) => is_there(live, seen.count) && see(&live.lab) == seen.hash,
        None => false,
    }
}

// Goes to each of the counts of some notes once, each time so many places on in their list, and to the first
// one again. It scatters them if the number shares no factor with the length of the list.
fn compare(live: &mut Live, notes: &Notes, [from, to, stride]: [u64; 3]) -> bool {
    let len = to.saturating_sub(from);
    for i in 0..len.saturating_add(1) {
        let at = i.saturating_add(1).wrapping_mul(stride).checked_rem(len);
        let at = from.saturating_add(at.unwrap_or(0)) as usize;
        if !is_as_noted(live, notes, at) {
            return false;
        }
    }
    true
}

// Whether the run is as it was noted, where it is.
fn is_here(live: &Live, notes: &Notes) -> bool {
    match notes.seen.last() {
        Some(seen) => seen.count == live.count && see(&live.lab) == seen.hash,
        None => false,
    }
}

/// Does an event. Gives whether its answer begins so.
pub fn is_answered(live: &mut Live, event: Event, wanted: &str) -> Result<bool, AllocError>
    requires { Fits event }
{
    let told = told(live.alloc, &mut live.lab, event)?;
    let is_so = told.as_str().starts_with(wanted);
    drop(told);
    Ok(is_so)
}

// Whether a step of a test's script shows this.
fn shows(live: &mut Live, step: Step, wanted: &str) -> Result<bool, AllocError> {
    match event_of(live.alloc, step)? {
        Some(event) => is_answered(live, event, wanted),
        None => Ok(false),
    }
}

// Sets a breakpoint, goes back over it many times, and then on to it. Nothing of that is recorded.
fn breakpoint_stays(live: &mut Live) -> Result<bool, AllocError> {
    let is_set = shows(live, Step::Lines("p", &[2]), "line 2 true\n")?;
    let is_back = is_there(live, 50);
    let info = "attached true stopped true\np [2]\n";
    let is_kept = shows(live, Step::Show(Ask::Info), info)?;
    let is_resumed = shows(live, Step::Resume, "Accepted\n")?;
    let is_met = shows(live, Step::Slice(10), "2 Stop(Breakpoint)\n")?;
    let is_recorded = !live.history.entries().is_empty();
    let is_later = !live.history.later_than(0).is_empty();
    Ok(is_set & is_back & is_kept & is_resumed & is_met & !is_recorded & !is_later)
}

fn has_registers(live: &Live, [a, b, pc]: [u64; 3]) -> bool {
    let regs = live.lab.regs();
    (u64::from(regs.a) == a) & (u64::from(regs.b) == b) & (u64::from(regs.pc) == pc)
}

// Does what a word says that is for searches.
fn search(live: &mut Live, notes: &mut Notes, line: (&str, &str)) -> Result<bool, AllocError> {
    let [n, count, pauses] = numbers(line.1);
    match line.0 {
        "break" => set_line(live, n),
        "when" => set_condition(live, line.1, None),
        "hit" => set_condition(live, line.1, Some(EACH_HIT)),
        "find" => find(live, goal_of(n), count, pauses),
        "searches" => compare_searches(live, notes, goal_of(n)),
        _ => make(live, notes, line),
    }
}

// Does what a word says that is for logs and saved moments.
fn log(live: &mut Live, notes: &mut Notes, line: (&str, &str)) -> Result<bool, AllocError> {
    let [n, second, third] = numbers(line.1);
    match line.0 {
        "append" => is_appended(live, n, second, third),
        "cut" => Ok(is_cut(&mut live.log, n, second, third)),
        "entries" => Ok(live.log.entries().len() as u64 == n),
        "stays" => Ok(stay_until(n, second)),
        "kept" => Ok(are_kept(n, second)),
        _ => search(live, notes, line),
    }
}

fn is_noted(live: &mut Live, notes: &mut Notes) -> Result<bool, AllocError> {
    note(notes, live)?;
    Ok(true)
}

/// Does what a word says that is for the live run alone.
pub fn act(live: &mut Live, notes: &mut Notes, line: (&str, &str)) -> Result<bool, AllocError> {
    let counts = numbers(line.1);
    let [n, ..] = counts;
    Ok(match line.0 {
        "compare" => compare(live, notes, counts),
        "goto" => is_there(live, n),
        "unreached" => !is_there(live, n),
        "forget" => live.history.forget_after(live.count) == (n == 1),
        "resume" => return is_answered(live, Event::Resume, "Accepted\n"),
        "ended" => matches!(live.lab.run_state(), RunState::NoRun),
        "stopped" => matches!(live.lab.run_state(), RunState::Stopped),
        "registered" => has_registers(live, counts),
        "here" => is_here(live, notes),
        "breakpoint" => return breakpoint_stays(live),
        "note" => return is_noted(live, notes),
        _ => return log(live, notes, line),
    })
}
