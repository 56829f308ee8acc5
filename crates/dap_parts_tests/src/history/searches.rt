//! Searches backward.
use crate::history::acts::{is_answered, is_there};
use crate::history::play::Live;
use crate::history::seen::{Notes, Seen, see};
use asm_syntax::fault::LineFault;
use dap_expr::expression::Expression;
use dap_history::fault::ReplayFault;
use dap_search::goal::Goal;
use dap_search::search::Search;
use dap_slice::conditions::{ConditionalBreakpoint, Trigger};
use dap_slice::hits::{HitCondition, Hits};
use lab_test_kit::script::set_breakpoints;
use std::alloc::AllocError;

/// Sets a breakpoint on a line of the program.
pub fn set_line(live: &mut Live, line: u64) -> Result<bool, AllocError> {
    match set_breakpoints(live.alloc, "p", &[(line & 0xffff) as u32])? {
        Some(event) => is_answered(live, event, "line "),
        None => Ok(false),
    }
}

/// A hit condition that is true at each hit, of which there was one.
pub const EACH_HIT: Hits = Hits {
    condition: HitCondition::AtLeast(1),
    count: 1,
};

// Adds a breakpoint with a condition.
fn push_condition(
    live: &mut Live,
    address: u16,
    text: &str,
    hits: Option<Hits>,
) -> Result<bool, AllocError> {
    let condition = match Expression::parse(live.alloc, text) {
        Ok(condition) => condition,
        Err(LineFault::OutOfMemory) => return Err(AllocError),
        Err(LineFault::At { .. }) => return Ok(false),
    };
    live.points.push(ConditionalBreakpoint {
        id: 0,
        trigger: Trigger::Address(address),
        condition: Some(condition),
        hits,
        log: None,
    })?;
    Ok(true)
}

/// Adds a breakpoint with a condition, as an address and the condition's text say, and with a hit condition
/// if there is one.
pub fn set_condition(live: &mut Live, line: &str, hits: Option<Hits>) -> Result<bool, AllocError> {
    match line.split_once(" ") {
        Some((word, text)) => match word.parse() {
            Ok(address) => push_condition(live, address, text, hits),
            Err(_) => Ok(false),
        },
        None => Ok(false),
    }
}

/// A statement with at most so many live frames; for the largest number, which stands for a word, a
/// breakpoint.
pub fn goal_of(depth: u64) -> Goal {
    if depth == u64::MAX {
        return Goal::Breakpoint;
    }
    Goal::Statement {
        depth: depth as usize,
    }
}

// Begins a search where the run is, at the second try if the first finds no memory.
fn search_of(live: &mut Live, goal: Goal) -> Result<Search, AllocError> {
    if let Ok(search) = Search::new(live.alloc, &mut live.lab, &live.points, goal, live.count) {
        return Ok(search);
    }
    Search::new(live.alloc, &mut live.lab, &live.points, goal, live.count)
}

// Searches on to the end. Gives the count that it found, and how often it let other requests be answered.
// Each time the run must be as it was.
fn finish(live: &mut Live, search: &mut Search) -> Result<Option<(u64, u64)>, AllocError> {
    let seen = see(&live.lab);
    for pauses in 0..1000 {
        match search.go_on(&mut live.history, &mut live.lab, &mut live.points) {
            Ok(Some(count)) => return Ok(Some((count, pauses))),
            Ok(None) => {
                if see(&live.lab) != seen {
                    return Ok(None);
                }
            }
            Err(ReplayFault::OutOfMemory) => return Err(AllocError),
            Err(ReplayFault::NotReached) => return Ok(None),
        }
    }
    Ok(None)
}

/// Goes back to a goal from where the run is. Gives whether it finds this count, after so many pauses, and
/// leaves the run there. The largest number stands for any number of pauses.
pub fn find(live: &mut Live, goal: Goal, count: u64, pauses: u64) -> Result<bool, AllocError> {
    let mut search = search_of(live, goal)?;
    let found = finish(live, &mut search);
    drop(search);
    match found? {
        Some((at, made)) => {
            let seen = see(&live.lab);
            let is_there = is_there(live, at) && see(&live.lab) == seen;
            Ok(is_there && at == count && (pauses == u64::MAX || made == pauses))
        }
        None => Ok(false),
    }
}

/// The address at which a breakpoint is set. A plain run knows it by that.
const ADDRESS: u16 = 0x4e;

fn is_passed(seen: Seen, goal: Goal) -> bool {
    match goal {
        Goal::Breakpoint => seen.pc == ADDRESS,
        Goal::Statement { depth } => seen.is_first && seen.depth <= depth,
        Goal::Count(count) => seen.count == count,
    }
}

// The last count below this one at which the noted run passed.
fn last_passed(seen: &[Seen], from: u64, goal: Goal) -> u64 {
    let mut last = 0;
    for it in seen {
        if it.count < from && is_passed(*it, goal) {
            last = it.count;
        }
    }
    last
}

/// Compares searches from each 23rd count with what the noted run says.
pub fn compare_searches(live: &mut Live, notes: &Notes, goal: Goal) -> Result<bool, AllocError> {
    for i in 0..notes.seen.len().div_ceil(23) as u64 {
        let from = i.saturating_mul(23);
        let wanted = last_passed(notes.seen.as_slice(), from, goal);
        if !is_there(live, from) || !find(live, goal, wanted, u64::MAX)? {
            return Ok(false);
        }
    }
    Ok(true)
}
