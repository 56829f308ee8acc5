//! Lines of sources that have breakpoints.
ghost use Rattle.std.specs.Prelude.{◌≡◌, ◌==◌, IfOk, OnOk, OnErr};
ghost use Rattle.std.specs.List.{position};
ghost use Rattle.lab_image.specs.Breakpoints.{with_lines, has_line, has_breakpoint};

use base_text::sequence::Sequence;
use std::alloc::{AllocError, Global};

/// The lines of a source that have breakpoints, in the order in which they were set.
#[derive(Drop)]
pub struct BreakpointList {
    /// The number of the source.
    pub source: u32,
    /// Its lines, from 1, as they were set: also repeated ones, and ones that the text doesn't have.
    pub lines: Sequence<u32>,
}

// A list with a copy of these lines.
fn list_of(alloc: Global, source: u32, lines: &[u32]) -> Result<BreakpointList, AllocError>
    ensures { IfOk result (λ list. list ≡ record { source = source; lines = lines.now }) }
{
    let lines = lines.to_vec(alloc)?;
    Ok(BreakpointList {
        source,
        lines: Sequence::from(lines),
    })
}

// The index of a source's list, if it has one.
fn place_of(lists: &[BreakpointList], source: u32) -> Option<usize>
    ensures { result ≡ position (λ l. l.source == source) lists.now }
{
    lists.iter().position(|list| list.source == source)
}

/// Gives a source these lines: its list keeps its index, a new one comes last, an empty one is removed.
pub(crate) fn set_lines(
    alloc: Global,
    lists: &mut Vec<BreakpointList>,
    source: u32,
    lines: &[u32],
) -> Result<(), AllocError>
    ensures ok { OnOk result (lists.new.items ≡ with_lines source lines.now lists.old.items) }
    ensures err { OnErr result (lists.new.items ≡ lists.old.items) }
{
    let place = place_of(lists, source);
    if lines.is_empty() {
        if let Some(place) = place {
            let _ = lists.remove(place);
        }
        return Ok(());
    }
    let list = list_of(alloc, source, lines)?;
    match place {
        Some(place) => lists[place] = list,
        None => lists.push(list)?,
    }
    Ok(())
}

// Whether a list has a line.
fn has_line(list: &BreakpointList, line: usize) -> bool
    ensures { result ≡ has_line list.now line }
{
    list.lines.as_slice().iter().any(|n| *n as usize == line)
}

/// Whether a line of a source has a breakpoint.
pub(crate) fn has_breakpoint(lists: &[BreakpointList], source: u32, line: usize) -> bool
    ensures { result ≡ has_breakpoint lists.now source line }
{
    lists
        .iter()
        .any(|list| list.source == source && has_line(list, line))
}
