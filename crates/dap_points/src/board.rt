//! The lines at which a board stops.
ghost use Rattle.std.specs.Prelude.{◌≡◌, ◌≤◌, ◌++◌, length, IfOk, OnOk, option_to_list};
ghost use Rattle.dap_points.specs.Boards.{verified_line, is_plain, plain_line, plain_lines, board_lines};

use crate::points::MOST_POINTS;
use base_text::sequence::Sequence;
use dap_messages::message::{BreakpointOptions, PlacedBreakpoint};
use std::alloc::{AllocError, Global};

/// The line of a verified breakpoint.
pub fn verified_line(point: &PlacedBreakpoint) -> Option<u32>
    ensures { result ≡ verified_line point.now }
{
    if point.is_verified { point.line } else { None }
}

/// Whether a breakpoint has no options.
pub fn is_plain(options: &BreakpointOptions) -> bool
    ensures { result ≡ is_plain options.now }
{
    options.condition.is_none() && options.hit_condition.is_none() && options.log_message.is_none()
}

fn plain_line(point: &PlacedBreakpoint) -> Option<u32>
    ensures { result ≡ plain_line point.now }
{
    if is_plain(&point.options) {
        verified_line(point)
    } else {
        None
    }
}

// Adds a line, if there is one.
fn push_line(lines: &mut Sequence<u32>, line: Option<u32>) -> Result<(), AllocError>
    ensures { OnOk result (lines.new ≡ lines.old ++ option_to_list line) }
{
    if let Some(line) = line {
        lines.push(line)?;
    }
    Ok(())
}

fn push_plain(lines: &mut Sequence<u32>, points: &[PlacedBreakpoint]) -> Result<(), AllocError>
    ensures { OnOk result (lines.new ≡ lines.old ++ plain_lines points.now) }
{
    let mut left = points;
    while let Some((point, later)) = left.split_first() {
        push_line(lines, plain_line(point))?;
        left = later;
    }
    Ok(())
}

/// The lines at which a board stops: of verified breakpoints without options, first those on lines. It takes
/// the first 256.
pub fn board_lines(
    alloc: Global,
    lines: &[PlacedBreakpoint],
    labels: &[PlacedBreakpoint],
) -> Result<Sequence<u32>, AllocError>
    ensures lines { IfOk result (λ all. all ≡ board_lines lines.now labels.now) }
    ensures few { IfOk result (λ all. length all ≤ 256) }
{
    let mut all = Sequence::new(alloc);
    push_plain(&mut all, lines)?;
    push_plain(&mut all, labels)?;
    all.truncate(MOST_POINTS);
    Ok(all)
}
