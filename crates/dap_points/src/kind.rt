//! The kind of the breakpoints at which a program is stopped.
ghost use Rattle.std.specs.Prelude.{◌≡◌};
ghost use Rattle.dap_points.specs.Kinds.{kind_at, kind_of};

use dap_messages::message::BreakpointKind;
use lab_shown::place::PlaceChange;

fn kind_at(id: u32) -> BreakpointKind
    ensures { result ≡ kind_at id }
{
    if id <= 256 {
        BreakpointKind::Label
    } else if 262_656 < id {
        BreakpointKind::Instruction
    } else {
        BreakpointKind::Line
    }
}

/// The kind that a stop at the breakpoints with these numbers is told with: that of a change of data, if there
/// is one, and otherwise that of the first.
pub fn kind_of(change: Option<PlaceChange>, ids: &[u32]) -> BreakpointKind
    ensures { result ≡ kind_of change ids.now }
{
    match (change, ids.first()) {
        (Some(change), _) => BreakpointKind::Data(change),
        (None, Some(id)) => kind_at(*id),
        (None, None) => BreakpointKind::Line,
    }
}
