//! The messages of breakpoints.
ghost use Rattle.std.specs.Prelude.{◌≡◌};
ghost use Rattle.dap_points.specs.Changes.{is_same_note};

use dap_messages::message::BreakpointNote;

/// Whether two are the same.
pub fn is_same_note(first: &BreakpointNote, second: &BreakpointNote) -> bool
    ensures { result ≡ is_same_note first.now second.now }
{
    match (first, second) {
        (BreakpointNote::Moved { from: a }, BreakpointNote::Moved { from: b }) => *a == *b,
        (BreakpointNote::NoCode { line: a }, BreakpointNote::NoCode { line: b }) => *a == *b,
        (BreakpointNote::OtherProgram(a), BreakpointNote::OtherProgram(b)) => {
            a.as_str() == b.as_str()
        }
        (BreakpointNote::Wrong(a), BreakpointNote::Wrong(b)) => a.as_str() == b.as_str(),
        (BreakpointNote::NotLaunched, BreakpointNote::NotLaunched)
        | (BreakpointNote::NotText, BreakpointNote::NotText)
        | (BreakpointNote::NoLabel, BreakpointNote::NoLabel)
        | (BreakpointNote::NoAddress, BreakpointNote::NoAddress)
        | (BreakpointNote::TooManyData, BreakpointNote::TooManyData) => true,
        _ => false,
    }
}
