//! The breakpoints, by the paths of their sources.
ghost use Rattle.std.specs.Prelude.{◌≡◌, ◌++◌, [], IfOk, OnOk};
ghost use Rattle.std.specs.List.{cons_option};
ghost use Rattle.lab_views.specs.Info as info;

use crate::frames::path_of;
use base_text::sequence::Sequence;
use lab_image::lists::BreakpointList;
use lab_image::sources::Sources;
use lab_shown::shown::SourceBreakpoints;
use std::alloc::{AllocError, Global};

/// Adds the breakpoints of a list, if its source is kept.
fn push_breakpoints(
    alloc: Global,
    all: &mut Sequence<SourceBreakpoints>,
    sources: &Sources,
    list: &BreakpointList,
) -> Result<(), AllocError>
    ensures { OnOk result (all.new
        ≡ all.old ++ cons_option (info.breakpoints_in sources.now list.now) []) }
{
    match path_of(alloc, sources, list.source)? {
        Some(path) => {
            let lines = list.lines.as_slice().to_vec(alloc)?;
            all.push(SourceBreakpoints {
                path,
                lines: Sequence::from(lines),
            })
        }
        None => Ok(()),
    }
}

/// The breakpoints of each list whose source is kept.
pub(crate) fn breakpoints(
    alloc: Global,
    sources: &Sources,
    lists: &[BreakpointList],
) -> Result<Sequence<SourceBreakpoints>, AllocError>
    ensures { IfOk result (λ all. all ≡ info.breakpoints_of sources.now lists.now) }
{
    let mut all = Sequence::new(alloc);
    for list in lists {
        push_breakpoints(alloc, &mut all, sources, list)?;
    }
    Ok(all)
}
