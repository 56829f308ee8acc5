//! Which part of a list is shown.
ghost use Rattle.std.specs.Prelude.{◌≡◌, ◌+◌, ◌≤◌, min};
ghost use Rattle.lab_views.specs.Paging.{asked_for};

/// The count that was asked for, at most `most`; 0 asks for the usual count.
pub fn asked_for(usual: u32, most: u32, count: u32) -> u32
    ensures { result ≡ asked_for usual most count }
{
    if count == 0 { usual } else { count.min(most) }
}

/// The end of that many elements from a start on, in a list of this length.
pub fn end_of(start: u32, count: u32, length: usize) -> usize
    ensures end { result ≡ min (start + count) length }
    ensures within { result ≤ length }
{
    (start as usize + count as usize).min(length)
}
