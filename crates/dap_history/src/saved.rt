//! Saved moments of a run, and which of them stay as the run goes on.
ghost use Rattle.std.specs.Prelude.{◌≡◌, ◌≤◌, ◌<◌, List, IfSome, nat_le, nat_lt, vec_len, option_copied};
ghost use Rattle.std.specs.Prelude.{vec_capacity, ◌^◌};
ghost use Rattle.std.specs.List.{All, filter};
ghost use Rattle.lab_core.specs.Board.{Board};
ghost use Rattle.dap_history.specs.declared.input.Recorded.{Recorded};
ghost use Rattle.dap_history.specs.Spacing.{spacing, stays};
ghost use Rattle.dap_history.specs.Histories.{IsSavedOf, only_if, count_of, is_due};

use lab_core::lab::moments::Moment;

/// The steps from one saved moment to the next.
pub const UNIT: u64 = 1_048_576;

/// The most unread bytes with which a moment is saved. A moment keeps a copy of the typed bytes that the
/// program hasn't read, so that some hundred moments with megabytes of them each would fill the memory.
/// While more wait, none is saved, and a run that never reads goes back from farther away.
const UNREAD: usize = 32_768;

/// A saved moment of a run, and how many steps the run had made then.
#[derive(Drop)]
pub struct SavedMoment {
    pub count: u64,
    pub moment: Moment,
}

// The least power of two of which 17 cover the distance.
fn spacing(distance: u64) -> u64
    requires { distance < 2 ^ 44 }
    ensures { result ≡ spacing distance }
{
    let mut p = 1u64;
    while 17 * p < distance {
        p *= 2;
    }
    p
}

/// Whether a moment that was saved after `count` steps stays, now that the run has made `now`.
pub fn stays(count: u64, now: u64) -> bool
    ensures { result ≡ stays count now }
{
    let unit = count / UNIT;
    let distance = (now / UNIT).saturating_sub(unit);
    unit.is_multiple_of(spacing(distance))
}

/// Drops the moments that were saved after more than `count` steps.
pub(crate) fn keep_up_to(moments: &mut Vec<SavedMoment>, count: u64)
    ensures { moments.new.items ≡ filter (λ saved. nat_le saved.count count) moments.old.items }
{
    moments.retain(move |saved| saved.count <= count);
}

/// Drops the moments that were saved after `count` steps or more.
pub(crate) fn keep_before(moments: &mut Vec<SavedMoment>, count: u64)
    ensures { moments.new.items ≡ filter (λ saved. nat_lt saved.count count) moments.old.items }
{
    moments.retain(move |saved| saved.count < count);
}

/// A moment, if it was saved after at most `count` steps.
pub(crate) fn if_up_to(saved: Option<SavedMoment>, count: u64) -> Option<SavedMoment>
    ensures { result ≡ only_if (λ saved. nat_le saved.count count) saved }
{
    match saved {
        Some(saved) if saved.count <= count => Some(saved),
        _ => None,
    }
}

/// A moment, if it was saved before `count` steps.
pub(crate) fn if_before(saved: Option<SavedMoment>, count: u64) -> Option<SavedMoment>
    ensures { result ≡ only_if (λ saved. nat_lt saved.count count) saved }
{
    match saved {
        Some(saved) if saved.count < count => Some(saved),
        _ => None,
    }
}

/// Drops the moments that don't stay, now that the run has made `now` steps.
pub(crate) fn thin(moments: &mut Vec<SavedMoment>, now: u64)
    ensures items { moments.new.items ≡ filter (λ saved. stays saved.count now) moments.old.items }
    ensures few { vec_len moments.new ≤ vec_len moments.old }
    ensures capacity { vec_capacity moments.new ≡ vec_capacity moments.old }
{
    moments.retain(move |saved| stays(saved.count, now));
}

/// After how many steps a moment was saved, or 0 if there is none, as at the start.
pub(crate) fn count_of(saved: Option<&SavedMoment>) -> u64
    ensures { result ≡ count_of (option_copied saved.entry) }
{
    match saved {
        Some(saved) => saved.count,
        None => 0,
    }
}

/// Whether a moment is to be saved after `count` steps, with so many unread bytes.
pub(crate) fn is_due(moments: &[SavedMoment], count: u64, unread: usize) -> bool
    ensures { result ≡ is_due moments.now count unread }
{
    unread <= UNREAD && count_of(moments.last()) / UNIT < count / UNIT
}

/// The last moment that was saved after at most `count` steps.
pub(crate) fn nearest(moments: &[SavedMoment], count: u64) -> Option<&SavedMoment>
    ensures before { count_of (option_copied result) ≤ count }
    ensures saved { (start : Board) (log : List Recorded) → All (IsSavedOf start log) moments.now
        → IfSome (option_copied result) (IsSavedOf start log) }
{
    let mut i = moments.len();
    while i > 0 {
        i -= 1;
        if moments[i].count <= count {
            return Some(&moments[i]);
        }
    }
    None
}
