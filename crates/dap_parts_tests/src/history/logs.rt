//! Logs of inputs, and which saved moments stay.
use crate::history::inputs::typed;
use crate::history::play::Live;
use dap_history::fault::LogFault;
use dap_history::laws::{
    back_and_forth, log_splits, moments_are_near, run_goes_on, run_is_made_again,
};
use dap_history::log::Log;
use dap_history::saved::{UNIT, stays};
use dap_search::laws::{
    conditions_only_add, hits_are_counted_in_parts, hits_are_taken_back, slices_count_the_same,
    statements_ignore_conditions,
};
use std::alloc::AllocError;

/// Appends an input that types so many bytes. What came after this count is forgotten. Gives whether it is
/// answered so: 0 stands for no fault, 1 for a full log.
pub fn is_appended(live: &mut Live, count: u64, len: u64, answer: u64) -> Result<bool, AllocError> {
    let input = typed(live.alloc, len)?;
    let _ = live.log.forget_after(count);
    let number = match live.log.append(count, input) {
        Ok(()) => 0,
        Err(LogFault::Full) => 1,
        Err(LogFault::OutOfMemory) => 2,
    };
    Ok(number == answer)
}

/// Forgets what came after a count. Gives whether so many inputs are later, and any is forgotten if one is.
pub fn is_cut(log: &mut Log, count: u64, later: u64, left: u64) -> bool {
    let is_later = log.later_than(count).len() as u64 == later;
    let is_forgotten = log.forget_after(count);
    is_later & (is_forgotten == (later > 0)) & (log.entries().len() as u64 == left)
}

/// Whether a moment that was saved in this unit stays up to the last one, and no longer.
pub fn stay_until(unit: u64, last: u64) -> bool {
    let count = unit.wrapping_mul(UNIT);
    let end = last.wrapping_add(1).wrapping_mul(UNIT);
    stays(count, count) & stays(count, end.wrapping_sub(1)) & !stays(count, end)
}

/// Whether so many of the moments that were saved in each unit up to this one stay, and each unit can be
/// reached from one of them by making at most an eighth of its distance again.
pub fn are_kept(now: u64, wanted: u64) -> bool {
    let mut kept = 0u64;
    let mut nearest = 0;
    for unit in 0..now.min(10_000) {
        if stays(unit.saturating_mul(UNIT), now.saturating_mul(UNIT)) {
            kept = kept.saturating_add(1);
            nearest = unit;
        }
        if unit.saturating_sub(nearest).saturating_mul(8) > now.saturating_sub(unit) {
            return false;
        }
    }
    kept == wanted
}

// The laws have nothing to run.
#[test]
fn laws_can_be_called() {
    run_is_made_again();
    run_goes_on();
    log_splits();
    moments_are_near();
    back_and_forth();
    conditions_only_add();
    statements_ignore_conditions();
    hits_are_counted_in_parts();
    slices_count_the_same();
    hits_are_taken_back();
}
