//! The history of a run.
ghost use Rattle.std.specs.Prelude.{◌≡◌, ◌≤◌, ◌<◌, ◌↔◌, [], length, IsTrue, IfOk, OnOk, OnErr, IfSome};
ghost use Rattle.std.specs.Prelude.{option_copied};
ghost use Rattle.lab_core.specs.Board.{Board};
ghost use Rattle.lab_core.specs.Labs.{RepresentsBoard};
ghost use Rattle.dap_history.specs.Logs.{IsFullIf, Ascends, latest, later_than};
ghost use Rattle.dap_history.specs.Runs.{board_at, after_rewind, KeepsRest, RunsDetached};
ghost use Rattle.dap_history.specs.Histories.{IsHistoryOf, HasRunOf, cut_after, with_input, Saves};
ghost use Rattle.dap_history.specs.Histories.{IsSavedOf, count_of, ForEachRun, KeepsHistory};
ghost use Rattle.dap_history.specs.Histories.{KeepsRestAndHistory};

use crate::fault::{LogFault, ReplayFault};
use crate::input::{Input, Recorded};
use crate::log::Log;
use crate::replay::{replay, rewind};
use crate::saved::{
    SavedMoment, count_of, if_before, if_up_to, is_due, keep_before, keep_up_to, nearest, thin,
};
use lab_core::lab::Lab;
use lab_core::lab::moments::Moment;
use std::alloc::{AllocError, Global};
use std::marker::Model;

/// From this width on, the part of a run that a search sees begins at a saved moment.
const WIDE: u64 = 1_048_576;

/// If a run goes to a count from farther back than this, a moment is saved so many steps before the count.
/// From there it goes back by single steps fast, since each makes at most so many steps again.
const NEAR: u64 = 8192;

/// The inputs of a run, the moment at which it began, and moments saved on the way.
#[derive(Drop)]
pub struct History {
    start: Moment,
    log: Log,
    /// In the order of their counts.
    moments: Vec<SavedMoment>,
    /// One more moment, near a count to which the run went.
    near: Option<SavedMoment>,
    alloc: Global,
}

impl Model for History {
    ghost use Rattle.dap_history.specs.Histories.{HistoryState};

    ghost Value = { HistoryState };

    ghost view = { λ h. record {
      start = h.start;
      log = h.log;
      moments = h.moments.items;
      near = h.near;
    } };
}

impl History {
    /// The history of a run that begins now, as this board is.
    pub fn new(alloc: Global, lab: &Lab) -> Result<History, AllocError>
        ensures log { IfOk result (λ history. history.log ≡ []) }
        ensures history { (start : Board) → RepresentsBoard lab.now start → IfOk result (IsHistoryOf start) }
    {
        let start = lab.moment()?;
        Ok(History {
            start,
            log: Log::new(alloc),
            moments: Vec::new(alloc),
            near: None,
            alloc,
        })
    }

    /// The inputs in order.
    pub fn entries(&self) -> &[Recorded]
        ensures entries { result.now ≡ self.now.log }
        ensures ascends { Ascends 0 result.now }
    {
        self.log.entries()
    }

    /// The inputs that came after more than `count` steps.
    pub fn later_than(&self, count: u64) -> &[Recorded]
        ensures { result.now ≡ later_than count self.now.log }
    {
        self.log.later_than(count)
    }

    /// Forgets the inputs that came after more than `count` steps, and the moments there. Returns whether
    /// there were such inputs.
    pub fn forget_after(&mut self, count: u64) -> bool
        ensures cut { self.new ≡ cut_after count self.old }
        ensures latest { latest self.new.log ≤ count }
        ensures forgotten { IsTrue result ↔ (length self.new.log < length self.old.log) }
        ensures history { (start : Board) → IsHistoryOf start self.old → IsHistoryOf start self.new }
    {
        keep_up_to(&mut self.moments, count);
        self.near = if_up_to(self.near.take(), count);
        self.log.forget_after(count)
    }

    /// Records an input that came after `count` steps and after all other inputs.
    ///
    /// # Errors
    ///
    /// Those of `Log::append`. The history is unchanged.
    pub fn record(&mut self, count: u64, input: Input) -> Result<(), LogFault>
        requires { latest self.old.log ≤ count }
        ensures ok { OnOk result (self.new ≡ with_input (record { count = count; input = input }) self.old) }
        ensures history { (start : Board) → IsHistoryOf start self.old → IsHistoryOf start self.new }
        ensures err { OnErr result (self.new ≡ self.old) × IsFullIf result input self.old.log }
    {
        self.log.append(count, input)?;
        keep_before(&mut self.moments, count);
        self.near = if_before(self.near.take(), count);
        Ok(())
    }

    /// Saves the moment at which a run is after `count` steps, if one is due, and drops moments that are no
    /// longer needed. None is due while the program leaves more than 32,768 typed bytes unread. The inputs
    /// recorded for that count must have been made.
    ///
    /// # Errors
    ///
    /// Without memory nothing changes. The run may go on: going back only takes longer.
    pub fn save_if_due(&mut self, lab: &Lab, count: u64) -> Result<(), AllocError>
        ensures ok { Saves count lab.now result self.old self.new }
        ensures history { (start : Board) → IsHistoryOf start self.old
            → HasRunOf (board_at start self.old.log count) lab.now → IsHistoryOf start self.new }
        ensures err { OnErr result (self.new ≡ self.old) }
    {
        let unread = lab.devices().bytes_waiting();
        if !is_due(self.moments.as_slice(), count, unread) {
            return Ok(());
        }
        let moment = lab.moment()?;
        self.moments.reserve(1)?;
        thin(&mut self.moments, count);
        self.moments.push_reserved(SavedMoment { count, moment });
        Ok(())
    }

    /// Where a search begins that is to see the `width` counts below this one. A wide one begins at a saved
    /// moment, or at the start, to which the run goes at once.
    pub fn low_end(&self, count: u64, width: u64) -> u64
        ensures { result ≤ count }
    {
        let low = count.saturating_sub(width);
        if width < WIDE {
            return low;
        }
        count_of(nearest(self.moments.as_slice(), low))
    }

    // The last moment that was saved after at most `count` steps: the near one, or another.
    fn nearest(&self, count: u64) -> Option<&SavedMoment>
        ensures before { count_of (option_copied result) ≤ count }
        ensures saved { (start : Board) → IsHistoryOf start self.now
            → IfSome (option_copied result) (IsSavedOf start self.now.log) }
    {
        let other = nearest(self.moments.as_slice(), count);
        let near = count_of(self.near.as_ref());
        if count_of(other) <= near && near <= count {
            self.near.as_ref()
        } else {
            other
        }
    }

    // Whether the run would have to make more than `NEAR` steps to get to `count`.
    fn is_far(&self, count: u64) -> bool {
        count.saturating_sub(count_of(self.nearest(count))) > NEAR
    }

    // Makes the run go to `count` steps from the nearest moment, and leaves it running, with no debugger.
    fn run_from_nearest(&self, lab: &mut Lab, count: u64) -> Result<(), ReplayFault>
        ensures ok { ForEachRun self.now lab.old (λ start now. OnOk result
            (RunsDetached (board_at start self.now.log count) now lab.new)) }
        ensures rest { ForEachRun self.now lab.old (λ _ now. KeepsRest now lab.new) }
    {
        match self.nearest(count) {
            Some(saved) => {
                let later = self.log.later_than(saved.count);
                rewind(self.alloc, lab, &saved.moment, later, saved.count, count)
            }
            None => rewind(self.alloc, lab, &self.start, self.log.entries(), 0, count),
        }
    }

    // Saves the moment at which the run is after `count` steps as the near one. The inputs recorded for that
    // count must have been made. Without memory the one before stays. It is one moment, so it may have any
    // number of unread bytes.
    fn save_near(&mut self, lab: &Lab, count: u64)
        ensures { (start : Board) → IsHistoryOf start self.old
            → HasRunOf (board_at start self.old.log count) lab.now → KeepsHistory start self.old self.new }
    {
        if let Ok(moment) = lab.moment() {
            self.near = Some(SavedMoment { count, moment });
        }
    }

    /// Does what `go_to` does, but leaves the run running, with no debugger.
    pub fn run_to(&mut self, lab: &mut Lab, count: u64) -> Result<(), ReplayFault>
        ensures ok { ForEachRun self.old lab.old (λ start now. OnOk result
            (RunsDetached (board_at start self.old.log count) now lab.new)) }
        ensures rest { ForEachRun self.old lab.old (KeepsRestAndHistory self.old self.new lab.new) }
    {
        if !self.is_far(count) {
            return self.run_from_nearest(lab, count);
        }
        let low = count.saturating_sub(NEAR);
        self.run_from_nearest(lab, low)?;
        self.save_near(lab, low);
        replay(self.alloc, lab, self.log.later_than(low), low, count)
    }

    /// Puts the run of this board back, or on, to where it had made `count` steps, with all inputs until
    /// then. It is stopped there, with a debugger attached. Texts, symbols, loads and breakpoints stay.
    /// If all moments are far from there, one that is near is saved on the way, if there is memory for it.
    ///
    /// # Errors
    ///
    /// `OutOfMemory`; `NotReached` if the run with these inputs doesn't make so many steps. The run may then
    /// be at any of its moments, and may be going on; another call may put it where it was.
    pub fn go_to(&mut self, lab: &mut Lab, count: u64) -> Result<(), ReplayFault>
        ensures ok { ForEachRun self.old lab.old (λ start now. OnOk result
            (RepresentsBoard lab.new (after_rewind (board_at start self.old.log count) now))) }
        ensures rest { ForEachRun self.old lab.old (KeepsRestAndHistory self.old self.new lab.new) }
    {
        self.run_to(lab, count)?;
        lab.hold();
        Ok(())
    }
}
