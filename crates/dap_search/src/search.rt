//! Searches backward: for a goal, and then for the hits of the steps that the run goes back over.
ghost use Rattle.std.specs.Prelude.{◌≡◌, ◌≤◌, ◌<◌, ◌+◌, ℕ, List, None, Some, true, IfOk, OnOk, OnErr};
ghost use Rattle.lab_core.specs.Board.{Board};
ghost use Rattle.lab_core.specs.Labs.{RepresentsBoard};
ghost use Rattle.lab_core.specs.Moments.{IsMomentOf};
ghost use Rattle.dap_history.specs.declared.input.Recorded.{Recorded};
ghost use Rattle.dap_history.specs.Runs.{board_at, after_rewind, KeepsRest, OnlyRunChanges};
ghost use Rattle.dap_history.specs.Histories.{HasRun, KeepsRestAndHistory};
ghost use Rattle.dap_search.specs.Goals.{Target, goal_below};
ghost use Rattle.dap_search.specs.Scans.{is_recount, part_of, found_in};
ghost use Rattle.dap_search.specs.Searches.{BeginsScan, IsSearchOf, SearchedOn, SearchedWith, RecountsPart};
ghost use Rattle.dap_search.specs.Searches.{SearchKeepsRest, ForEachSearch, ForEachSearchWith, IsUnderWay};
ghost use Rattle.dap_search.specs.Searches.{IsNext, IsNextOf};

use crate::goal::Goal;
use crate::scan::Scan;
use dap_history::fault::ReplayFault;
use dap_history::history::History;
use dap_slice::conditions::ConditionalBreakpoints;
use lab_core::lab::Lab;
use lab_core::lab::moments::Moment;
use std::alloc::{AllocError, Global};
use std::marker::Model;

/// The steps of the first window, below the start of a search. Each further one is eight times as wide, up to
/// `WIDEST`.
const FIRST: u64 = 64;

const WIDEST: u64 = 2_097_152;

/// A search for where a run is to go back to. It makes the run again in one window below the other, until it
/// finds its goal. If breakpoints count their hits, those of the steps behind that are counted again then.
/// It goes on in parts, so that other requests can be answered between them.
#[derive(Drop)]
pub struct Search {
    scan: Scan,
    /// The ends of the window.
    low: u64,
    high: u64,
    width: u64,
    /// The count at which it began.
    count: u64,
    /// The moment at which the scan goes on.
    here: Option<Moment>,
    /// The moment at which the search began.
    home: Moment,
}

impl Model for Search {
    ghost use Rattle.dap_search.specs.Searches.{SearchState};

    ghost Value = { SearchState };

    ghost view = { λ s. record {
      scan = s.scan;
      low = s.low;
      high = s.high;
      count = s.count;
      here = s.here;
      home = s.home;
    } };
}

// The scan of the first window. Of a count that is known nothing is to be found.
fn first_scan(
    alloc: Global,
    lab: &Lab,
    points: &ConditionalBreakpoints,
    goal: Goal,
    count: u64,
) -> Result<Scan, AllocError>
    ensures seen { (start now : Board) (log : List Recorded) → RepresentsBoard lab.now now
        → IfOk result (BeginsScan start log now (record { goal = goal; points = points.now }) count) }
    ensures within { IfOk result (λ scan. scan.at ≤ count) }
{
    if let Goal::Count(from) = goal
        && from < count
    {
        let recount = Scan::to_recount(alloc, points, from)?;
        return Ok(recount);
    }
    let scan = Scan::to_find(alloc, lab, points, goal, count.saturating_sub(FIRST))?;
    Ok(scan)
}

impl Search {
    /// Begins a search below `count` steps, at which the run is, and holds the run there.
    ///
    /// # Errors
    ///
    /// If memory runs out the run isn't held, and nothing changes.
    pub fn new(
        alloc: Global,
        lab: &mut Lab,
        points: &ConditionalBreakpoints,
        goal: Goal,
        count: u64,
    ) -> Result<Search, AllocError>
        ensures ok { (start now : Board) (log : List Recorded) → RepresentsBoard lab.old now
            → HasRun (board_at start log count) now → IfOk result (λ search. SearchedOn start log now
            (record { goal = goal; points = points.now }) count None search lab.new) }
        ensures err { OnErr result (lab.new ≡ lab.old) }
    {
        let scan = first_scan(alloc, lab, points, goal, count)?;
        let home = lab.moment()?;
        lab.hold();
        Ok(Search {
            low: scan.at,
            scan,
            high: count,
            width: FIRST * 8,
            count,
            here: None,
            home,
        })
    }

    /// Searches on, for about 65,536 steps, or 16,384 if it is for a statement. Returns the count that was
    /// found, if it was: then the run is held there, and the hits behind it are taken from the breakpoints'
    /// counts. Otherwise it is held where the search began. The breakpoints must be those with which it
    /// began.
    ///
    /// # Errors
    ///
    /// Those of `History::go_to`. The run may then be at any of its moments, and may be going on; another
    /// call of that may put it where it was.
    pub fn go_on(
        &mut self,
        history: &mut History,
        lab: &mut Lab,
        points: &mut ConditionalBreakpoints,
    ) -> Result<Option<u64>, ReplayFault>
        ensures ok { ForEachSearchWith points.old history.old self.old lab.old (λ start now target n. IfOk
            result (SearchedWith start history.old.log now target n points.old self.new lab.new points.new)) }
        ensures part { IfOk result (RecountsPart self.old self.new) }
        ensures rest { SearchKeepsRest points.old history.old self.old lab.old history.new lab.new }
    {
        match self.make_part(history, lab, points)? {
            Some(found) => {
                history.go_to(lab, found)?;
                self.scan.phase.take_hits(points);
                Ok(Some(found))
            }
            None => {
                self.pause(lab)?;
                Ok(None)
            }
        }
    }

    // Makes the run again for a time, from where the scan is.
    fn make_part(
        &mut self,
        history: &mut History,
        lab: &mut Lab,
        points: &ConditionalBreakpoints,
    ) -> Result<Option<u64>, ReplayFault>
        ensures ok { ForEachSearchWith points.now history.old self.old lab.old (λ start now target n. IfOk
            result (IsNextOf start history.old.log now target n self.new lab.new)) }
        ensures part { IfOk result (RecountsPart self.old self.new) }
        ensures rest { SearchKeepsRest points.now history.old self.old lab.old history.new lab.new }
    {
        self.enter(history, lab)?;
        self.go_farther(history, lab, points)?;
        let found = self.next(history, lab, points)?;
        Ok(found)
    }

    // Makes the run go on from where the scan is.
    fn enter(&mut self, history: &mut History, lab: &mut Lab) -> Result<(), ReplayFault>
        ensures ok { ForEachSearch history.old self.old lab.old (λ start now target n. OnOk result
            (IsUnderWay start history.old.log now target n self.new lab.new)) }
        ensures rest { ForEachSearch history.old self.old lab.old
            (λ start now _ _. KeepsRestAndHistory history.old history.new lab.new start now) }
        ensures scan { self.new.scan ≡ self.old.scan }
    {
        let Some(here) = self.here.take() else {
            history.run_to(lab, self.scan.at)?;
            return Ok(());
        };
        lab.put_back(&here)?;
        Ok(())
    }

    // Scans on for a time, up to the window's end.
    fn go_farther(
        &mut self,
        history: &History,
        lab: &mut Lab,
        points: &ConditionalBreakpoints,
    ) -> Result<(), ReplayFault>
        ensures ok { (start now : Board) (target : Target) (n : ℕ) → target.points ≡ points.now
            → IsUnderWay start history.now.log now target n self.old lab.old
            → OnOk result (IsUnderWay start history.now.log now target n self.new lab.new) }
        ensures part { OnOk result (self.new.scan.at < self.new.high
            → self.new.scan.at ≡ self.old.scan.at + part_of self.old.scan.phase) }
        ensures kind { is_recount self.new.scan.phase ≡ is_recount self.old.scan.phase }
        ensures rest { OnlyRunChanges lab.old lab.new }
    {
        let most = self.scan.at.saturating_add(self.scan.phase.part());
        let to = self.high.min(most).max(self.scan.at);
        self.scan.go_to(lab, points, history.entries(), to)?;
        Ok(())
    }

    // Returns the count that was found, once the hits behind it are counted; else sets where it goes on.
    fn next(
        &mut self,
        history: &History,
        lab: &Lab,
        points: &ConditionalBreakpoints,
    ) -> Result<Option<u64>, AllocError>
        ensures ok { (start now : Board) (target : Target) (n : ℕ) → target.points ≡ points.now
            → IsUnderWay start history.now.log now target n self.old lab.now
            → IfOk result (IsNext start history.now.log now target n self.new) }
        ensures part { is_recount self.old.scan.phase ≡ true → IfOk result (λ found. found ≡ None
            → (self.old.scan.at < self.old.high) × (self.new.scan.at ≡ self.old.scan.at)) }
    {
        if self.scan.at < self.high {
            let here = lab.moment()?;
            self.here = Some(here);
            return Ok(None);
        }
        let Some(found) = self.scan.phase.found(self.low) else {
            self.begin_below(history);
            return Ok(None);
        };
        if self.scan.phase.is_last(points) {
            return Ok(Some(found));
        }
        self.begin_recount(points, found)?;
        Ok(None)
    }

    // Begins with the window below this one, in which no count passes.
    fn begin_below(&mut self, history: &History)
        ensures { (start now : Board) (log : List Recorded) (target : Target) (n : ℕ)
            → self.old.here ≡ None → self.old.high ≤ self.old.scan.at
            → found_in self.old.low self.old.scan.phase ≡ None
            → IsSearchOf start log now target n self.old → IsSearchOf start log now target n self.new }
    {
        let low = history.low_end(self.low, self.width);
        self.high = self.low;
        self.low = low;
        self.scan.at = low;
        self.width = self.width.saturating_mul(8).min(WIDEST);
    }

    // Begins to count the hits behind the count that was found.
    fn begin_recount(
        &mut self,
        points: &ConditionalBreakpoints,
        found: u64,
    ) -> Result<(), AllocError>
        ensures { (start now : Board) (log : List Recorded) (target : Target) (n : ℕ)
            → target.points ≡ points.now → self.old.here ≡ None → found ≡ goal_below target start log now n
            → IsSearchOf start log now target n self.old
            → OnOk result (IsSearchOf start log now target n self.new) }
    {
        let scan = Scan::to_recount(self.scan.alloc, points, found)?;
        self.scan = scan;
        self.low = found;
        self.high = self.count;
        Ok(())
    }

    // Puts the run back to where the search began, and holds it there.
    fn pause(&self, lab: &mut Lab) -> Result<(), AllocError>
        ensures ok { (was b : Board) → IsMomentOf self.now.home was → RepresentsBoard lab.old b
            → OnOk result (RepresentsBoard lab.new (after_rewind was b)) }
        ensures rest { (was b : Board) → IsMomentOf self.now.home was → RepresentsBoard lab.old b
            → KeepsRest b lab.new }
    {
        lab.put_back(&self.home)?;
        lab.hold();
        Ok(())
    }
}
