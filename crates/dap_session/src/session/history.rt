//! The history of the session's run, which is kept outside of the session.
ghost use Rattle.std.specs.Prelude.{◌≡◌, ◌&&◌, [], length, List, IfOk, OnOk, OnErr};
ghost use Rattle.lab_frames.specs.Live.{live};
ghost use Rattle.lab_core.specs.Board.{Board};
ghost use Rattle.dap_history.specs.declared.input.Recorded.{Recorded};
ghost use Rattle.dap_history.specs.Histories.{HistoryState, IsHistoryOf, KeepsHistory};
ghost use Rattle.dap_history.specs.Runs.{board_at, after_input};
ghost use Rattle.dap_search.specs.Searches.{counts_hits};
ghost use Rattle.dap_slice.specs.Stops.{back_ids};
ghost use Rattle.dap_search.specs.Goals.{is_goal};
ghost use Rattle.dap_session.specs.States.{SessionState, with_board};
ghost use Rattle.dap_session.specs.Represents.{RepresentsSession, RepresentsSome};
ghost use Rattle.dap_session.specs.Laws.{SameParts, has_begun};
ghost use Rattle.dap_session.specs.Rewinds as rewinds;
ghost use Rattle.dap_session.specs.Rewinds.{rewound, IsRunAt, BeginsSearch, SearchedFurther};
ghost use Rattle.dap_session.specs.Rewinds.{IsSearched, ForEachRun, ForEachSearch, KeepsHistories};

use crate::session::Session;
use base_text::sequence::Sequence;
use dap_history::history::History;
use dap_history::input::Input;
use dap_history::replay::redo;
use dap_run::life::release_program;
use dap_run::program::{Phase, Program};
use dap_search::goal::{Goal, is_at_breakpoint};
use dap_search::search::Search;
use lab_core::run_state::RunState;
use std::alloc::{AllocError, Global};

fn can_go_back(program: &Option<Program>) -> bool
    ensures { result ≡ (has_begun program.now && rewinds.is_debugged program.now) }
{
    match program {
        None => false,
        Some(program) => {
            program.launch.is_debugged && matches!(program.phase, Phase::Begun | Phase::Held(_))
        }
    }
}

impl Session {
    /// Nothing is done: a session represents some state even after an error.
    pub fn represents_some(&self)
        ensures { RepresentsSome self.now }
    {
        let _ = &self.lab;
    }

    /// Whether a run is there, of a program that has begun and is debugged.
    pub fn can_go_back(&self) -> bool
        ensures { (s : SessionState) → RepresentsSession self.now s → result ≡ rewinds.can_go_back s }
    {
        match self.lab.run_state() {
            RunState::NoRun => false,
            RunState::Running | RunState::Stopped => can_go_back(&self.settings.program),
        }
    }

    /// Whether `initialize` was answered.
    pub fn is_initialized(&self) -> bool
        ensures { (s : SessionState) → RepresentsSession self.now s → result ≡ s.settings.is_initialized }
    {
        self.settings.is_initialized
    }

    /// The number of live frames.
    pub fn depth(&self) -> usize
        ensures { (s : SessionState) → RepresentsSession self.now s → result ≡ length (live s.board.trace) }
    {
        self.lab.frames().len()
    }

    /// Whether a breakpoint counts its hits.
    pub fn counts_hits(&self) -> bool
        ensures { (s : SessionState) → RepresentsSession self.now s
            → result ≡ counts_hits s.settings.conditional }
    {
        self.settings.conditional.counts_hits()
    }

    /// Whether a breakpoint stops a run that comes to where this one is.
    pub fn is_at_breakpoint(&self) -> bool
        ensures { (s : SessionState) → RepresentsSession self.now s
            → result ≡ is_goal s.settings.conditional Goal.Breakpoint s.board }
    {
        is_at_breakpoint(&self.lab, &self.settings.conditional)
    }

    /// The numbers of the breakpoints that stop a run that goes back to where this one is.
    pub fn back_ids(&self, alloc: Global) -> Result<Sequence<u32>, AllocError>
        ensures { (s : SessionState) → RepresentsSession self.now s
            → IfOk result (λ ids. ids ≡ back_ids s.settings.conditional s.board) }
    {
        self.settings.conditional.back_ids(alloc, &self.lab)
    }

    /// The history of a run that begins now.
    pub fn begin_history(&self, alloc: Global) -> Result<History, AllocError>
        ensures log { IfOk result (λ history. history.log ≡ []) }
        ensures history { (s : SessionState) → RepresentsSession self.now s
            → IfOk result (IsHistoryOf s.board) }
    {
        History::new(alloc, &self.lab)
    }

    /// Saves the moment at which the run is after `count` steps, if one is due and there is memory for it.
    pub fn save_moment(&self, history: &mut History, count: u64)
        ensures { (start : Board) → IsHistoryOf start history.old → IsRunAt start history.old count self.now
            → KeepsHistory start history.old history.new }
    {
        let saved = history.save_if_due(&self.lab, count);
        drop(saved);
    }

    /// Puts the run back, or on, to where it had made `count` steps, stops it there, and sets the
    /// breakpoints' counts of hits to 0. If memory runs out the run may be at any of its moments.
    pub fn rewind(&mut self, history: &mut History, count: u64) -> Result<(), AllocError>
        requires { (start : Board) × IsHistoryOf start history.old }
        ensures ok { ForEachRun history.old self.old (λ start s. OnOk result
            (RepresentsSession self.new (rewound (board_at start history.old.log count) s))) }
        ensures history { KeepsHistories history.old history.new }
    {
        match history.go_to(&mut self.lab, count) {
            Ok(()) => {
                self.settings.conditional.forget_hits();
                self.release();
                Ok(())
            }
            Err(_) => Err(AllocError),
        }
    }

    // Lets the program go on from where its run is held.
    fn release(&mut self)
        ensures { self.new ≡ record self.old { settings = rewinds.after_release self.old.settings } }
    {
        release_program(&mut self.settings.program);
        self.settings.waits = false;
    }

    /// Begins a search below `count` steps, at which the run is, and holds the run there.
    pub fn begin_search(
        &mut self,
        alloc: Global,
        goal: Goal,
        count: u64,
    ) -> Result<Search, AllocError>
        requires { (start : Board) × (h : HistoryState) × IsRunAt start h count self.old }
        ensures { (start : Board) (log : List Recorded) (s : SessionState) → RepresentsSession self.old s
            → SameParts (board_at start log count) s.board
            → IfOk result (λ search. BeginsSearch goal start log count s search self.new) }
    {
        let search = Search::new(
            alloc,
            &mut self.lab,
            &self.settings.conditional,
            goal,
            count,
        )?;
        self.release();
        Ok(search)
    }

    /// Goes on with a search for about a millisecond. Returns the count that was found, if it was: then the
    /// hits of the steps behind it are taken away. If memory runs out the run may be at any of its moments.
    pub fn search_on(
        &mut self,
        search: &mut Search,
        history: &mut History,
    ) -> Result<Option<u64>, AllocError>
        requires { IsSearched history.old search.old self.old }
        ensures { ForEachSearch history.old search.old self.old (λ start s goal n. IfOk result (λ found.
            KeepsHistory start history.old history.new
            × SearchedFurther goal start history.old.log n s found search.new self.new)) }
    {
        match search.go_on(history, &mut self.lab, &mut self.settings.conditional) {
            Ok(Some(found)) => {
                self.release();
                Ok(Some(found))
            }
            Ok(None) => Ok(None),
            Err(_) => Err(AllocError),
        }
    }

    /// Makes an input of the run again. If memory runs out nothing changes.
    pub fn redo(&mut self, alloc: Global, input: &Input) -> Result<(), AllocError>
        ensures ok { (s : SessionState) → RepresentsSession self.old s
            → OnOk result (RepresentsSession self.new (with_board (after_input input.now s.board) s)) }
        ensures err { OnErr result (self.new ≡ self.old) }
    {
        redo(alloc, &mut self.lab, input)
    }
}
