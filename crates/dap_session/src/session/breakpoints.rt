//! Breakpoints.
ghost use Rattle.std.specs.Prelude.{◌≡◌, ◌≤◌, length, true, IfOk, OnErr, option_map};
ghost use Rattle.dap_session.specs.Breakpoints.{lines_list, labels_list, kept_or, lines_set};
ghost use Rattle.dap_session.specs.Breakpoints.{setting_lines, setting_functions, locating};
ghost use Rattle.dap_session.specs.States.{SessionState, with_points, with_conditional};
ghost use Rattle.dap_points.specs.Points.{number_of, has_place, with_lines};
ghost use Rattle.dap_breakpoints.specs.Reports.{points_where, labels_where};
ghost use Rattle.dap_run.specs.Programs.{program_at};
ghost use Rattle.dap_run.specs.Bounds.{are_breakpoints_bounded};
ghost use Rattle.dap_session.specs.Requests.{on_source, on_breakpoints};
ghost use Rattle.dap_session.specs.Represents.{RepresentsSession, Replies, RepliesAs, ArmsWanted};

use crate::session::Session;
use base_text::sequence::Sequence;
use base_text::text::Text;
use dap_breakpoints::arming::{ProgramBreakpoints, arm_with, wanted_of};
use dap_breakpoints::report::{labels_where, points_where};
use dap_disassembly::code_lines::locations;
use dap_messages::message::{EditorBody, PlacedBreakpoint};
use dap_points::copies::{copy_functions, copy_source};
use dap_points::placed::LABEL_NUMBER;
use dap_points::points::SourceLines;
use dap_requests::request::{
    BreakpointsCommand, ExceptionFilters, FunctionBreakpoint, LineBreakpoint, SourceCommand,
};
use dap_run::messages::FollowUp;
use dap_run::program::program_at;
use dap_run::reply::{Reply, accept, succeed};
use dap_slice::conditions::ConditionalBreakpoints;
use std::alloc::{AllocError, Global};

impl Session {
    pub(super) fn on_source(
        &mut self,
        alloc: Global,
        path: &Text,
        command: &SourceCommand,
    ) -> Result<Reply, AllocError>
        ensures { RepliesAs (on_source path.now command.now) self.old result self.new }
    {
        match command {
            SourceCommand::SetBreakpoints(lines) => self.set_lines(alloc, path, lines),
            SourceCommand::BreakpointLocations { first, last } => {
                self.locate(alloc, path, *first, *last)
            }
            SourceCommand::GotoTargets { line } => Ok(self.find_target(path, *line)),
        }
    }

    pub(super) fn on_breakpoints(
        &mut self,
        alloc: Global,
        command: &BreakpointsCommand,
    ) -> Result<Reply, AllocError>
        requires { are_breakpoints_bounded command.now ≡ true }
        ensures { RepliesAs (on_breakpoints command.now) self.old result self.new }
    {
        match command {
            BreakpointsCommand::SetFunctionBreakpoints(functions) => {
                self.set_functions(alloc, functions)
            }
            BreakpointsCommand::SetExceptionBreakpoints(filters) => Ok(self.set_filters(*filters)),
            BreakpointsCommand::DataBreakpointInfo(query) => self.describe_data(alloc, query),
            BreakpointsCommand::SetDataBreakpoints(on_data) => self.set_data(alloc, on_data),
            BreakpointsCommand::SetInstructionBreakpoints(instructions) => {
                self.set_instructions(alloc, instructions)
            }
        }
    }

    fn set_filters(&mut self, filters: ExceptionFilters) -> Reply
        ensures { (s : SessionState) → RepresentsSession self.old s
            → Replies (on_breakpoints (BreakpointsCommand.SetExceptionBreakpoints filters) s)
            result self.new }
    {
        self.settings.filters = filters;
        accept(FollowUp::Nothing)
    }

    // Sets the breakpoints of a source.
    fn set_lines(
        &mut self,
        alloc: Global,
        path: &Text,
        lines: &Sequence<LineBreakpoint>,
    ) -> Result<Reply, AllocError>
        ensures { RepliesAs (setting_lines path.now lines.now) self.old result self.new }
    {
        if !self.settings.points.has_place(path.as_str()) {
            return self.refuse_with(alloc, "too many sources have breakpoints");
        }
        let source = copy_source(alloc, path, lines.as_slice())?;
        self.place_lines(alloc, source)
    }

    fn place_lines(&mut self, alloc: Global, source: SourceLines) -> Result<Reply, AllocError>
        requires { has_place source.path self.old.settings.points.lists ≡ true }
        ensures { RepliesAs (lines_set source) self.old result self.new }
    {
        let number = self.list_number(&source.path);
        let points = self.line_points(alloc, &source)?;
        let conditional = self.arm_lines(alloc, &source)?;
        self.keep_lines(source);
        self.keep_conditional(number, conditional);
        Ok(succeed(EditorBody::Breakpoints(points), FollowUp::Nothing))
    }

    // The number of a source's list.
    fn list_number(&self, path: &Text) -> u32
        ensures number { (s : SessionState) → RepresentsSession self.now s
            → result ≡ number_of path.now s.settings.points.lists }
        ensures few { result ≤ 1025 }
    {
        self.settings.points.number_of(path.as_str())
    }

    fn line_points(
        &self,
        alloc: Global,
        source: &SourceLines,
    ) -> Result<Sequence<PlacedBreakpoint>, AllocError>
        ensures { (s : SessionState) → RepresentsSession self.now s → IfOk result (λ points. points
            ≡ points_where s.settings.program s.board
            (number_of source.now.path s.settings.points.lists) source.now) }
    {
        let number = self.list_number(&source.path);
        points_where(alloc, &self.settings.program, &self.lab, number, source)
    }

    // Makes the board stop at these lines, if the program is this source, and returns the breakpoints at
    // which its run stops then.
    fn arm_lines(
        &mut self,
        alloc: Global,
        source: &SourceLines,
    ) -> Result<Option<ConditionalBreakpoints>, AllocError>
        ensures ok { ArmsWanted (lines_list source.now) (program_at source.now.path)
            self.old result self.new }
        ensures rest { self.new ≡ record self.old { lab = self.new.lab } }
        ensures err { OnErr result (self.new ≡ self.old) }
    {
        match program_at(source.path.as_str(), &self.settings.program) {
            None => Ok(None),
            Some(program) => {
                let wanted = ProgramBreakpoints {
                    lines: source.used(),
                    ..wanted_of(&self.settings.points, program)
                };
                let points = arm_with(alloc, &mut self.lab, program, &wanted)?;
                Ok(Some(points))
            }
        }
    }

    // Takes these breakpoints in place of those before, if there are some. Those of the list with this number
    // begin to count hits, and the others count on.
    pub(super) fn keep_conditional(&mut self, number: u32, points: Option<ConditionalBreakpoints>)
        requires { number ≤ 1026 }
        ensures { (s : SessionState) → RepresentsSession self.old s
            → RepresentsSession self.new
            (with_conditional (kept_or number points s.settings.conditional) s) }
    {
        if let Some(mut points) = points {
            points.keep_counts(number, &self.settings.conditional);
            self.settings.conditional = points;
        }
    }

    fn keep_lines(&mut self, source: SourceLines)
        requires { has_place source.path self.old.settings.points.lists ≡ true }
        ensures { (s : SessionState) → RepresentsSession self.old s → RepresentsSession self.new
            (with_points (with_lines source.path source.lines s.settings.points) s) }
    {
        let SourceLines { path, lines } = source;
        self.settings.points.set_lines(path, lines);
    }

    // Sets the breakpoints at labels.
    fn set_functions(
        &mut self,
        alloc: Global,
        functions: &Sequence<FunctionBreakpoint>,
    ) -> Result<Reply, AllocError>
        requires { length functions.now ≤ 256 }
        ensures { RepliesAs (setting_functions functions.now) self.old result self.new }
    {
        let labels = functions.as_slice();
        let kept = copy_functions(alloc, labels)?;
        let points = self.label_points(alloc, labels)?;
        let conditional = self.arm_labels(alloc, labels)?;
        self.keep_functions(kept);
        self.keep_conditional(LABEL_NUMBER, conditional);
        Ok(succeed(EditorBody::Breakpoints(points), FollowUp::Nothing))
    }

    fn keep_functions(&mut self, functions: Sequence<FunctionBreakpoint>)
        ensures { (s : SessionState) → RepresentsSession self.old s → RepresentsSession self.new
            (with_points (record s.settings.points { functions = functions }) s) }
    {
        self.settings.points.set_functions(functions);
    }

    fn label_points(
        &self,
        alloc: Global,
        functions: &[FunctionBreakpoint],
    ) -> Result<Sequence<PlacedBreakpoint>, AllocError>
        requires { length functions.now ≤ 256 }
        ensures { (s : SessionState) → RepresentsSession self.now s → IfOk result (λ points. points
            ≡ labels_where s.settings.program functions.now s.board) }
    {
        labels_where(alloc, &self.settings.program, functions, &self.lab)
    }

    // Makes the program's board stop at these labels, and returns the breakpoints at which its run stops.
    fn arm_labels(
        &mut self,
        alloc: Global,
        functions: &[FunctionBreakpoint],
    ) -> Result<Option<ConditionalBreakpoints>, AllocError>
        requires { length functions.now ≤ 256 }
        ensures ok { ArmsWanted (labels_list functions.now) (λ program. program) self.old result self.new }
        ensures rest { self.new ≡ record self.old { lab = self.new.lab } }
        ensures err { OnErr result (self.new ≡ self.old) }
    {
        match &self.settings.program {
            None => Ok(None),
            Some(program) => {
                let wanted = ProgramBreakpoints {
                    functions,
                    ..wanted_of(&self.settings.points, program)
                };
                let points = arm_with(alloc, &mut self.lab, program, &wanted)?;
                Ok(Some(points))
            }
        }
    }

    // The lines between two lines of a source that can have breakpoints.
    fn locate(&self, alloc: Global, path: &Text, first: u32, last: u32) -> Result<Reply, AllocError>
        ensures { RepliesAs (locating path.now first last) self.now result self.now }
    {
        let lines = match program_at(path.as_str(), &self.settings.program) {
            None => Sequence::new(alloc),
            Some(_) => locations(alloc, &self.lab, first, last)?,
        };
        Ok(succeed(EditorBody::Locations(lines), FollowUp::Nothing))
    }
}
