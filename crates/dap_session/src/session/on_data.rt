//! Breakpoints on data.
ghost use Rattle.std.specs.Prelude.{◌≡◌, ◌≤◌, length};
ghost use Rattle.dap_session.specs.Breakpoints.{data_list, setting_data, describing_data};
ghost use Rattle.dap_session.specs.States.{SessionState, with_points};
ghost use Rattle.dap_session.specs.Represents.{RepresentsSession, RepliesAs, FindsWanted};

use crate::session::Session;
use base_text::sequence::Sequence;
use dap_breakpoints::arming::{ProgramBreakpoints, conditional_for, wanted_of};
use dap_breakpoints::info::data_info;
use dap_breakpoints::report::data_where;
use dap_messages::message::EditorBody;
use dap_points::copies::copy_data;
use dap_points::placed::DATA_NUMBER;
use dap_requests::request::{DataBreakpoint, DataQuery};
use dap_run::messages::FollowUp;
use dap_run::reply::{Reply, succeed};
use dap_slice::conditions::ConditionalBreakpoints;
use std::alloc::{AllocError, Global};

impl Session {
    // What a breakpoint on data would watch.
    pub(super) fn describe_data(
        &self,
        alloc: Global,
        query: &DataQuery,
    ) -> Result<Reply, AllocError>
        ensures { RepliesAs (describing_data query.now) self.now result self.now }
    {
        let info = data_info(alloc, &self.lab, query)?;
        Ok(succeed(EditorBody::DataInfo(info), FollowUp::Nothing))
    }

    // Sets the breakpoints on data.
    pub(super) fn set_data(
        &mut self,
        alloc: Global,
        on_data: &Sequence<DataBreakpoint>,
    ) -> Result<Reply, AllocError>
        requires { length on_data.now ≤ 256 }
        ensures { RepliesAs (setting_data on_data.now) self.old result self.new }
    {
        let breakpoints = on_data.as_slice();
        let kept = copy_data(alloc, breakpoints)?;
        let points = data_where(alloc, &self.settings.program, breakpoints, &self.lab)?;
        let conditional = self.watches_with(alloc, breakpoints)?;
        self.keep_data(kept);
        self.keep_conditional(DATA_NUMBER, conditional);
        Ok(succeed(EditorBody::Breakpoints(points), FollowUp::Nothing))
    }

    fn keep_data(&mut self, on_data: Sequence<DataBreakpoint>)
        ensures { (s : SessionState) → RepresentsSession self.old s → RepresentsSession self.new
            (with_points (record s.settings.points { on_data = on_data }) s) }
    {
        self.settings.points.set_data(on_data);
    }

    // The breakpoints at which the program's run stops, with these on data.
    fn watches_with(
        &self,
        alloc: Global,
        on_data: &[DataBreakpoint],
    ) -> Result<Option<ConditionalBreakpoints>, AllocError>
        requires { length on_data.now ≤ 256 }
        ensures { FindsWanted (data_list on_data.now) self.now result }
    {
        match &self.settings.program {
            None => Ok(None),
            Some(program) => {
                let wanted = ProgramBreakpoints {
                    on_data,
                    ..wanted_of(&self.settings.points, program)
                };
                let points = conditional_for(alloc, &self.lab, program, &wanted)?;
                Ok(Some(points))
            }
        }
    }
}
