//! Breakpoints at instructions.
ghost use Rattle.std.specs.Prelude.{◌≡◌, ◌≤◌, length};
ghost use Rattle.dap_session.specs.Breakpoints.{instructions_list, setting_instructions};
ghost use Rattle.dap_session.specs.States.{SessionState, with_points};
ghost use Rattle.dap_session.specs.Represents.{RepresentsSession, RepliesAs, FindsWanted};

use crate::session::Session;
use base_text::sequence::Sequence;
use dap_breakpoints::arming::{ProgramBreakpoints, conditional_for, wanted_of};
use dap_breakpoints::report::instructions_where;
use dap_messages::message::EditorBody;
use dap_points::copies::copy_instructions;
use dap_points::placed::INSTRUCTION_NUMBER;
use dap_requests::request::InstructionBreakpoint;
use dap_run::messages::FollowUp;
use dap_run::reply::{Reply, succeed};
use dap_slice::conditions::ConditionalBreakpoints;
use std::alloc::{AllocError, Global};

impl Session {
    // Sets the breakpoints at instructions.
    pub(super) fn set_instructions(
        &mut self,
        alloc: Global,
        instructions: &Sequence<InstructionBreakpoint>,
    ) -> Result<Reply, AllocError>
        requires { length instructions.now ≤ 256 }
        ensures { RepliesAs (setting_instructions instructions.now) self.old result self.new }
    {
        let breakpoints = instructions.as_slice();
        let kept = copy_instructions(alloc, breakpoints)?;
        let program = &self.settings.program;
        let points = instructions_where(alloc, program, breakpoints, &self.lab)?;
        let conditional = self.breaks_with(alloc, breakpoints)?;
        self.keep_instructions(kept);
        self.keep_conditional(INSTRUCTION_NUMBER, conditional);
        Ok(succeed(EditorBody::Breakpoints(points), FollowUp::Nothing))
    }

    fn keep_instructions(&mut self, instructions: Sequence<InstructionBreakpoint>)
        ensures { (s : SessionState) → RepresentsSession self.old s → RepresentsSession self.new
            (with_points (record s.settings.points { instructions = instructions }) s) }
    {
        self.settings.points.set_instructions(instructions);
    }

    // The breakpoints at which the program's run stops, with these at instructions.
    fn breaks_with(
        &self,
        alloc: Global,
        instructions: &[InstructionBreakpoint],
    ) -> Result<Option<ConditionalBreakpoints>, AllocError>
        requires { length instructions.now ≤ 256 }
        ensures { FindsWanted (instructions_list instructions.now) self.now result }
    {
        match &self.settings.program {
            None => Ok(None),
            Some(program) => {
                let wanted = ProgramBreakpoints {
                    instructions,
                    ..wanted_of(&self.settings.points, program)
                };
                let points = conditional_for(alloc, &self.lab, program, &wanted)?;
                Ok(Some(points))
            }
        }
    }
}
