//! Lines to which PC can be set.
ghost use Rattle.std.specs.Prelude.{Some};
ghost use Rattle.dap_session.specs.States.{SessionState};
ghost use Rattle.dap_session.specs.Targets.{finding_target, going_to};
ghost use Rattle.dap_session.specs.Represents.{RepresentsSession, MakesAs, Replies};

use crate::session::Session;
use base_text::text::Text;
use dap_disassembly::target::first_target;
use dap_history::input::Input;
use dap_messages::message::{EditorBody, EditorStop};
use dap_prompt::outcome::InputReply;
use dap_run::change::set_pc;
use dap_run::life::release_program;
use dap_run::messages::FollowUp;
use dap_run::program::program_at;
use dap_run::refusals::board_refusal;
use dap_run::reply::{Reply, accept, succeed};
use lab_core::fault::EventFault;
use std::alloc::{AllocError, Global};

impl Session {
    // The target of a line.
    pub(super) fn find_target(&self, path: &Text, line: u32) -> Reply
        ensures { (s : SessionState) → RepresentsSession self.now s
            → Replies (finding_target path.now line s) result self.now }
    {
        let target = match program_at(path.as_str(), &self.settings.program) {
            None => None,
            Some(_) => first_target(&self.lab, line),
        };
        succeed(EditorBody::Targets(target), FollowUp::Nothing)
    }

    // Sets PC, only while a run is stopped.
    pub(super) fn go_to(&mut self, alloc: Global, target: u16) -> Result<InputReply, AllocError>
        ensures { MakesAs (going_to target)
            (λ s. Some (Input.Registers (record s.board.machine.regs { pc = target })))
            self.old result self.new }
    {
        if !self.is_stopped() {
            return self.refuse_input(alloc, board_refusal(EventFault::NotStopped));
        }
        let mut registers = self.lab.regs();
        registers.pc = target;
        set_pc(&mut self.lab, target);
        release_program(&mut self.settings.program);
        Ok(InputReply {
            reply: accept(FollowUp::Stopped(EditorStop::Goto)),
            input: Some(Input::Registers(registers)),
        })
    }
}
