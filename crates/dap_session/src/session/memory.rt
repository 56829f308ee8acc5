//! Memory and code.
ghost use Rattle.std.specs.Prelude.{◌≡◌, true, IfOk};
ghost use Rattle.dap_run.specs.Bounds as bounds;
ghost use Rattle.dap_session.specs.Memory.{first_line, memory_at, is_stopped};
ghost use Rattle.dap_session.specs.Memory.{writing_from, writing};
ghost use Rattle.dap_session.specs.Requests.{reading, disassembling_from, on_memory};
ghost use Rattle.dap_session.specs.States.{SessionState};
ghost use Rattle.dap_prompt.specs.Inputs.{input_of};
ghost use Rattle.dap_requests.specs.declared.request.RequestContent.{RequestContent};
ghost use Rattle.dap_requests.specs.declared.request.EditorCommand.{EditorCommand};
ghost use Rattle.dap_values.specs.Distances.{address_at};
ghost use Rattle.dap_session.specs.Represents.{RepresentsSession, MakesAs, RepliesAs};

use crate::session::Session;
use base_text::sequence::Bytes;
use dap_disassembly::before::before_instructions;
use dap_disassembly::disassembly::instructions;
use dap_messages::message::{EditorBody, OperandStyle};
use dap_prompt::inputs::bytes_input;
use dap_prompt::outcome::{InputReply, without_input};
use dap_requests::offset::SignedOffset;
use dap_requests::request::MemoryCommand;
use dap_run::messages::FollowUp;
use dap_run::refusals::board_refusal;
use dap_run::reply::{Reply, succeed};
use dap_values::distance::{address_at, far_address, wrapped_at, writable};
use dap_values::memory::read_memory;
use lab_core::fault::EventFault;
use lab_core::run_state::RunState;
use std::alloc::{AllocError, Global};

impl Session {
    // At most `count` bytes from a start on; without one all are unreadable, from `far` on.
    fn memory_at(
        &self,
        alloc: Global,
        start: Option<u16>,
        far: i64,
        count: u32,
    ) -> Result<EditorBody, AllocError>
        ensures { (s : SessionState) → RepresentsSession self.now s
            → IfOk result (λ body. body ≡ memory_at start far count s.board.machine) }
    {
        match start {
            None => Ok(EditorBody::NoMemory {
                address: far,
                count,
            }),
            Some(start) => {
                let bytes = read_memory(alloc, &self.lab, start, count)?;
                let unreadable = (count as usize).saturating_sub(bytes.len()) as u32;
                Ok(EditorBody::Memory {
                    address: start,
                    bytes,
                    unreadable,
                })
            }
        }
    }

    fn read_memory(
        &mut self,
        alloc: Global,
        address: u16,
        offset: SignedOffset,
        count: u32,
    ) -> Result<Reply, AllocError>
        ensures { RepliesAs (reading address offset count) self.old result self.new }
    {
        let far = far_address(address, offset);
        let body = self.memory_at(alloc, address_at(address, offset), far, count)?;
        Ok(succeed(body, FollowUp::Nothing))
    }

    // The address of the line of code that is so many instructions from an address.
    fn first_line(&self, address: u16, offset: SignedOffset) -> u16
        requires { bounds.is_near offset ≡ true }
        ensures { (s : SessionState) → RepresentsSession self.now s
            → result ≡ first_line address offset s.board }
    {
        match offset {
            SignedOffset::Forward(n) => self.lab.after_instructions(address, n as u16),
            SignedOffset::Back(n) => before_instructions(&self.lab, address, n),
        }
    }

    fn disassemble(
        &mut self,
        alloc: Global,
        from: u16,
        instruction_offset: SignedOffset,
        count: u16,
        operands: OperandStyle,
    ) -> Result<Reply, AllocError>
        requires { bounds.is_near instruction_offset ≡ true }
        ensures { RepliesAs (disassembling_from from instruction_offset count operands)
            self.old result self.new }
    {
        let start = self.first_line(from, instruction_offset);
        let path = match &self.settings.program {
            None => "",
            Some(program) => program.launch.program.as_str(),
        };
        let lines = instructions(alloc, &self.lab, path, start, count, operands)?;
        Ok(succeed(EditorBody::Instructions(lines), FollowUp::Nothing))
    }

    pub fn is_stopped(&self) -> bool
        ensures { (s : SessionState) → RepresentsSession self.now s → result ≡ is_stopped s.board.run }
    {
        match self.lab.run_state() {
            RunState::Stopped => true,
            RunState::NoRun | RunState::Running => false,
        }
    }

    // Writes as many bytes as there are addresses for.
    fn write_at(
        &mut self,
        alloc: Global,
        address: Option<u16>,
        bytes: &Bytes,
    ) -> Result<Reply, AllocError>
        ensures { RepliesAs (writing_from address bytes.now) self.old result self.new }
    {
        let Some(start) = address else {
            return self.refuse_with(alloc, "there is no such address");
        };
        let follow = self.change_follow();
        let all = writable(start, bytes.as_slice());
        self.lab.write(start, all);
        Ok(succeed(EditorBody::Written(all.len() as u32), follow))
    }

    // Writes bytes of a stopped run's memory, as many as there are addresses for.
    fn write_memory(
        &mut self,
        alloc: Global,
        address: u16,
        offset: SignedOffset,
        bytes: &Bytes,
    ) -> Result<Reply, AllocError>
        ensures { RepliesAs (writing address offset bytes.now) self.old result self.new }
    {
        if !self.is_stopped() {
            return self.refuse_with(alloc, board_refusal(EventFault::NotStopped));
        }
        self.write_at(alloc, address_at(address, offset), bytes)
    }

    pub(super) fn on_memory(
        &mut self,
        alloc: Global,
        command: &MemoryCommand,
    ) -> Result<InputReply, AllocError>
        requires { bounds.is_memory_bounded command.now ≡ true }
        ensures { MakesAs (on_memory command.now)
            (λ s. input_of (RequestContent.Editor (EditorCommand.Memory command.now)) s.board)
            self.old result self.new }
    {
        match command {
            MemoryCommand::ReadMemory {
                address,
                offset,
                count,
            } => {
                let reply = self.read_memory(alloc, *address, *offset, *count)?;
                Ok(without_input(reply))
            }
            MemoryCommand::WriteMemory {
                address,
                offset,
                bytes,
            } => {
                let input = bytes_input(alloc, *address, *offset, bytes)?;
                let reply = self.write_memory(alloc, *address, *offset, bytes)?;
                Ok(InputReply { reply, input })
            }
            MemoryCommand::Disassemble {
                address,
                offset,
                instruction_offset,
                instruction_count,
                operands,
            } => {
                let from = wrapped_at(*address, *offset);
                let reply = self.disassemble(
                    alloc,
                    from,
                    *instruction_offset,
                    *instruction_count,
                    *operands,
                )?;
                Ok(without_input(reply))
            }
        }
    }
}
