//! Evaluations, lines of the debugger's prompt, and variables.
ghost use Rattle.std.specs.Prelude.{Some};
ghost use Rattle.dap_session.specs.Evaluations.{evaluating, command_reply, prompting};
ghost use Rattle.dap_session.specs.Evaluations.{setting_stopped, handling};
ghost use Rattle.dap_prompt.specs.Prompt.{prompt_command};
ghost use Rattle.dap_run.specs.Boards.{board_result};
ghost use Rattle.dap_prompt.specs.Answers.{value_set};
ghost use Rattle.dap_prompt.specs.Inputs.{prompt_input, set_input, input_of};
ghost use Rattle.dap_requests.specs.declared.request.RequestContent.{RequestContent};
ghost use Rattle.dap_requests.specs.declared.request.EditorCommand.{EditorCommand};
ghost use Rattle.dap_session.specs.Represents.{MakesAs, RepliesAs};

use crate::session::Session;
use crate::session::requests::refuse_for;
use base_text::text::Text;
use dap_messages::message::{EditorBody, EditorOutcome, ValueFormat};
use dap_prompt::answer::{
    VariablesAnswer, done_value, evaluation, prompt_evaluation, variables_answer,
};
use dap_prompt::inputs::command_input;
use dap_prompt::outcome::{InputReply, shown};
use dap_prompt::prompt::{PromptCommand, prompt_command};
use dap_requests::request::{BoardCommand, EvaluateContext, VariablesCommand};
use dap_run::board::perform_command;
use dap_run::refusals::board_refusal;
use dap_run::reply::{Reply, succeed};
use dap_values::assignment::SetValue;
use lab_core::fault::EventFault;
use std::alloc::{AllocError, Global};

impl Session {
    pub(super) fn evaluate(
        &mut self,
        alloc: Global,
        expression: &str,
        context: EvaluateContext,
        format: ValueFormat,
    ) -> Result<InputReply, AllocError>
        ensures { MakesAs (evaluating expression.now context format)
            (λ s. input_of (RequestContent.Editor
            (EditorCommand.Evaluate expression.now context format)) s.board) self.old result self.new }
    {
        match context {
            EvaluateContext::Repl => self.evaluate_line(alloc, expression, format),
            EvaluateContext::Watch | EvaluateContext::Other => {
                let outcome = evaluation(alloc, &self.lab, expression, format)?;
                Ok(shown(outcome))
            }
        }
    }

    // Does what a line of the prompt asks for.
    fn evaluate_line(
        &mut self,
        alloc: Global,
        line: &str,
        format: ValueFormat,
    ) -> Result<InputReply, AllocError>
        ensures { MakesAs (λ s. prompting (prompt_command line.now) line.now format s)
            (λ _. prompt_input (prompt_command line.now)) self.old result self.new }
    {
        match prompt_command(alloc, line)? {
            PromptCommand::Board(command) => {
                let input = command_input(alloc, &command)?;
                let reply = self.do_command(alloc, &command)?;
                Ok(InputReply { reply, input })
            }
            PromptCommand::MissingByte => self.refuse_input(
                alloc,
                "a number from 0 to 255 must follow",
            ),
            PromptCommand::Evaluate => {
                let outcome = prompt_evaluation(alloc, &self.lab, line, format)?;
                Ok(shown(outcome))
            }
        }
    }

    // Performs a command of the prompt. The text of its reply is made before.
    fn do_command(&mut self, alloc: Global, command: &BoardCommand) -> Result<Reply, AllocError>
        ensures { RepliesAs (λ s. command_reply (board_result command.now s.board) s)
            self.old result self.new }
    {
        let done = done_value(alloc)?;
        let follow = self.change_follow();
        match perform_command(alloc, &mut self.lab, command) {
            Ok(body) => {
                drop(body);
                Ok(succeed(EditorBody::Evaluation(done), follow))
            }
            Err(fault) => refuse_for(alloc, fault),
        }
    }

    // Shows variables or completions, or sets a value.
    pub(super) fn handle(
        &mut self,
        alloc: Global,
        command: &VariablesCommand,
    ) -> Result<InputReply, AllocError>
        ensures { MakesAs (handling command.now) (λ s. set_input (value_set command.now s.board))
            self.old result self.new }
    {
        match variables_answer(alloc, &self.lab, command)? {
            VariablesAnswer::Outcome(outcome) => Ok(shown(outcome)),
            VariablesAnswer::Change(set) => self.set(alloc, set),
        }
    }

    // Sets a value if a run is stopped.
    fn set(&mut self, alloc: Global, set: Result<SetValue, Text>) -> Result<InputReply, AllocError>
        ensures { MakesAs (setting_stopped set) (λ _. set_input (Some set)) self.old result self.new }
    {
        if !self.is_stopped() {
            drop(set);
            return self.refuse_input(alloc, board_refusal(EventFault::NotStopped));
        }
        match set {
            Ok(
                SetValue {
                    input,
                    shown: value,
                },
            ) => {
                let follow = self.change_follow();
                self.redo(alloc, &input)?;
                Ok(InputReply {
                    reply: succeed(EditorBody::Value(value), follow),
                    input: Some(input),
                })
            }
            Err(message) => Ok(shown(EditorOutcome::Refused(message))),
        }
    }
}
