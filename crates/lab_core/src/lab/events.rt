//! Applying events to a board, one or a list.
ghost use Rattle.std.specs.Prelude.{◌≡◌, [], All, false, None, OnErr, IfOk, IsTrue, ◌↔◌, Err};
ghost use Rattle.lab_core.specs.Board.{Board};
ghost use Rattle.lab_core.specs.Events.{Fits, after_end, machine_reset};
ghost use Rattle.lab_core.specs.Memory.{MayLackMemory};
ghost use Rattle.lab_core.specs.Labs.{RepresentsBoard, AppliesTo};
ghost use Rattle.lab_core.specs.Replies.{RepliesTo, RepliesInOrder};

use crate::answer::{Answer, Answers, EventsFault, Wanted};
use crate::event::Event;
use crate::fault::EventFault;
use crate::lab::Lab;
use crate::run_state::RunState;
use i80_base::board;
use i80_exec::machine::Machine;
use std::alloc::AllocError;

fn is_out_of_memory(answer: &Result<Answer, EventFault>) -> bool
    ensures { IsTrue result ↔ (answer.now ≡ Err EventFault.OutOfMemory) }
{
    matches!(answer, Err(EventFault::OutOfMemory))
}

impl Lab {
    /// Applies an event.
    ///
    /// # Errors
    ///
    /// Errors are checked in this order: of a Load `Busy`, `SourceNameTaken`, `SourcesFull`, then
    /// `Assembly`; of a Pause `NotAttached`, then `NotRunning`; of a view `NotStopped`, then `BadFrame`;
    /// of a Press `Vector`, then `Latched`; of a Poke `NotStopped`, `BadReference`, `UnknownName`, then
    /// `BadValue`. All of them come before `OutOfMemory`, except that assembling a cell can run out of
    /// memory before it finds a fault.
    pub fn apply(&mut self, event: &Event) -> Result<Answer, EventFault>
        requires { Fits event.now }
        ensures { RepliesTo self.old event.now result self.new }
    {
        self.apply_one(event)
    }

    fn apply_one(&mut self, event: &Event) -> Result<Answer, EventFault>
        requires { Fits event.now }
        ensures applied { AppliesTo self.old event.now result self.new }
        ensures err { OnErr result (self.new ≡ self.old) }
        ensures memory { result ≡ Err EventFault.OutOfMemory → MayLackMemory event.now self.old }
    {
        match event {
            Event::Load { path, text } => self.load(path.as_str(), text.as_str()),
            Event::Dump { path, text } => self.dump(path.as_str(), text.as_str()),
            Event::Start(address) => self.start(*address),
            Event::Slice(n) => self.slice(*n),
            Event::Pause => self.pause(),
            Event::Resume => self.resume(),
            Event::Step(request) => self.step_on(*request),
            Event::Poke {
                reference,
                name,
                value,
            } => self.poke(*reference, name.as_str(), value.as_str()),
            Event::Interrupt => self.interrupt(),
            Event::Reset => self.reset(),
            Event::SetBoard(option) => self.set_board(*option),
            Event::SetBreakpoints { path, lines } => {
                self.set_breakpoints(path.as_str(), lines.as_slice())
            }
            Event::Attach => self.attach(),
            Event::Detach => self.detach(),
            Event::Typed(bytes) => self.type_bytes(bytes.as_slice()),
            Event::Switches(byte) => self.set_switches(*byte),
            Event::Press(n) => self.press(*n),
            Event::Show(view) => self.show(view),
        }
    }

    /// Applies events in order. A refused event doesn't end the list: its error is an answer like any other.
    ///
    /// # Errors
    ///
    /// Returns the answers so far at the first event that runs out of memory, or whose answer finds no space.
    /// Neither that event nor a later one has any effect.
    pub fn run(&mut self, events: &[Event]) -> Result<Answers, EventsFault>
        requires { All Fits events.now }
        ensures { RepliesInOrder self.old events.now result self.new }
    {
        let mut answers = Vec::new(self.alloc);
        for event in events {
            if answers.reserve(1).is_err() {
                return Err(EventsFault {
                    answers: Answers::from(answers),
                    wanted: Wanted::Answer,
                });
            }
            let answer = self.apply(event);
            if is_out_of_memory(&answer) {
                return Err(EventsFault {
                    answers: Answers::from(answers),
                    wanted: Wanted::Event,
                });
            }
            answers.push_reserved(answer);
        }
        Ok(Answers::from(answers))
    }

    fn start(&mut self, address: u16) -> Result<Answer, EventFault>
        ensures applied { AppliesTo self.old (Event.Start address) result self.new }
        ensures err { OnErr result (self.new ≡ self.old) }
        ensures memory { result ≡ Err EventFault.OutOfMemory → MayLackMemory (Event.Start address) self.old }
    {
        match self.run_state {
            RunState::Running | RunState::Stopped => Err(EventFault::Busy),
            RunState::NoRun => {
                self.forget_steps();
                self.machine.set_pc(address);
                self.run_state = RunState::Running;
                Ok(Answer::Started)
            }
        }
    }

    fn interrupt(&mut self) -> Result<Answer, EventFault>
        ensures applied { AppliesTo self.old Event.Interrupt result self.new }
        ensures err { OnErr result (self.new ≡ self.old) }
        ensures memory { result ≡ Err EventFault.OutOfMemory → MayLackMemory Event.Interrupt self.old }
    {
        match self.run_state {
            RunState::NoRun => Err(EventFault::NotRunning),
            RunState::Running | RunState::Stopped => Ok(self.end_run()),
        }
    }

    fn end_run(&mut self) -> Answer
        ensures answer { result ≡ Answer.Interrupted }
        ensures represents { (b : Board) → RepresentsBoard self.old b
            → RepresentsBoard self.new (after_end b) }
    {
        self.run_state = RunState::NoRun;
        self.context.request = None;
        Answer::Interrupted
    }

    // Forgets the run's steps.
    fn forget_steps(&mut self)
        ensures { self.new ≡ record self.old {
          frames = [];
          is_halted = false;
          is_resumed = false;
          has_moved = false;
          request = None;
        } }
    {
        self.context.frames.clear();
        self.context.is_halted = false;
        self.context.is_resumed = false;
        self.context.has_moved = false;
        self.context.request = None;
    }

    // A machine after power-on that treats undefined opcodes as the present one does.
    fn new_machine(&self) -> Result<Machine, AllocError>
        ensures { IfOk result (λ machine. machine ≡ machine_reset self.now.machine) }
    {
        let mut machine = Machine::new(self.alloc)?;
        machine.set_board(self.machine.board());
        Ok(machine)
    }

    fn reset(&mut self) -> Result<Answer, EventFault>
        ensures applied { AppliesTo self.old Event.Reset result self.new }
        ensures err { OnErr result (self.new ≡ self.old) }
        ensures memory { result ≡ Err EventFault.OutOfMemory → MayLackMemory Event.Reset self.old }
    {
        // Allocated before anything changes.
        let machine = self.new_machine()?;
        self.forget_steps();
        self.machine = machine;
        self.context.devices.clear();
        self.context.origins.clear();
        self.context.breakpoints.refresh(&self.context.origins);
        self.run_state = RunState::NoRun;
        Ok(Answer::Reset)
    }

    fn set_board(&mut self, option: board::Board) -> Result<Answer, EventFault>
        ensures applied { AppliesTo self.old (Event.SetBoard option) result self.new }
        ensures err { OnErr result (self.new ≡ self.old) }
        ensures memory { result ≡ Err EventFault.OutOfMemory
            → MayLackMemory (Event.SetBoard option) self.old }
    {
        match self.run_state {
            RunState::Running | RunState::Stopped => Err(EventFault::Busy),
            RunState::NoRun => {
                self.machine.set_board(option);
                Ok(Answer::BoardSet)
            }
        }
    }

    fn type_bytes(&mut self, bytes: &[u8]) -> Result<Answer, EventFault>
        ensures applied { AppliesTo self.old (Event.Typed bytes.now) result self.new }
        ensures err { OnErr result (self.new ≡ self.old) }
        ensures memory { result ≡ Err EventFault.OutOfMemory
            → MayLackMemory (Event.Typed bytes.now) self.old }
    {
        self.context.devices.type_bytes(bytes)?;
        Ok(Answer::Accepted)
    }

    fn set_switches(&mut self, byte: u8) -> Result<Answer, EventFault>
        ensures applied { AppliesTo self.old (Event.Switches byte) result self.new }
        ensures err { OnErr result (self.new ≡ self.old) }
        ensures memory { result ≡ Err EventFault.OutOfMemory → MayLackMemory (Event.Switches byte) self.old }
    {
        self.context.devices.set_switches(byte);
        Ok(Answer::Accepted)
    }

    fn press(&mut self, n: u8) -> Result<Answer, EventFault>
        ensures applied { AppliesTo self.old (Event.Press n) result self.new }
        ensures err { OnErr result (self.new ≡ self.old) }
        ensures memory { result ≡ Err EventFault.OutOfMemory → MayLackMemory (Event.Press n) self.old }
    {
        self.context.devices.press(n)?;
        Ok(Answer::Accepted)
    }
}
