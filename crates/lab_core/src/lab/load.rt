//! The events Load and Dump.
ghost use Rattle.std.specs.Prelude.{◌≡◌, ◌<◌, Err, OnOk, OnErr};
ghost use Rattle.asm_syntax.specs.Outcome.{Gives};
ghost use Rattle.asm_build.specs.Meaning.{meaning_in};
ghost use Rattle.lab_core.specs.Board.{Board};
ghost use Rattle.lab_image.specs.Sources.{number_at};
ghost use Rattle.lab_core.specs.Events.{cell_meaning, with_built, with_cell, result_of};
ghost use Rattle.lab_core.specs.Labs.{RepresentsBoard, AppliesTo, CarriesOut};
ghost use Rattle.lab_core.specs.Memory.{MayLackMemory};

use crate::answer::Answer;
use crate::event::Event;
use crate::fault::EventFault;
use crate::lab::Lab;
use crate::run_state::RunState;
use asm_build::built::Built;
use asm_build::cell::build;
use asm_syntax::fault::AsmFault;
use asm_text::statements::statements;
use lab_image::sources::Source;
use std::alloc::AllocError;

impl Lab {
    pub(super) fn load(&mut self, path: &str, text: &str) -> Result<Answer, EventFault>
        ensures given { CarriesOut (result_of (Event.Load path.now text.now)) self.old result self.new }
        ensures err { OnErr result (self.new ≡ self.old) }
        ensures memory { result ≡ Err EventFault.OutOfMemory
            → MayLackMemory (Event.Load path.now text.now) self.old }
    {
        match self.run_state {
            RunState::Running | RunState::Stopped => Err(EventFault::Busy),
            RunState::NoRun => {
                let place = self.sources.place(path, text)?;
                let built = self.assemble(text)?;
                let start = built.start;
                self.keep(place, path, text, built)?;
                Ok(Answer::Loaded { start })
            }
        }
    }

    pub(super) fn dump(&mut self, path: &str, text: &str) -> Result<Answer, EventFault>
        ensures applied { AppliesTo self.old (Event.Dump path.now text.now) result self.new }
        ensures err { OnErr result (self.new ≡ self.old) }
        ensures memory { result ≡ Err EventFault.OutOfMemory
            → MayLackMemory (Event.Dump path.now text.now) self.old }
    {
        match self.sources.place(path, text)? {
            Some(_) => Ok(Answer::Dumped),
            None => {
                let dumped = Source::copy_of(self.alloc, path, text)?;
                self.sources.add(dumped);
                Ok(Answer::Dumped)
            }
        }
    }

    fn assemble(&self, text: &str) -> Result<Built, AsmFault>
        ensures { Gives meaning_in result (cell_meaning self.now.symbols text.now) }
    {
        let statements = statements(self.alloc, text)?;
        let built = build(self.alloc, &statements, &self.symbols);
        drop(statements);
        built
    }

    // Loads an assembled cell and stores its text: in its place, or at the end if it has none.
    fn keep(
        &mut self,
        place: Option<usize>,
        path: &str,
        text: &str,
        built: Built,
    ) -> Result<(), AllocError>
        requires { number_at place self.old.sources < 1024 }
        ensures ok { OnOk result ((b : Board) → RepresentsBoard self.old b → RepresentsBoard self.new
            (with_cell (record { path = path.now; text = text.now }) place (meaning_in built) b)) }
        ensures err { OnErr result (self.new ≡ self.old) }
    {
        match place {
            Some(number) => self.put(number as u32, built),
            None => {
                let source = Source::copy_of(self.alloc, path, text)?;
                let number = self.sources.len() as u32;
                self.put(number, built)?;
                self.sources.add(source);
                Ok(())
            }
        }
    }

    // Writes an assembled cell to memory as the source of this number, and keeps its symbols.
    fn put(&mut self, number: u32, built: Built) -> Result<(), AllocError>
        ensures ok { OnOk result ((b : Board) → RepresentsBoard self.old b
            → RepresentsBoard self.new (with_built number (meaning_in built) b)) }
        ensures sources { self.new.sources ≡ self.old.sources }
        ensures err { OnErr result (self.new ≡ self.old) }
    {
        self.context
            .origins
            .load(&mut self.machine, number, &built)?;
        let Built { symbols, .. } = built;
        self.symbols = symbols;
        self.context.breakpoints.refresh(&self.context.origins);
        Ok(())
    }
}
