//! The words of the program, so that tables can name them.
use base_streams::ports::{Inlet, Outlet};
use base_streams::std_io::{StdInlet, StdOutlet};
use cli_engines::asm::run_asm;
use cli_engines::dis::run_dis;
use cli_io::status::Status;
use cli_run::step::run_step;
use std::alloc::Global;
use std::io::{Read, Write};

/// A word, with the origin that follows `dis`.
#[derive(Clone, Copy)]
pub enum Word {
    Step,
    Asm,
    Dis(u16),
}

impl Word {
    fn answer<R: Inlet, W: Outlet>(self, alloc: Global, from: &mut R, to: &mut W) -> Status {
        match self {
            Word::Step => run_step(alloc, from, to),
            Word::Asm => run_asm(alloc, from, to),
            Word::Dis(origin) => run_dis(alloc, origin, from, to),
        }
    }

    /// Runs the word's engine, and gives its status and the writer.
    pub fn run<R: Read + Drop, W: Write + Drop>(
        self,
        alloc: Global,
        reader: R,
        writer: W,
    ) -> (Status, W) {
        let mut from = StdInlet::new(reader);
        let mut to = StdOutlet::new(writer);
        let status = self.answer(alloc, &mut from, &mut to);
        (status, to.into_inner())
    }
}
