//! A launched program, and how far it is.
ghost use Rattle.std.specs.Prelude.{◌≡◌, option_map};
ghost use Rattle.dap_run.specs.Programs.{program_at};

use dap_requests::request::Launch;
use lab_core::answer::End;
use lab_core::lab::Lab;

/// How far a program is.
#[derive(Clone, Copy)]
pub enum Phase {
    /// It hasn't begun.
    Loaded,
    Begun,
    /// Its run has ended, and is held there.
    Held(End),
    /// The editor was told of its end.
    Over,
}

/// A program that was launched.
#[derive(Drop)]
pub struct Program {
    pub launch: Launch,
    /// The address that END names.
    pub start: u16,
    pub phase: Phase,
}

/// A program on a board of its own.
#[derive(Drop)]
pub struct LoadedProgram {
    pub program: Program,
    pub lab: Lab,
}

/// The program, if it is the file with this path.
pub fn program_at<'a>(path: &str, program: &'a Option<Program>) -> Option<&'a Program>
    ensures { option_map (λ p. p.now) result ≡ program_at path.now program.now }
{
    match program {
        Some(program) if program.launch.canonical.as_str() == path => Some(program),
        _ => None,
    }
}
