//! The status of an engine, which is the program's exit status.
ghost use Rattle.std.specs.Prelude.{◌≡◌};
ghost use Rattle.cli_io.specs.Engine.{exit_status};

#[derive(Clone, Copy, PartialEq, Eq)]
pub enum Status {
    /// All of the text was written.
    Success,
    /// The input is refused; the text says why.
    Refused,
    /// The program doesn't know the words on the command line.
    Usage,
    /// Out of memory.
    OutOfMemory,
    /// A read or a write failed, or the input didn't end.
    Failed,
}

impl Status {
    /// The program's exit status, from 0 to 4.
    pub fn number(self) -> u8
        ensures { result ≡ exit_status self }
    {
        match self {
            Status::Success => 0,
            Status::Refused => 1,
            Status::Usage => 2,
            Status::OutOfMemory => 3,
            Status::Failed => 4,
        }
    }
}
