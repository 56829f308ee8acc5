//! Why a request is refused.
ghost use Rattle.std.specs.Prelude.{◌≡◌};
ghost use Rattle.dap_talk.specs.Fault.{message_of};

use std::fmt;
use thiserror::Error;

/// Why a value isn't a request that can be carried out, in the order of the checks. What the
/// response repeats of the request is borrowed from it, so that refusing allocates nothing.
#[derive(Drop, Error)]
pub enum DapFault<'a> {
    /// The value is a request, and there is no memory for what it carries.
    OutOfMemory,
    /// Not an object with the type `request`, a number and a command.
    NotRequest,
    /// A command that isn't in the table.
    Command { seq: u32, command: &'a str },
    /// An argument is missing, of the wrong type, or out of its bounds.
    Arguments { seq: u32, command: &'a str },
}

impl fmt::Display for DapFault<'_> {
    fn fmt<W: fmt::Write>(&self, f: &mut fmt::Formatter<W>) -> fmt::Result {
        f.write_str(self.message())
    }
}

impl fmt::Debug for DapFault<'_> {
    fn fmt<W: fmt::Write>(&self, f: &mut fmt::Formatter<W>) -> fmt::Result {
        fmt::Display::fmt(self, f)
    }
}

impl DapFault<'_> {
    /// The message of the response, which names the fault.
    pub fn message(&self) -> &'static str
        ensures { result.now ≡ message_of self.now }
    {
        match self {
            DapFault::OutOfMemory => "OutOfMemory",
            DapFault::NotRequest => "NotRequest",
            DapFault::Command { .. } => "Command",
            DapFault::Arguments { .. } => "Arguments",
        }
    }
}
