//! Readers and writers, as contracts see them.
ghost use Rattle.std.specs.Prelude.{◌≡◌, ◌<◌, ◌≤◌, [], true, length, take, IfOk, MatchResult};
ghost use Rattle.std.specs.Io.KnownBytes.{ReadConsumes};
ghost use Rattle.base_streams.specs.States.{InletState, OutletState};
ghost use Rattle.base_streams.specs.Told.{Gave, Took, WasRead};

use thiserror::Error;

/// A read or a write failed.
#[derive(Clone, Copy, PartialEq, Eq, Debug, Error)]
#[error("failed")]
pub struct IoFault;

/// A reader.
pub trait Inlet {
    /// The bytes that it has given and those that are left, how often it was read, whether it has ended, and
    /// whether it has failed.
    ghost state: { Self → InletState };

    /// Reads bytes into the front of the buffer, and returns how many. Zero is the end.
    fn read(&mut self, buffer: &mut [u8]) -> Result<usize, IoFault>
        requires { 0 < length buffer.old }
        ensures count { IfOk result (λ n. n ≤ length buffer.new) }
        ensures given { MatchResult result
            (λ n. Gave (state self.old) (state self.new) (take n buffer.new))
            (λ _. Gave (state self.old) (state self.new) []) }
        ensures reads { WasRead (state self.old) (state self.new) 1 }

        // What is read is the front of what was left, and at the end nothing is left.
        ensures left { ReadConsumes (state self.old).left (state self.new).left result buffer.new }

        // Only an error is a failure, and only a read of no bytes is the end.
        ensures failed { MatchResult result
            (λ _. (state self.new).failed ≡ (state self.old).failed)
            (λ _. (state self.new).failed ≡ true) }
        ensures ended { MatchResult result
            (λ n. (0 < n → (state self.new).ended ≡ (state self.old).ended)
            × (n ≡ 0 → (state self.new).ended ≡ true))
            (λ _. (state self.new).ended ≡ (state self.old).ended) };
}

/// A writer.
pub trait Outlet {
    /// The bytes that it has taken, and whether it has failed.
    ghost state: { Self → OutletState };

    /// Writes bytes from the front, at least one, and returns how many.
    fn write(&mut self, bytes: &[u8]) -> Result<usize, IoFault>
        requires { 0 < length bytes.now }
        ensures count { IfOk result (λ n. (0 < n) × (n ≤ length bytes.now)) }
        ensures taken { MatchResult result
            (λ n. Took (state self.old) (state self.new) (take n bytes.now))
            (λ _. Took (state self.old) (state self.new) []) }

        // Only an error is a failure.
        ensures failed { MatchResult result
            (λ _. (state self.new).failed ≡ (state self.old).failed)
            (λ _. (state self.new).failed ≡ true) };
}
