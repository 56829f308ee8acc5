//! Input, read to its end, piece by piece, into an intake.
ghost use Rattle.std.specs.Prelude.{◌≡◌, ◌<◌, ◌++◌, ℕ, List, [], OnOk, IsErrOf, IfOk, IfSome, length};
ghost use Rattle.cli_io.specs.Streams.{BlamesReader};
ghost use Rattle.cli_io.specs.Pouring.{IsPoured, IfPourFailed};

use base_streams::ports::Inlet;

/// Why a piece is refused.
#[derive(Clone, Copy)]
pub(crate) enum IntakeFault {
    Bad,
    OutOfMemory,
}

/// Why an input wasn't read to its end.
#[derive(Clone, Copy)]
pub(crate) enum PourFault {
    /// The input is refused.
    Bad,
    OutOfMemory,
    /// A read failed, or the end didn't come within 4,294,967,295 reads.
    Read,
}

/// What takes an input piece by piece.
pub(crate) trait Intake: Drop {
    // The text so far that it represents, the inputs that it refuses, and its limit.
    ghost represents: { Self → List ℕ → Type 0 };

    ghost refuses: { List ℕ → Type 0 };

    ghost limit: { Self → ℕ };

    /// Takes the next piece. An `Err` is final: the rest can't change it.
    fn take(&mut self, piece: &[u8]) -> Result<(), IntakeFault>
        ensures limit { limit self.new ≡ limit self.old }
        ensures ok { OnOk result
            ((text : List ℕ) → represents self.old text → represents self.new (text ++ piece.now)) }
        ensures bad { IsErrOf result IntakeFault.Bad →
            (text more : List ℕ) → represents self.old text → refuses ((text ++ piece.now) ++ more) };
}

// All bytes, as they are.
impl Intake for Vec<u8> {
    ghost use Rattle.std.specs.Prelude.{◌≡◌};

    ghost represents = { λ v bytes. v.items ≡ bytes };

    ghost refuses = { λ _. ⊥ };

    ghost limit = { λ _. 0 };

    fn take(&mut self, piece: &[u8]) -> Result<(), IntakeFault> {
        match self.extend_from_slice(piece) {
            Ok(()) => Ok(()),
            Err(_) => Err(IntakeFault::OutOfMemory),
        }
    }
}

/// Reads to the end, a buffer at a time.
pub(crate) fn pour<R: Inlet, I: Intake>(
    reader: &mut R,
    buffer: &mut [u8],
    mut input: I,
) -> Result<I, PourFault>
    requires buffer { 0 < length buffer.old }
    requires input { I.represents input [] }
    ensures limit { IfOk result (λ read. I.limit read ≡ I.limit input) }
    ensures read { IfSome (R.state reader.old).left (IsPoured I.represents I.refuses result) }
    ensures blame { BlamesReader IfPourFailed result (R.state reader.old) (R.state reader.new) }
{
    for reads in 0..u32::MAX {
        match reader.read(buffer) {
            Ok(0) => return Ok(input),
            Ok(count) => {
                let (piece, _) = buffer.split_at(count);
                match input.take(piece) {
                    Ok(()) => continue,
                    Err(IntakeFault::Bad) => return Err(PourFault::Bad),
                    Err(IntakeFault::OutOfMemory) => return Err(PourFault::OutOfMemory),
                }
            }
            Err(_) => return Err(PourFault::Read),
        }
    }
    Err(PourFault::Read)
}
