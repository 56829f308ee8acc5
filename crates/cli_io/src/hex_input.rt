//! Hexadecimal text, read piece by piece.
ghost use Rattle.std.specs.Prelude.{◌≡◌, ◌<◌, ◌∷◌, [], List, ℕ, Some, OnOk, IsErrOf, IfOk, All};
ghost use Rattle.cli_io.specs.HexInput.{digit_value, input_of, byte_pairs};
ghost use Rattle.cli_io.specs.HexState.{kept_more};

use crate::intake::{Intake, IntakeFault};
use base_text::hexadecimal::digit_value;
use i80_base::memory::MEMORY_SIZE;
use std::alloc::{AllocError, AllocFailed, Global};
use std::marker::Model;
use thiserror::Error;

/// The number of digits of a whole memory.
const MOST_DIGITS: usize = 2 * MEMORY_SIZE;

/// Why hexadecimal text is refused.
#[derive(Clone, Copy, PartialEq, Eq, Debug, Error)]
pub enum HexFault {
    /// A character is neither a digit nor a blank, or the number of digits is odd.
    #[error("bad hex")]
    BadHex,
    /// There are more bytes than memory has.
    #[error("past end")]
    PastEnd,
    #[error("out of memory")]
    OutOfMemory,
    /// A read failed, or the end didn't come within 4,294,967,295 reads.
    #[error("a read failed")]
    Read,
}

impl From<AllocError> for HexFault {
    ghost use Rattle.std.specs.Prelude.{◌≡◌};
    ghost use Rattle.cli_io.specs.declared.hex_input.HexFault.TheVariants.{OutOfMemory};

    ghost from_gives = { λ _ fault. fault ≡ OutOfMemory };

    fn from(_: AllocError) -> HexFault {
        HexFault::OutOfMemory
    }
}

impl From<AllocFailed<u8>> for HexFault {
    ghost use Rattle.std.specs.Prelude.{◌≡◌};
    ghost use Rattle.cli_io.specs.declared.hex_input.HexFault.TheVariants.{OutOfMemory};

    ghost from_gives = { λ _ fault. fault ≡ OutOfMemory };

    fn from(_: AllocFailed<u8>) -> HexFault {
        HexFault::OutOfMemory
    }
}

/// The digits of hexadecimal text so far, at most as many as those of a whole memory.
#[derive(Drop)]
pub struct HexInput {
    digits: Vec<u8>,
    is_odd: bool,
    is_long: bool,
}

impl Model for HexInput {
    ghost use Rattle.cli_io.specs.HexState.{HexState};

    ghost Value = { HexState };

    ghost view = { λ h. record { digits = h.digits.items; is_odd = h.is_odd; is_long = h.is_long } };

    ghost use Rattle.std.specs.Prelude.{All, ◌<◌};

    ghost invariant = { λ h. All (λ d. d < 16) h.digits.items };
}

impl Intake for HexInput {
    ghost use Rattle.std.specs.Prelude.{◌≡◌};
    ghost use Rattle.cli_io.specs.HexInput.{input_of, BadHex};
    ghost use Rattle.cli_io.specs.HexState.{HasReadHex};

    ghost represents = { HasReadHex };

    ghost refuses = { λ input. input_of input ≡ BadHex };

    ghost limit = { λ _. 0 };

    #[tactic(auto, using(crate::proofs::HexLemmas::bad_around))]
    fn take(&mut self, piece: &[u8]) -> Result<(), IntakeFault> {
        match self.feed(piece) {
            Ok(()) => Ok(()),
            Err(HexFault::BadHex) => Err(IntakeFault::Bad),
            Err(_) => Err(IntakeFault::OutOfMemory),
        }
    }
}

impl HexInput {
    ghost use Rattle.cli_io.specs.HexState.{HasReadHex, TakesPiece, IsBad, Finds};

    /// No text yet.
    pub fn new(alloc: Global) -> HexInput
        ensures { HasReadHex result [] }
    {
        HexInput {
            digits: Vec::new(alloc),
            is_odd: false,
            is_long: false,
        }
    }

    /// Takes the next piece of text. An `Err` is final: the rest of the text can't change it.
    pub fn feed(&mut self, piece: &[u8]) -> Result<(), HexFault>
        ensures ok { OnOk result (TakesPiece piece.now self.old self.new) }
        ensures bad { IsErrOf result HexFault.BadHex → IsBad piece.now }
    {
        for byte in piece {
            if let Err(fault) = self.feed_byte(*byte) {
                return Err(fault);
            }
        }
        Ok(())
    }

    /// The values of the digits, the high one of each byte first, at the end of the text.
    pub fn digits(&self) -> Result<&[u8], HexFault>
        ensures found { (text : List ℕ) → HasReadHex self.now text
            → Finds (λ digits. digits.now) result (input_of text) }
        ensures small { IfOk result (λ digits. All (λ d. d < 16) digits.now) }
    {
        if self.is_odd {
            return Err(HexFault::BadHex);
        }
        if self.is_long {
            return Err(HexFault::PastEnd);
        }
        Ok(self.digits.as_slice())
    }

    fn feed_byte(&mut self, byte: u8) -> Result<(), HexFault>
        ensures ok { OnOk result (TakesPiece (byte ∷ []) self.old self.new) }
        ensures bad { IsErrOf result HexFault.BadHex → IsBad (byte ∷ []) }
    {
        if matches!(byte, b' ' | b'\t' | b'\n' | b'\r') {
            return Ok(());
        }
        let Some(value) = digit_value(byte) else {
            return Err(HexFault::BadHex);
        };
        self.keep(value)?;
        Ok(())
    }

    #[tactic(auto, unfolding(crate::specs::HexState::most_digits))]
    fn keep(&mut self, value: u8) -> Result<(), AllocFailed<u8>>
        requires { value < 16 }
        ensures { OnOk result (self.new ≡ kept_more self.old value) }
    {
        if self.digits.len() < MOST_DIGITS {
            self.digits.push(value)?;
        } else {
            self.is_long = true;
        }
        self.is_odd = !self.is_odd;
        Ok(())
    }
}

/// The bytes whose digits have these values, the high digit of each first. An odd digit at the end is
/// dropped.
pub fn pair_digits(alloc: Global, digits: &[u8]) -> Result<Vec<u8>, AllocError>
    requires { All (λ d. d < 16) digits.now }
    ensures { IfOk result (λ bytes. bytes.items ≡ byte_pairs digits.now) }
{
    let mut bytes = Vec::new(alloc);
    let mut rest = digits;
    while rest.len() >= 2 {
        let (pair, others) = rest.split_at(2);
        bytes.push(16 * pair[0] + pair[1])?;
        rest = others;
    }
    Ok(bytes)
}
