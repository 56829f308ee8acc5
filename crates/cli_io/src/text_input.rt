//! Text, read piece by piece and kept up to a limit.
ghost use Rattle.std.specs.Prelude.{◌≡◌, ◌≢◌, ◌||◌, ◌++◌, true, false, ℕ, List, [], nat_lt, length, OnOk};
ghost use Rattle.std.specs.Prelude.{IsErrOf, IfErr, IfSome, IfNone};
ghost use Rattle.cli_io.specs.TextState.{HasReadText, TakesPiece, IsBad, NeverText, IsText, IsDecoded};
ghost use Rattle.cli_io.specs.TextState.{Splits, Cuts};
ghost use Rattle.cli_io.specs.TextState.{KeepsFew};

use crate::intake::{Intake, IntakeFault};
use std::alloc::{AllocError, Global};
use std::marker::Model;
use std::str;
use thiserror::Error;

/// Why text is refused.
#[derive(Clone, Copy, PartialEq, Eq, Debug, Error)]
pub enum TextFault {
    /// They aren't UTF-8.
    #[error("bad text")]
    BadText,
    #[error("out of memory")]
    OutOfMemory,
    /// A read failed, or the end didn't come within 4,294,967,295 reads.
    #[error("a read failed")]
    Read,
}

/// The bytes of a text so far: all of them up to the limit; past it only those of a character that isn't
/// whole yet.
#[derive(Drop)]
pub struct TextInput {
    kept: Vec<u8>,
    limit: usize,
    is_long: bool,
}

impl Model for TextInput {
    ghost use Rattle.cli_io.specs.TextState.{TextState};

    ghost Value = { TextState };

    ghost view = { λ t. record { kept = t.kept.items; limit = t.limit; is_long = t.is_long } };
}

impl Intake for TextInput {
    ghost use Rattle.std.specs.Prelude.{◌≡◌, false};
    ghost use Rattle.std.specs.Str.{is_utf8};
    ghost use Rattle.cli_io.specs.TextState.{HasReadText};

    ghost represents = { HasReadText };

    ghost refuses = { λ input. is_utf8 input ≡ false };

    ghost limit = { λ t. t.limit };

    fn take(&mut self, piece: &[u8]) -> Result<(), IntakeFault> {
        match self.feed(piece) {
            Ok(()) => Ok(()),
            Err(TextFault::BadText) => Err(IntakeFault::Bad),
            Err(_) => Err(IntakeFault::OutOfMemory),
        }
    }
}

impl TextInput {
    /// No text yet.
    pub fn new(alloc: Global, limit: usize) -> TextInput
        ensures represents { HasReadText result [] }
        ensures limit { result.limit ≡ limit }
    {
        TextInput {
            kept: Vec::new(alloc),
            limit,
            is_long: false,
        }
    }

    /// Takes the next piece. An `Err` is final: the rest of the text can't change it. Bytes are checked
    /// only past the limit: `BadText` then comes with the first byte that can't be UTF-8.
    pub fn feed(&mut self, piece: &[u8]) -> Result<(), TextFault>
        ensures limit { self.new.limit ≡ self.old.limit }
        ensures ok { OnOk result (TakesPiece piece.now self.old self.new) }
        ensures bad { IsErrOf result TextFault.BadText → IsBad piece.now self.old }
        ensures few { OnOk result (KeepsFew self.new) }
    {
        let Ok(()) = self.keep(piece) else {
            return Err(TextFault::OutOfMemory);
        };
        if !self.is_past_limit() {
            return Ok(());
        }
        self.is_long = true;
        match self.cut() {
            Ok(()) => Ok(()),
            Err(fault) => Err(fault),
        }
    }

    fn keep(&mut self, piece: &[u8]) -> Result<(), AllocError>
        ensures limit { self.new.limit ≡ self.old.limit }
        ensures ok { OnOk result (self.new ≡ record self.old { kept = self.old.kept ++ piece.now }) }
    {
        self.kept.extend_from_slice(piece)
    }

    fn is_past_limit(&self) -> bool
        ensures { result ≡ (self.now.is_long || nat_lt self.now.limit (length self.now.kept)) }
    {
        self.is_long || self.limit < self.kept.len()
    }

    // Drops all whole characters.
    fn cut(&mut self) -> Result<(), TextFault>
        ensures limit { self.new.limit ≡ self.old.limit }
        ensures ok { OnOk result (Cuts self.old self.new) }
        ensures bad { IsErrOf result TextFault.BadText → NeverText self.old.kept }
    {
        let Some(end) = whole_characters(self.kept.as_slice()) else {
            return Err(TextFault::BadText);
        };
        self.kept.rotate_left(end);
        self.kept.truncate(self.kept.len() - end);
        Ok(())
    }

    /// The text at its end, or `None` if it is longer than the limit.
    pub fn into_text(self) -> Result<Option<String>, TextFault>
        ensures text { (text : List ℕ) → HasReadText self text → IsText self.limit result text }
        ensures fault { IfErr result (λ fault. fault ≡ TextFault.BadText) }
    {
        let TextInput { kept, is_long, .. } = self;
        if !is_long {
            return decode(kept);
        }
        if is_empty(kept.as_slice()) {
            Ok(None)
        } else {
            Err(TextFault::BadText)
        }
    }
}

fn is_empty(bytes: &[u8]) -> bool
    ensures yes { result ≡ true → bytes.now ≡ [] }
    ensures no { result ≡ false → bytes.now ≢ [] }
{
    bytes.is_empty()
}

fn decode(bytes: Vec<u8>) -> Result<Option<String>, TextFault>
    ensures { IsDecoded result bytes.items }
{
    match String::from_utf8(bytes) {
        Ok(text) => Ok(Some(text)),
        Err(_) => Err(TextFault::BadText),
    }
}

/// The number of bytes of the whole characters at the front; `None` if no character can follow them.
fn whole_characters(bytes: &[u8]) -> Option<usize>
    ensures some { IfSome result (Splits bytes.now) }
    ensures none { IfNone result (NeverText bytes.now) }
{
    match str::from_utf8(bytes) {
        Ok(_) => Some(bytes.len()),
        Err(fault) => match fault.error_len() {
            None => Some(fault.valid_up_to()),
            Some(_) => None,
        },
    }
}
