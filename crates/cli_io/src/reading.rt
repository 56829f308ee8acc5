//! Reading to the end: hexadecimal text as the bytes that it means, text, or bytes as they are.
ghost use Rattle.std.specs.Prelude.{◌≡◌, ◌<◌, [], IfSome, IfOk, IfErr, length, vec_len};
ghost use Rattle.cli_io.specs.Engine.{IsFailure, IfFailed};
ghost use Rattle.cli_io.specs.Streams.{IsReading, IsHex, IfReadFailed, IfTextFailed, BlamesReader};
ghost use Rattle.cli_io.specs.TextState.{HasReadText, IsText, IsTextReading};

pub use crate::hex_input::HexFault;
use crate::hex_input::{HexInput, pair_digits};
use crate::intake::{PourFault, pour};
use crate::status::Status;
pub use crate::text_input::TextFault;
use crate::text_input::TextInput;
use base_streams::ports::Inlet;
use std::alloc::{AllocError, Global};

/// The number of bytes of a read.
const PIECE_SIZE: usize = 4096;

fn new_buffer(alloc: Global) -> Result<Vec<u8>, AllocError>
    ensures { IfOk result (λ buffer. 0 < vec_len buffer) }
{
    vec![in alloc; 0; PIECE_SIZE]
}

/// Reads hexadecimal text to its end, piece by piece, and returns the bytes that it means. It stops at
/// a piece with a character that is neither a digit nor a blank.
pub fn read_hex<R: Inlet>(alloc: Global, reader: &mut R) -> Result<Vec<u8>, HexFault>
    ensures bytes { IfSome (R.state reader.old).left (IsHex result) }
    ensures blame { BlamesReader IfReadFailed result (R.state reader.old) (R.state reader.new) }
{
    let mut buffer = new_buffer(alloc)?;
    let input = read_digits(alloc, reader, &mut buffer)?;
    match input.digits() {
        Ok(digits) => Ok(pair_digits(alloc, digits)?),
        Err(fault) => Err(fault),
    }
}

fn read_digits<R: Inlet>(
    alloc: Global,
    reader: &mut R,
    buffer: &mut [u8],
) -> Result<HexInput, HexFault>
    requires { 0 < length buffer.old }
    ensures digits { IfSome (R.state reader.old).left (IsReading result) }
    ensures blame { BlamesReader IfReadFailed result (R.state reader.old) (R.state reader.new) }
{
    match pour(reader, buffer, HexInput::new(alloc)) {
        Ok(input) => Ok(input),
        Err(PourFault::Bad) => Err(HexFault::BadHex),
        Err(PourFault::OutOfMemory) => Err(HexFault::OutOfMemory),
        Err(PourFault::Read) => Err(HexFault::Read),
    }
}

/// Reads text to its end, piece by piece, and returns it, or `None` if it is longer than `limit` bytes.
/// Past the limit nothing is kept, and it stops at the first piece that can't be UTF-8.
pub fn read_text<R: Inlet>(
    alloc: Global,
    limit: usize,
    reader: &mut R,
) -> Result<Option<String>, TextFault>
    ensures text { IfSome (R.state reader.old).left (IsText limit result) }
    ensures blame { BlamesReader IfTextFailed result (R.state reader.old) (R.state reader.new) }
{
    let Ok(mut buffer) = new_buffer(alloc) else {
        return Err(TextFault::OutOfMemory);
    };
    let input = TextInput::new(alloc, limit);
    match read_pieces(reader, &mut buffer, input)?.into_text() {
        Ok(text) => Ok(text),
        Err(fault) => Err(fault),
    }
}

fn read_pieces<R: Inlet>(
    reader: &mut R,
    buffer: &mut [u8],
    input: TextInput,
) -> Result<TextInput, TextFault>
    requires buffer { 0 < length buffer.old }
    requires input { HasReadText input [] }
    ensures limit { IfOk result (λ read. read.limit ≡ input.limit) }
    ensures text { IfSome (R.state reader.old).left (IsTextReading result) }
    ensures blame { BlamesReader IfTextFailed result (R.state reader.old) (R.state reader.new) }
{
    match pour(reader, buffer, input) {
        Ok(read) => Ok(read),
        Err(PourFault::Bad) => Err(TextFault::BadText),
        Err(PourFault::OutOfMemory) => Err(TextFault::OutOfMemory),
        Err(PourFault::Read) => Err(TextFault::Read),
    }
}

/// Reads all bytes to the end, piece by piece.
pub fn read_all<R: Inlet>(alloc: Global, reader: &mut R) -> Result<Vec<u8>, Status>
    ensures all { IfSome (R.state reader.old).left (λ input.
        IfOk result (λ bytes. bytes.items ≡ input)) }
    ensures failure { IfErr result IsFailure }
    ensures blame { BlamesReader IfFailed result (R.state reader.old) (R.state reader.new) }
{
    let Ok(mut buffer) = new_buffer(alloc) else {
        return Err(Status::OutOfMemory);
    };
    match pour(reader, &mut buffer, Vec::new(alloc)) {
        Ok(bytes) => Ok(bytes),
        Err(PourFault::Read) => Err(Status::Failed),
        Err(PourFault::Bad | PourFault::OutOfMemory) => Err(Status::OutOfMemory),
    }
}
