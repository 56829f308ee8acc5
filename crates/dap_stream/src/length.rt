//! The value of a Content-Length.
ghost use Rattle.std.specs.Prelude.{◌≡◌, ◌≤◌};
ghost use Rattle.dap_stream.specs.Header.{is_blank};
ghost use Rattle.dap_stream.specs.Lengths.{value_from};

use crate::fault::StreamFault;

// The largest body, in bytes.
const BODY_SIZE: usize = 1_048_576;

// The most digits of a Content-Length.
const DIGITS: usize = 10;

fn is_blank_byte(byte: u8) -> bool
    ensures { result ≡ is_blank byte }
{
    byte == b' ' || byte == b'\t'
}

// Reads the bytes after blanks and `count` digits, which write this number.
fn read_value(count: usize, number: usize, bytes: &[u8]) -> Result<Option<usize>, StreamFault>
    requires count { count ≤ 10 }
    requires number { number ≤ 1048576 }
    ensures { result ≡ value_from count number bytes.now }
{
    let Some((byte, others)) = bytes.split_first() else {
        return Ok(if count == 0 { None } else { Some(number) });
    };
    if count == 0 && is_blank_byte(*byte) {
        return read_value(0, 0, others);
    }
    if !byte.is_ascii_digit() || count == DIGITS {
        return Err(StreamFault::LengthValue);
    }
    let number = number * 10 + usize::from(*byte - b'0');
    if number > BODY_SIZE {
        return Err(StreamFault::BodySize);
    }
    read_value(count + 1, number, others)
}

/// Reads the bytes of a value that have come so far: the body's size, and `None` if they are all blanks.
pub fn read_length(value: &[u8]) -> Result<Option<usize>, StreamFault>
    ensures { result ≡ value_from 0 0 value.now }
{
    read_value(0, 0, value)
}
