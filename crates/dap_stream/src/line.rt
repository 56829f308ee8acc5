//! One line of a header.
ghost use Rattle.std.specs.Prelude.{◌≡◌};
ghost use Rattle.dap_stream.specs.Wire.{Bytes};
ghost use Rattle.dap_stream.specs.Lines.{IsFront, LineSays};
ghost use Rattle.dap_stream.specs.Parsing.{parse_of, empty_line, nameless, line_feed, after_value};
ghost use Rattle.dap_stream.specs.Parsing.{after_blanks};
ghost use Rattle.dap_stream.specs.Parsing.{length_field, field};

use crate::fault::StreamFault;
use crate::length::read_length;
use crate::span::{Kind, Split, split_off};

/// What follows whole lines of a header.
#[derive(Drop)]
pub enum Line<'a> {
    /// A line has begun.
    Begun,
    /// A field: the bytes after it, and the body's size if a field has said it so far.
    Field(&'a [u8], Option<usize>),
    /// The empty line, which ends the header: the bytes after it, and the body's size.
    End(&'a [u8], usize),
    /// No header can go on with one of the bytes.
    Broken(StreamFault),
}

// Reads on after the first byte of the empty line.
fn read_empty_line(size: Option<usize>, bytes: &[u8]) -> Line<'_>
    ensures { parse_of result ≡ empty_line size bytes.now }
{
    let Some(size) = size else {
        return Line::Broken(StreamFault::NoLength);
    };
    let Some((byte, others)) = bytes.split_first() else {
        return Line::Begun;
    };
    if *byte == b'\n' {
        Line::End(others, size)
    } else {
        Line::Broken(StreamFault::HeaderLine)
    }
}

// Reads a line without a name.
fn read_nameless(size: Option<usize>, byte: u8, bytes: &[u8]) -> Line<'_>
    ensures { parse_of result ≡ nameless size byte bytes.now }
{
    if byte == b'\r' {
        read_empty_line(size, bytes)
    } else {
        Line::Broken(StreamFault::HeaderLine)
    }
}

// Reads on after the carriage return of a field's line.
fn read_line_feed(size: Option<usize>, bytes: &[u8]) -> Line<'_>
    ensures { parse_of result ≡ line_feed size bytes.now }
{
    let Some((byte, others)) = bytes.split_first() else {
        return Line::Begun;
    };
    if *byte == b'\n' {
        Line::Field(others, size)
    } else {
        Line::Broken(StreamFault::HeaderLine)
    }
}

// Reads on after a field's value. `size` is the body's size that this field or one before it says.
fn read_line_end(size: Option<usize>, bytes: &[u8]) -> Line<'_>
    ensures { parse_of result ≡ after_value size bytes.now }
{
    let Some((byte, others)) = bytes.split_first() else {
        return Line::Begun;
    };
    if *byte == b'\r' {
        read_line_feed(size, others)
    } else {
        Line::Broken(StreamFault::HeaderLine)
    }
}

// Reads on after the blanks of a Content-Length without a digit.
fn read_no_digits(bytes: &[u8]) -> Line<'_>
    ensures { parse_of result ≡ after_blanks bytes.now }
{
    let Some((byte, _)) = bytes.split_first() else {
        return Line::Begun;
    };
    if *byte == b'\r' {
        Line::Broken(StreamFault::LengthValue)
    } else {
        Line::Broken(StreamFault::HeaderLine)
    }
}

// Reads a Content-Length with this value, and what follows it.
fn read_length_field<'a>(size: Option<usize>, value: &[u8], others: &'a [u8]) -> Line<'a>
    ensures { parse_of result ≡ length_field size value.now others.now }
{
    if size.is_some() {
        return Line::Broken(StreamFault::SecondLength);
    }
    match read_length(value) {
        Err(cause) => Line::Broken(cause),
        Ok(None) => read_no_digits(others),
        Ok(Some(size)) => read_line_end(Some(size), others),
    }
}

// Reads a field with this name and value, and what follows it.
fn read_field<'a>(size: Option<usize>, name: &[u8], value: &[u8], others: &'a [u8]) -> Line<'a>
    ensures { parse_of result ≡ field size name.now value.now others.now }
{
    if name.eq_ignore_ascii_case(b"Content-Length") {
        read_length_field(size, value, others)
    } else {
        read_line_end(size, others)
    }
}

/// Reads the line that follows whole lines of a header. `size` is the body's size that these lines say.
pub fn read_line(size: Option<usize>, bytes: &[u8]) -> Line<'_>
    ensures { (lines : Bytes) → IsFront lines size → LineSays lines bytes.now (parse_of result) }
{
    let Split {
        front: name,
        others,
    } = split_off(Kind::Name, bytes);
    let Some((byte, after)) = others.split_first() else {
        return Line::Begun;
    };
    if name.is_empty() {
        return read_nameless(size, *byte, after);
    }
    if *byte != b':' {
        return Line::Broken(StreamFault::HeaderLine);
    }
    let Split {
        front: value,
        others,
    } = split_off(Kind::Value, after);
    read_field(size, name, value, others)
}
