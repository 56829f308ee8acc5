//! The record of a line.
ghost use Rattle.std.specs.Prelude.{◌≡◌, ◌%◌, ◌==◌, ◌∷◌, [], true, IfOk, MatchResult, option_map, sum};
ghost use Rattle.std.specs.Prelude.{vec_items};
ghost use Rattle.std.specs.List.{list_all};
ghost use Rattle.base_text.specs.Hexadecimal.{number_from};
ghost use Rattle.asm_hex.specs.Outcome.{LineGives};
ghost use Rattle.asm_hex.specs.Record.{bytes_spelled, bytes_of_line, has_count, has_length, record_in};
ghost use Rattle.asm_hex.specs.Record.{record_of};

use crate::fault::{HexFaultKind, LineFault};
use base_text::hexadecimal::digit_value;
use std::alloc::{AllocError, Global};
use std::marker::Model;

/// A record, whose kind says what its address and its bytes mean.
#[derive(Drop)]
pub(crate) struct Record<'a> {
    pub(crate) address: u16,
    kind: u8,
    bytes: &'a [u8],
}

impl<'a> Model for Record<'a> {
    ghost use Rattle.asm_hex.specs.Record.{Record as RecordValue};

    ghost Value = { RecordValue };

    ghost view = { λ r. record { address = r.address; kind = r.kind; bytes = r.bytes.now } };
}

impl<'a> Record<'a> {
    ghost use Rattle.asm_hex.specs.Record.{is_known};
    ghost use Rattle.asm_hex.specs.Contents.{data_of, end_of};

    /// Whether the kind is one that is read, or may be skipped.
    pub(crate) fn is_known(&self) -> bool
        ensures { result ≡ is_known self.now }
    {
        self.kind <= 5 && (!matches!(self.kind, 2 | 4) || is_zero(self.bytes))
    }

    /// The bytes that the record places.
    pub(crate) fn data(&self) -> &[u8]
        ensures { result.now ≡ data_of self.now }
    {
        if self.kind == 0 { self.bytes } else { &[] }
    }

    /// The address, if this is the end record.
    pub(crate) fn end_address(&self) -> Option<u16>
        ensures { result ≡ end_of self.now }
    {
        if self.kind == 1 {
            Some(self.address)
        } else {
            None
        }
    }
}

fn is_zero(bytes: &[u8]) -> bool
    ensures { result ≡ list_all (λ byte. byte == 0) bytes.now }
{
    bytes.iter().all(|byte| *byte == 0)
}

/// The byte that two digits spell.
fn byte_of(high: u8, low: u8) -> Option<u8>
    ensures { result ≡ number_from 0 (high ∷ (low ∷ [])) }
{
    let high = digit_value(high)?;
    let low = digit_value(low)?;
    Some(high * 16 + low)
}

/// The bytes that pairs of digits spell, or `None` if they spell none.
fn read_pairs(alloc: Global, digits: &[u8]) -> Result<Option<Vec<u8>>, AllocError>
    ensures { IfOk result (λ bytes. option_map vec_items bytes ≡ bytes_spelled digits.now) }
{
    let mut bytes = Vec::new(alloc);
    let mut rest = digits;
    while rest.len() >= 2 {
        let (pair, others) = rest.split_at(2);
        let Some(byte) = byte_of(pair[0], pair[1]) else {
            return Ok(None);
        };
        bytes.push(byte)?;
        rest = others;
    }
    if rest.is_empty() {
        Ok(Some(bytes))
    } else {
        Ok(None)
    }
}

/// The bytes that a line spells behind its colon.
pub(crate) fn bytes_of_line(alloc: Global, line: &[u8]) -> Result<Vec<u8>, LineFault>
    ensures { LineGives vec_items result (bytes_of_line line.now) }
{
    let Some((b':', digits)) = line.split_first() else {
        return Err(LineFault::Is(HexFaultKind::Record));
    };
    match read_pairs(alloc, digits)? {
        Some(bytes) => Ok(bytes),
        None => Err(LineFault::Is(HexFaultKind::Digit)),
    }
}

/// Whether a record of this kind may have so many bytes.
fn has_count(kind: u8, count: u8) -> bool
    ensures { result ≡ has_count kind count }
{
    match kind {
        1 => count == 0,
        2 | 4 => count == 2,
        3 | 5 => count == 4,
        _ => true,
    }
}

fn has_length(bytes: &[u8]) -> bool
    ensures length { result ≡ has_length bytes.now }
{
    bytes.len() >= 5 && bytes.len() == 5 + usize::from(bytes[0]) && has_count(bytes[3], bytes[0])
}

/// The sum modulo 256.
fn sum_of(bytes: &[u8]) -> u8
    ensures { result ≡ sum bytes.now % 256 }
{
    let mut sum: u8 = 0;
    for byte in bytes {
        sum = sum.wrapping_add(*byte);
    }
    sum
}

fn record_in(bytes: &[u8]) -> Record<'_>
    requires { has_length bytes.now ≡ true }
    ensures { result ≡ record_in bytes.now }
{
    let (_, rest) = bytes.split_at(4);
    let (data, _) = rest.split_at(usize::from(bytes[0]));
    Record {
        address: u16::from(bytes[1]) * 256 + u16::from(bytes[2]),
        kind: bytes[3],
        bytes: data,
    }
}

/// The record of a line's bytes.
#[tactic(auto, unfolding(crate::specs::Record::record_of))]
pub(crate) fn record_of(bytes: &[u8]) -> Result<Record<'_>, HexFaultKind>
    ensures { MatchResult result (λ r. record_of bytes.now ≡ Ok r)
        (λ kind. record_of bytes.now ≡ Err kind) }
{
    if !has_length(bytes) {
        return Err(HexFaultKind::Length);
    }
    if sum_of(bytes) != 0 {
        return Err(HexFaultKind::Checksum);
    }
    Ok(record_in(bytes))
}
