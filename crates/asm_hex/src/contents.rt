//! What the lines of a file give.
ghost use Rattle.std.specs.Prelude.{◌≡◌};
ghost use Rattle.asm_hex.specs.Outcome.{Gives};
ghost use Rattle.asm_hex.specs.Contents.{file_of_contents, start_of};
ghost use Rattle.asm_hex.specs.File.{file_value};

use crate::fault::{HexFault, HexFaultKind, LineFault};
use crate::lines::{cut_line, trim};
use crate::reading::HexFile;
use crate::record::{Record, bytes_of_line, record_of};
use i80_base::memory::MEMORY_SIZE;
use std::alloc::{AllocError, Global};
use std::marker::Model;

/// The bytes of the lines so far, and the address of the end record, if it came.
#[derive(Drop)]
pub(crate) struct Contents {
    bytes: Vec<(u16, u8)>,
    // for each address, whether it has a byte
    taken: Vec<bool>,
    end_address: Option<u16>,
}

impl Model for Contents {
    ghost use Rattle.asm_hex.specs.Contents.{Contents as ContentsValue};
    ghost use Rattle.asm_hex.specs.Taken.{IsTable};

    ghost Value = { ContentsValue };

    ghost view = { λ c. record { bytes = c.bytes.items; end_address = c.end_address } };

    ghost invariant = { λ c. IsTable c.taken.items c.bytes.items };
}

impl Contents {
    ghost use Rattle.std.specs.Prelude.{◌+◌, ◌≤◌, ◌++◌, ◌∷◌, [], length, IfOk, OnOk};
    ghost use Rattle.asm_hex.specs.Outcome.{LineGives, at_line};
    ghost use Rattle.asm_hex.specs.Contents.{no_contents, bytes_at, overlaps, with_record, with_bytes};
    ghost use Rattle.asm_hex.specs.Contents.{with_line, with_lines, lines_of};

    /// Nothing yet.
    pub(crate) fn new(alloc: Global) -> Result<Contents, AllocError>
        ensures { IfOk result (λ contents. contents ≡ no_contents) }
    {
        let mut taken = Vec::new(alloc);
        taken.resize(MEMORY_SIZE, false)?;
        let bytes = Vec::new(alloc);
        Ok(Contents {
            bytes,
            taken,
            end_address: None,
        })
    }

    /// Whether one of so many bytes from an address on would be at an address that has a byte.
    fn overlaps(&self, address: u16, bytes: &[u8]) -> bool
        requires { address + length bytes.now ≤ 65536 }
        ensures { result ≡ overlaps self.now.bytes (bytes_at address bytes.now) }
    {
        for offset in 0..bytes.len() {
            if self.taken[usize::from(address) + offset] {
                return true;
            }
        }
        false
    }

    /// Adds a byte.
    fn place_byte(&mut self, address: u16, byte: u8) -> Result<(), AllocError>
        ensures { OnOk result (self.new
            ≡ record self.old { bytes = self.old.bytes ++ bytes_at address (byte ∷ []) }) }
    {
        self.bytes.push((address, byte))?;
        self.taken[usize::from(address)] = true;
        Ok(())
    }

    /// Adds bytes, from an address on.
    fn place(&mut self, address: u16, bytes: &[u8]) -> Result<(), AllocError>
        requires { address + length bytes.now ≤ 65536 }
        ensures { OnOk result (self.new
            ≡ record self.old { bytes = self.old.bytes ++ bytes_at address bytes.now }) }
    {
        for offset in 0..bytes.len() {
            self.place_byte((usize::from(address) + offset) as u16, bytes[offset])?;
        }
        Ok(())
    }

    /// Adds a record, or fails with what is wrong with it.
    #[tactic(auto, unfolding(crate::specs::Contents::with_record))]
    fn add_record(&mut self, record: &Record<'_>) -> Result<(), LineFault>
        ensures { LineGives (λ _. self.new) result (with_record self.old record.now) }
    {
        if !record.is_known() {
            return Err(LineFault::Is(HexFaultKind::Kind));
        }
        let bytes = record.data();
        if usize::from(record.address) + bytes.len() > MEMORY_SIZE {
            return Err(LineFault::Is(HexFaultKind::PastEnd));
        }
        if self.overlaps(record.address, bytes) {
            return Err(LineFault::Is(HexFaultKind::Overlap));
        }
        if self.end_address.is_some() {
            return Err(LineFault::Is(HexFaultKind::AfterEnd));
        }
        self.place(record.address, bytes)?;
        self.end_address = record.end_address();
        Ok(())
    }

    /// Adds the record of a line's bytes, or fails with what is wrong with it.
    fn add_bytes(&mut self, bytes: &[u8]) -> Result<(), LineFault>
        ensures { LineGives (λ _. self.new) result (with_bytes self.old bytes.now) }
    {
        match record_of(bytes) {
            Ok(record) => self.add_record(&record),
            Err(kind) => Err(LineFault::Is(kind)),
        }
    }

    /// Adds a line, or fails with what is wrong with it.
    #[tactic(auto, unfolding(crate::specs::Contents::with_line))]
    fn add_line(&mut self, alloc: Global, line: &[u8]) -> Result<(), LineFault>
        ensures { LineGives (λ _. self.new) result (with_line self.old line.now) }
    {
        let line = trim(line);
        if line.is_empty() {
            return Ok(());
        }
        match bytes_of_line(alloc, line) {
            Ok(bytes) => self.add_bytes(&bytes),
            Err(fault) => Err(fault),
        }
    }

    /// Adds the line of this number, or fails with what is wrong with it.
    fn add_numbered(&mut self, alloc: Global, number: usize, line: &[u8]) -> Result<(), HexFault>
        ensures { Gives (λ _. self.new) result (at_line number (with_line self.old line.now)) }
    {
        match self.add_line(alloc, line) {
            Ok(()) => Ok(()),
            Err(LineFault::OutOfMemory) => Err(HexFault::OutOfMemory),
            Err(LineFault::Is(kind)) => Err(HexFault::At { line: number, kind }),
        }
    }

    /// Adds the lines of a text, and returns their number; or fails with the first fault.
    pub(crate) fn add_lines(&mut self, alloc: Global, text: &[u8]) -> Result<usize, HexFault>
        ensures lines { Gives (λ _. self.new) result (with_lines 1 self.old (lines_of text.now)) }
        ensures count { IfOk result (λ count. count ≡ length (lines_of text.now)) }
    {
        let mut rest = text;
        let mut count = 0;
        while !rest.is_empty() {
            let (line, behind) = cut_line(rest);
            count += 1;
            if let Err(fault) = self.add_numbered(alloc, count, line) {
                return Err(fault);
            }
            rest = behind;
        }
        Ok(count)
    }
}

/// What a file with so many lines gives: the contents, if there is an end record.
pub(crate) fn file_of_contents(contents: Contents, count: usize) -> Result<HexFile, HexFault>
    ensures { Gives file_value result (file_of_contents count contents) }
{
    let Contents {
        bytes,
        taken: _,
        end_address,
    } = contents;
    match end_address {
        Some(address) => Ok(HexFile {
            bytes,
            start: start_of(address),
        }),
        None => Err(HexFault::At {
            line: count.max(1),
            kind: HexFaultKind::NoEnd,
        }),
    }
}

/// The start that the address of the end record is: 0 is none.
fn start_of(address: u16) -> Option<u16>
    ensures { result ≡ start_of address }
{
    if address == 0 { None } else { Some(address) }
}
