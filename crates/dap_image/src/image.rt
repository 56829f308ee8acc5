//! A program's bytes in memory, and where it starts.
ghost use Rattle.std.specs.Prelude.{◌≡◌, ◌<◌, ◌≤◌, length, position, is_some, IfOk, IfSome};
ghost use Rattle.dap_image.specs.Outcome.{Gives};
ghost use Rattle.dap_image.specs.Images.{cells_from, hex_image, bytes_image, image_of, start_in};
ghost use Rattle.dap_image.specs.ImageValue.{image_value};

use crate::fault::ImageFault;
use asm_hex::fault::HexFault;
use asm_hex::memory::cells;
use asm_hex::reading::read_hex;
use dap_messages::file_kind::ImageKind;
use i80_base::memory::MEMORY_SIZE;
use std::alloc::{AllocError, Global};

/// The address of the first byte of a program for CP/M.
const COM_START: u16 = 0x100;

/// A memory, and the start that the file says.
#[derive(Drop)]
pub(crate) struct Image {
    /// For each address from 0 on the byte there, if there is one.
    pub(crate) cells: Vec<Option<u8>>,
    pub(crate) start: Option<u16>,
}

fn hex_image(alloc: Global, text: &[u8]) -> Result<Image, ImageFault>
    ensures image { Gives image_value result (hex_image text.now) }
    ensures few { IfOk result (λ image. length image.cells.items ≤ MEMORY_SIZE) }
{
    match read_hex(alloc, text) {
        Ok(file) => {
            let cells = cells(alloc, &file.bytes)?;
            Ok(Image {
                cells,
                start: file.start,
            })
        }
        Err(HexFault::At { line, kind }) => Err(ImageFault::Hex { line, kind }),
        Err(HexFault::OutOfMemory) => Err(ImageFault::OutOfMemory),
    }
}

/// A memory with bytes from an address on.
fn cells_from(alloc: Global, address: u16, bytes: &[u8]) -> Result<Vec<Option<u8>>, AllocError>
    ensures { IfOk result (λ cells. cells.items ≡ cells_from address bytes.now) }
{
    let mut cells = Vec::new(alloc);
    cells.resize(usize::from(address), None)?;
    for byte in bytes {
        cells.push(Some(*byte))?;
    }
    Ok(cells)
}

fn bytes_image(alloc: Global, address: u16, bytes: &[u8]) -> Result<Image, ImageFault>
    ensures image { Gives image_value result (bytes_image address bytes.now) }
    ensures few { IfOk result (λ image. length image.cells.items ≤ MEMORY_SIZE) }
{
    if bytes.len() > MEMORY_SIZE - usize::from(address) {
        return Err(ImageFault::PastEnd);
    }
    let cells = cells_from(alloc, address, bytes)?;
    Ok(Image {
        cells,
        start: Some(address),
    })
}

/// The memory and the start of a file; bytes begin at the origin.
pub(crate) fn image_of(
    alloc: Global,
    kind: ImageKind,
    origin: u16,
    bytes: &[u8],
) -> Result<Image, ImageFault>
    ensures image { Gives image_value result (image_of kind origin bytes.now) }
    ensures few { IfOk result (λ image. length image.cells.items ≤ MEMORY_SIZE) }
{
    match kind {
        ImageKind::Hex => hex_image(alloc, bytes),
        ImageKind::Com => bytes_image(alloc, COM_START, bytes),
        ImageKind::Bytes => bytes_image(alloc, origin, bytes),
    }
}

/// The lowest address that has a byte.
fn lowest(cells: &[Option<u8>]) -> Option<usize>
    ensures address { result ≡ position is_some cells.now }
    ensures within { IfSome result (λ address. address < length cells.now) }
{
    cells.iter().position(|cell| cell.is_some())
}

/// The start that is said, or else the lowest address that has a byte; `None` if no address has one.
pub(crate) fn start_in(cells: &[Option<u8>], said: Option<u16>) -> Option<u16>
    requires { length cells.now ≤ MEMORY_SIZE }
    ensures { result ≡ start_in cells.now said }
{
    match lowest(cells) {
        Some(address) => Some(said.unwrap_or(address as u16)),
        None => None,
    }
}
