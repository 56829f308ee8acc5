//! The text of a program without source.
ghost use Rattle.std.specs.Prelude.{◌≡◌, ◌≤◌, length};
ghost use Rattle.std.specs.Str.Lines.{lines};
ghost use Rattle.dap_image.specs.Outcome.{Gives};
ghost use Rattle.dap_image.specs.Texts.{listing_for, text_for};

use crate::fault::ImageFault;
use crate::image::{image_of, start_in};
use asm_syntax::statement::MOST_LINES;
use base_text::text::Text;
use dap_messages::file_kind::ImageKind;
use i80_base::memory::MEMORY_SIZE;
use i80_listings::listings::listings;
use std::alloc::Global;

/// Where a program's bytes are and where it starts, as far as its file doesn't say it.
#[derive(Clone, Copy)]
pub struct ImagePlace {
    /// The address of the first byte, for `ImageKind::Bytes` alone.
    pub origin: u16,
    /// Where the program starts, whatever its file says.
    pub start: Option<u16>,
}

fn count_lines(text: &str) -> usize
    ensures { result ≡ length (lines text.now) }
{
    text.lines().count()
}

// The listing of a memory with a start.
fn listing_text(alloc: Global, cells: &[Option<u8>], start: u16) -> Result<Text, ImageFault>
    requires { length cells.now ≤ MEMORY_SIZE }
    ensures { Gives (λ text. text) result (listing_for cells.now start) }
{
    let text = listings(alloc, cells, Some(start))?;
    if count_lines(text.as_str()) > MOST_LINES {
        return Err(ImageFault::TooManyLines);
    }
    Ok(Text::from(text))
}

/// The text of a program without source: the listing of its bytes, and END with its start. That is the
/// place's start, or else the file's, or else the lowest address that has a byte.
///
/// A program for CP/M starts at 0100H, and bytes at their origin, if the place names no other start. The
/// time is linear in the number of bytes and addresses.
pub fn image_text(
    alloc: Global,
    kind: ImageKind,
    bytes: &[u8],
    place: ImagePlace,
) -> Result<Text, ImageFault>
    ensures { Gives (λ text. text) result (text_for kind bytes.now place) }
{
    let image = image_of(alloc, kind, place.origin, bytes)?;
    match start_in(&image.cells, place.start.or(image.start)) {
        Some(start) => listing_text(alloc, &image.cells, start),
        None => Err(ImageFault::Empty),
    }
}
