//! Why a program has no text.
ghost use Rattle.std.specs.Prelude.{◌≡◌, IfOk};
ghost use Rattle.dap_image.specs.Faults.{fault_message};

use asm_hex::fault::HexFaultKind;
use base_text::text::Text;
use std::alloc::{AllocError, Global};

/// Why a program has no text.
#[derive(Clone, Copy)]
pub enum ImageFault {
    OutOfMemory,
    /// The first fault of Intel HEX, at a line, from 1.
    Hex { line: usize, kind: HexFaultKind },
    /// A byte past the last address, FFFFH.
    PastEnd,
    /// No byte at all.
    Empty,
    /// The listing has more lines than a cell may have.
    TooManyLines,
}

impl From<AllocError> for ImageFault {
    ghost use Rattle.dap_image.specs.declared.fault.ImageFault.TheVariants.{OutOfMemory};

    ghost from_gives = { λ _ fault. fault ≡ OutOfMemory };

    fn from(_: AllocError) -> ImageFault {
        ImageFault::OutOfMemory
    }
}

fn hex_message(alloc: Global, line: usize, kind: HexFaultKind) -> Result<Text, AllocError>
    ensures { IfOk result (λ text. text ≡ fault_message (ImageFault.Hex line kind)) }
{
    let name = kind.name();
    let mut text = String::new(alloc);
    write!(text, "{line}: {name}")?;
    Ok(Text::from(text))
}

/// The fault in words, for the user; of Intel HEX the line and the fault's name.
pub fn fault_message(alloc: Global, fault: ImageFault) -> Result<Text, AllocError>
    ensures { IfOk result (λ text. text ≡ fault_message fault) }
{
    match fault {
        ImageFault::OutOfMemory => Text::copy_of(alloc, "out of memory"),
        ImageFault::Hex { line, kind } => hex_message(alloc, line, kind),
        ImageFault::PastEnd => Text::copy_of(alloc, "the program ends behind FFFF"),
        ImageFault::Empty => Text::copy_of(alloc, "the program has no bytes"),
        ImageFault::TooManyLines => Text::copy_of(alloc, "the listing has too many lines"),
    }
}
