//! The text of a program's file.
ghost use Rattle.std.specs.Prelude.{◌≡◌, Err, IfOk};
ghost use Rattle.dap_image.specs.Texts.{text_for};
ghost use Rattle.dap_launch.specs.Files as files;

use base_text::sequence::Bytes;
use base_text::text::Text;
use dap_image::fault::{ImageFault, fault_message};
use dap_image::text::{ImagePlace, image_text};
use dap_messages::file_kind::ImageKind;
use dap_requests::request::Launch;
use std::alloc::{AllocError, Global};

/// What is found at the path of a launch.
#[derive(Drop)]
pub enum FileText {
    Text(Text),
    /// A program without source.
    Image { kind: ImageKind, bytes: Bytes },
    Missing,
    Unreadable,
    /// The file isn't UTF-8.
    NotText,
    TooLong,
}

/// A text, or the message that says why there is none.
pub type TextOrMessage = Result<Text, Text>;

fn place_of(launch: &Launch) -> ImagePlace
    ensures { result ≡ files.place_of launch.now }
{
    ImagePlace {
        origin: launch.origin,
        start: launch.start,
    }
}

fn message(alloc: Global, text: &str) -> Result<TextOrMessage, AllocError>
    ensures { IfOk result (λ found. found ≡ Err text.now) }
{
    let message = Text::copy_of(alloc, text)?;
    Ok(Err(message))
}

// The text of a program without source. Running out of memory is an error of its own.
fn listing(
    alloc: Global,
    kind: ImageKind,
    bytes: &[u8],
    place: ImagePlace,
) -> Result<TextOrMessage, AllocError>
    ensures { IfOk result (λ found. found ≡ files.or_message (text_for kind bytes.now place)) }
{
    match image_text(alloc, kind, bytes, place) {
        Ok(text) => Ok(Ok(text)),
        Err(ImageFault::OutOfMemory) => Err(AllocError),
        Err(fault) => {
            let message = fault_message(alloc, fault)?;
            Ok(Err(message))
        }
    }
}

/// The text of a launch's program: its source, or, if it has none, its disassembly; or why there is none.
pub fn program_text(
    alloc: Global,
    launch: &Launch,
    file: &Option<FileText>,
) -> Result<TextOrMessage, AllocError>
    ensures { IfOk result (λ found. found ≡ files.program_text launch.now file.now) }
{
    match file {
        None => message(alloc, "no file"),
        Some(FileText::Missing) => message(alloc, "no file"),
        Some(FileText::Unreadable) => message(alloc, "the file can't be read"),
        Some(FileText::NotText) => message(alloc, "the file is not UTF-8 text"),
        Some(FileText::TooLong) => message(alloc, "the text is too long"),
        Some(FileText::Text(text)) => {
            let text = text.clone()?;
            Ok(Ok(text))
        }
        Some(FileText::Image { kind, bytes }) => {
            listing(alloc, *kind, bytes.as_slice(), place_of(launch))
        }
    }
}
