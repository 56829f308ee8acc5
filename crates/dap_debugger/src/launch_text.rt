//! The text of a program's file.
ghost use Rattle.std.specs.Prelude.{◌≡◌, None};
ghost use Rattle.dap_debugger.specs.LaunchTexts.{file_as, file_text};

use base_text::sequence::Bytes;
use base_text::text::Text;
use dap_launch::file::FileText;
use dap_messages::file_kind::image_kind;

/// The most bytes that a program's text may have.
pub const TEXT_SIZE: usize = 1_048_576;

// The text that these bytes are, if they are one.
fn text_in(bytes: Vec<u8>) -> FileText
    ensures { result ≡ file_as None bytes.items }
{
    match String::from_utf8(bytes) {
        Ok(text) => FileText::Text(Text::from(text)),
        Err(_) => FileText::NotText,
    }
}

/// What the file with this path has, of which these are the bytes; of a file that is too long it is enough to
/// pass one byte more than a text may have.
pub fn text_of(path: &str, bytes: Vec<u8>) -> FileText
    ensures { result ≡ file_text path.now bytes.items }
{
    if bytes.len() > TEXT_SIZE {
        return FileText::TooLong;
    }
    match image_kind(path) {
        Some(kind) => FileText::Image {
            kind,
            bytes: Bytes::from(bytes),
        },
        None => text_in(bytes),
    }
}
