//! What a file has in it, by its path.
ghost use Rattle.std.specs.Prelude.{◌≡◌};
ghost use Rattle.dap_messages.specs.FileKinds.{is_one_of, kind_with_extension, kind_of};

use std::path::Path;

/// The form of a program without source.
#[derive(Clone, Copy)]
pub enum ImageKind {
    /// Intel HEX.
    Hex,
    /// A program for CP/M, whose first byte is at 0100H.
    Com,
    /// Bytes from an address on.
    Bytes,
}

fn is_one_of(first: &str, second: &str, extension: &str) -> bool
    ensures { result ≡ is_one_of first.now second.now extension.now }
{
    extension.eq_ignore_ascii_case(first) || extension.eq_ignore_ascii_case(second)
}

fn kind_with_extension(extension: &str) -> Option<ImageKind>
    ensures { result ≡ kind_with_extension extension.now }
{
    if is_one_of("hex", "ihx", extension) {
        return Some(ImageKind::Hex);
    }
    if extension.eq_ignore_ascii_case("com") {
        return Some(ImageKind::Com);
    }
    if is_one_of("bin", "rom", extension) {
        return Some(ImageKind::Bytes);
    }
    None
}

/// The form of the file with this path: Intel HEX for `.hex` and `.ihx`, a program for CP/M for `.com`, bytes
/// for `.bin` and `.rom`, in either case; `None` for any other.
///
/// The extension is that of `Path::extension`: a file that is named `.hex` has none.
pub fn image_kind(path: &str) -> Option<ImageKind>
    ensures { result ≡ kind_of path.now }
{
    match Path::new(path).extension() {
        Some(extension) => kind_with_extension(extension),
        None => None,
    }
}
