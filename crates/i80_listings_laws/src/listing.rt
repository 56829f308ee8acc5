//! Laws of the listing of bytes.
ghost use Rattle.std.specs.Prelude.{◌≡◌, ◌<◌, ◌≤◌, ◌+◌, ◌↔◌, ℕ, List, length};
ghost use Rattle.asm_build.specs.Reading.{Entries};
ghost use Rattle.i80_dis.specs.declared.line.Shown.{Shown};
ghost use Rattle.i80_dis.specs.Shown.{Lists, lines_of};
ghost use Rattle.i80_dis.specs.Text.{listing_of};
ghost use Rattle.i80_listings_laws.specs.FirstLine.{IsFirstLine};
ghost use Rattle.i80_listings_laws.specs.Bytes.{AreBytes, image_from, AssemblesTo};

/// The lines that the table of instructions gives for bytes are the lines of their listing, and no
/// others.
pub fn lines_are()
    ensures { (bytes : List ℕ) (lines : List Shown) → Lists bytes lines ↔ (lines ≡ lines_of bytes) }
{}

/// What `line_at` returns for bytes is the first line of their listing, and the bytes that it shows
/// stand at their front. If no instruction is cut off there, the other lines are those of the bytes
/// after them.
pub fn first_line_is()
    ensures { (bytes : List ℕ) → 0 < length bytes → IsFirstLine bytes }
{}

/// A listing of bytes is a cell. Over any kept symbols it has a consistent reading and no fault; and
/// each of its consistent readings gives these bytes, one after the other from the address on, no
/// start, and the symbols that were kept.
pub fn listing_assembles()
    ensures { (kept : Entries) (address : ℕ) (bytes : List ℕ)
        → AreBytes bytes → address + length bytes ≤ 65536
        → AssemblesTo kept (listing_of address bytes) (image_from address bytes) }
{}
