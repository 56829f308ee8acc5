//! Laws of the definitions.
ghost use Rattle.std.specs.Prelude.{◌≡◌, ◌<◌, ◌≤◌, ℕ, List, Option, Ok, IfSome, All, length};
ghost use Rattle.asm_hex.specs.Record.{Record, record_line, read_line};
ghost use Rattle.asm_hex.specs.Contents.{hex_of};
ghost use Rattle.asm_hex.specs.Written.{hex_text, present_from};
ghost use Rattle.asm_hex.specs.Cells.{cells_of};
ghost use Rattle.asm_hex.specs.Law.{IsRecord, start_read, AreInMemory, IsReadAs};

/// The line of a record is read back as that record.
#[tactic(auto, using(crate::proofs::RecordRead::record_read))]
pub fn record_is_read()
    ensures { (r : Record) → IsRecord r → read_line (record_line r) ≡ Ok r }
{}

/// What is written for cells and a start is read back: the bytes that there are, in the order of their
/// addresses, and the start, unless it is 0.
#[tactic(auto, using(crate::proofs::ReadBack::read_back))]
pub fn written_is_read()
    ensures { (cells : List (Option ℕ)) (start : Option ℕ) → length cells ≤ 65536
        → All (λ cell. IfSome cell (λ byte. byte < 256)) cells → IfSome start (λ address. address < 65536)
        → hex_of (hex_text cells start) ≡ Ok (present_from 0 cells, start_read start) }
{}

/// The file for an image is read back as the same bytes at the same addresses, and the start, unless it is 0.
pub fn image_is_read()
    ensures { (image : List (ℕ × ℕ)) (start : Option ℕ) → AreInMemory image
        → IfSome start (λ address. address < 65536)
        → IsReadAs image start (present_from 0 (cells_of image)) }
{}
