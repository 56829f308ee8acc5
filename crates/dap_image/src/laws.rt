//! Theorems about the definitions.
ghost use Rattle.std.specs.Prelude.{◌≡◌, ℕ, List, Some, Ok};
ghost use Rattle.base_text.specs.Bytes.{Text};
ghost use Rattle.asm_build.specs.Reading.{Entries};
ghost use Rattle.i80_listings_laws.specs.Runs.{present};
ghost use Rattle.i80_listings_laws.specs.Law.{AssemblesWith};
ghost use Rattle.lab_core.specs.Board.{Board, opening};
ghost use Rattle.dap_messages.specs.declared.file_kind.ImageKind.{ImageKind};
ghost use Rattle.dap_image.specs.declared.text.ImagePlace.{ImagePlace};
ghost use Rattle.dap_image.specs.Images.{Cells};
ghost use Rattle.dap_image.specs.Texts.{program_for, text_for};
ghost use Rattle.dap_image.specs.Law.{AreInRange, TakesText, LoadsProgram};

/// The text of a program is a cell: over any kept symbols it assembles to the program's bytes at their
/// addresses, ascending, to its start, and to no symbol of its own.
pub fn text_assembles()
    ensures { (kept : Entries) (kind : ImageKind) (bytes : List ℕ) (place : ImagePlace) (text : Text)
        → AreInRange bytes place → text_for kind bytes place ≡ Ok text
        → (cells : Cells) (start : ℕ) → program_for kind bytes place ≡ Ok (cells, start)
        → AssemblesWith kept text (present cells) (Some start) }
{}

/// A board on which no program runs loads that text: each byte of the program is at its address in memory
/// then, every other byte is as it was, and the answer has the program's start.
pub fn text_loads()
    ensures { (kind : ImageKind) (bytes : List ℕ) (place : ImagePlace) (path text : Text) (b : Board)
        → AreInRange bytes place → text_for kind bytes place ≡ Ok text → TakesText path text b
        → (cells : Cells) (start : ℕ) → program_for kind bytes place ≡ Ok (cells, start)
        → LoadsProgram path text cells start b }
{}

/// The board after power-on takes each text under each path.
pub fn opening_takes_text()
    ensures { (path text : Text) → TakesText path text opening }
{}
