//! A law of lines with code; laws has those of labels.
ghost use Rattle.std.specs.Prelude.{◌≡◌, ◌<◌, ℕ, Some};
ghost use Rattle.std.specs.List.{Contains};
ghost use Rattle.lab_core.specs.Board.{Board};
ghost use Rattle.dap_disassembly.specs.CodeLines.{code_lines, line_at};

/// On each line where a breakpoint may land a statement begins.
pub fn statement_begins()
    ensures { (b : Board) (line : ℕ) → Contains (code_lines b) line
        → (address : ℕ) × (address < 65536) × (line_at b address ≡ Some line) }
{}
