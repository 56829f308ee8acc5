//! Laws of the definitions.
ghost use Rattle.std.specs.Prelude.{◌≡◌, ◌≤◌, ℕ};
ghost use Rattle.dap_messages.specs.declared.message.Numbering.{Numbering};
ghost use Rattle.dap_messages.specs.Numbering.{line_told, column_told, line_meant, column_meant};

/// A line or a column that an editor sends back is the one that it was told.
#[tactic(auto, using(crate::proofs::NumberingLemmas::meant_of_told))]
pub fn lines_come_back()
    ensures line { (numbering : Numbering) (line : ℕ) → 1 ≤ line → line ≤ 4294967295
        → line_meant numbering (line_told numbering line) ≡ line }
    ensures column { (numbering : Numbering) (column : ℕ) → 1 ≤ column → column ≤ 4294967295
        → column_meant numbering (column_told numbering column) ≡ column }
{}
