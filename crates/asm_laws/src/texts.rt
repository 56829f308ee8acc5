//! Laws of the definitions: what a line and a text say, and which fault is reported, as conditions
//! on them.
ghost use Rattle.std.specs.Prelude.{◌≡◌, ◌↔◌, ℕ, List, Ok, Err};
ghost use Rattle.std.specs.Str.Lines.{lines};
ghost use Rattle.asm_syntax.specs.declared.statement.Statement.{Statement};
ghost use Rattle.asm_syntax.specs.Outcome.{Fault, CellFault};
ghost use Rattle.asm_text.specs.Cells.{LinesSay, StandsInText, IsFaultOf};
ghost use Rattle.asm_text.specs.Faults.{StandsOn, IsFirst};
ghost use Rattle.asm_text.specs.Grammar.{LineSays};
ghost use Rattle.asm_text.specs.Lines.{line_of};
ghost use Rattle.asm_text.specs.Statements.{statements_of};

/// A line's statement is what it says if it has no fault; its fault is the first of those that it
/// has.
pub fn line_is_judged()
    ensures says { (line : List ℕ) (s : Statement)
        → (line_of line ≡ Ok s) ↔ (LineSays line s × ((f : Fault) → StandsOn line f → ⊥)) }
    ensures fault { (line : List ℕ) (f : Fault) → (line_of line ≡ Err f) ↔ IsFirst (StandsOn line) f }
{}

/// A text's statements are what its lines say if it has no fault; its fault is the first of those
/// that it has.
pub fn text_is_judged()
    ensures says { (text : List ℕ) (ss : List Statement)
        → (statements_of text ≡ Ok ss)
        ↔ (LinesSay (lines text) ss × ((g : CellFault) → StandsInText text g → ⊥)) }
    ensures fault { (text : List ℕ) (g : CellFault) → (statements_of text ≡ Err g) ↔ IsFaultOf text g }
{}
