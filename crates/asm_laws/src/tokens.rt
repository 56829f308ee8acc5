//! Laws of the tokens of a line.
ghost use Rattle.std.specs.Prelude.{◌≡◌, ◌↔◌, ℕ, List, Ok, Err};
ghost use Rattle.asm_syntax.specs.Lexemes.{Piece};
ghost use Rattle.asm_syntax.specs.Outcome.{Fault};
ghost use Rattle.asm_lex.specs.Tokens.{tokens_of};
ghost use Rattle.asm_lex.specs.Spelling.{Spells, Breaks};

/// A line's tokens are the only ones that it spells.
pub fn tokens_are_spelled()
    ensures { (line : List ℕ) (ps : List Piece) → (tokens_of line ≡ Ok ps) ↔ Spells 1 ps line }
{}

/// A line's fault is exactly what is wrong where the tokens that it spells end.
pub fn fault_ends_tokens()
    ensures { (line : List ℕ) (f : Fault) → (tokens_of line ≡ Err f) ↔ Breaks 1 line f }
{}
