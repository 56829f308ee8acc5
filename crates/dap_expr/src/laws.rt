//! Laws of the definitions.
ghost use Rattle.std.specs.Prelude.{◌≡◌, ◌≤◌, ℕ, List, length, Ok, replicate};
ghost use Rattle.base_text.specs.Bytes.{Text};
ghost use Rattle.asm_expr.specs.Value.{value_of};
ghost use Rattle.asm_syntax.specs.declared.statement.Operand.{Operand};
ghost use Rattle.asm_syntax.specs.Lexemes.{Piece};
ghost use Rattle.asm_lex.specs.Climb.{expression};
ghost use Rattle.asm_lex.specs.Tokens.{tokens_of};
ghost use Rattle.asm_text.specs.Lines.{placed_well};
ghost use Rattle.lab_core.specs.Board.{Board};
ghost use Rattle.dap_expr.specs.declared.brackets.Width.{Width};
ghost use Rattle.dap_expr.specs.Brackets.{in_brackets};
ghost use Rattle.dap_expr.specs.Expressions.{expression_of, plain_expression};
ghost use Rattle.dap_expr.specs.Values.{symbol_value, HasValue, tree_value, read_at, TermHasValue};

/// A text that the assembler takes is the assembler's expression.
#[tactic(auto, using(crate::proofs::PlainLemmas::plain_is_kept))]
pub fn plain_is_kept()
    ensures { (text : Text) (ps : List Piece) (o : Operand) → length text ≤ 1024
        → tokens_of text ≡ Ok ps → placed_well ps ≡ Ok ps → expression 1 ps ≡ Ok o
        → expression_of text ≡ Ok (plain_expression o.expr) }
{}

/// A text that the assembler takes has the value that it has there, where `$` is PC and names are the
/// symbols.
#[tactic(auto, using(crate::proofs::PlainValues::plain_is_assembler))]
pub fn plain_is_assembler()
    ensures { (b : Board) (text : Text) (ps : List Piece) (o : Operand) (value : ℕ) → length text ≤ 1024
        → tokens_of text ≡ Ok ps → placed_well ps ≡ Ok ps → expression 1 ps ≡ Ok o
        → value_of (symbol_value b) b.machine.regs.pc o.expr ≡ Ok value
        → HasValue b text value }
{}

/// An expression in brackets is the byte at its value, and after `word` the word there, low byte first.
#[tactic(auto, using(crate::proofs::ReadLemmas::read_is_at_value))]
pub fn read_is_at_value()
    ensures { (b : Board) (c d : ℕ) (w : Width) (ps : List Piece) (o : Operand) (a : ℕ)
        → expression 1 ps ≡ Ok o → tree_value b (replicate 16 0) o.expr ≡ Ok a
        → placed_well (in_brackets c w ps d) ≡ Ok (in_brackets c w ps d)
        → TermHasValue b (in_brackets c w ps d) (read_at b.machine w a) }
{}
