//! Laws of the expression of an operand.
ghost use Rattle.std.specs.Prelude.{◌≡◌, ◌↔◌, IsTrue, ℕ, List, Err};
ghost use Rattle.asm_expr.specs.Tree.{Tree};
ghost use Rattle.asm_syntax.specs.declared.fault.FaultKind.TheVariants as kind;
ghost use Rattle.asm_syntax.specs.Lexemes.{Piece};
ghost use Rattle.asm_lex.specs.Climb.{expression, first_column};
ghost use Rattle.asm_lex.specs.Reading.{IsTreeOf, within_depth};
ghost use Rattle.asm_lex.specs.Shape.{is_expression};

/// A tree that an operand's pieces spell, each of whose operators has the operands that its
/// strength gives it, is the operand's expression: the only one, or Nesting if it is deeper than 64.
#[tactic(auto, using(crate::proofs::Meaning::expression_is))]
pub fn expression_is()
    ensures { (column : ℕ) (ps : List Piece) (t : Tree) → IsTreeOf t ps
        → expression column ps ≡ within_depth (first_column ps) t }
{}

/// Pieces have the shape of an expression exactly if they spell a tree. If they don't, their
/// expression is the fault Operands.
#[tactic(auto, using(crate::proofs::Meaning::shape_is, crate::proofs::Meaning::no_expression))]
pub fn shape_is()
    ensures shape { (ps : List Piece) → IsTrue (is_expression ps) ↔ ((t : Tree) × IsTreeOf t ps) }
    ensures none { (column : ℕ) (ps : List Piece) → ((t : Tree) → IsTreeOf t ps → ⊥)
        → expression column ps ≡ Err (column, kind.Operands) }
{}
