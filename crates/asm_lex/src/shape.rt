//! The shape of an expression.
ghost use Rattle.std.specs.Prelude.{◌≡◌, ◌+◌, ◌<◌, ◌≤◌, ◌^◌, IfSome};
ghost use Rattle.asm_syntax.specs.Lexemes.{lexeme_of, pieces_of};
ghost use Rattle.asm_lex.specs.Shape.{opened_in, next_place, is_end, is_expression};

use crate::operators::{infix_of, is_atom, is_sign, plain, prefix_of};
use asm_syntax::token::{Placed, Token};

/// A place in an expression, with the number of open parentheses.
#[derive(Clone, Copy)]
pub enum Place {
    BeforeOperand(usize),
    AfterOperand(usize),
}

fn next_place(place: Place, token: Token<'_>) -> Option<Place>
    requires { opened_in place + 1 < 2 ^ 64 }
    ensures value { result ≡ next_place place (lexeme_of token.entry) }
    ensures few { IfSome result (λ next. opened_in next ≤ opened_in place + 1) }
{
    match place {
        Place::BeforeOperand(open) => {
            if prefix_of(token).is_some() {
                Some(Place::BeforeOperand(open))
            } else if is_sign(b'(', token) {
                Some(Place::BeforeOperand(open + 1))
            } else if is_atom(token) {
                Some(Place::AfterOperand(open))
            } else {
                None
            }
        }
        Place::AfterOperand(open) => {
            if infix_of(token).is_some() {
                Some(Place::BeforeOperand(open))
            } else if is_sign(b')', token) && open > 0 {
                Some(Place::AfterOperand(open - 1))
            } else {
                None
            }
        }
    }
}

/// Whether an operand is an expression: numbers, names, `$` and strings of one or two characters,
/// with prefix operators before them, infix operators between them, and parentheses that match.
#[tactic(auto, unfolding(crate::specs::Shape::shape))]
pub fn is_expression(operand: &[Placed<'_>]) -> bool
    ensures { result ≡ is_expression (pieces_of operand.now) }
{
    let mut place = Place::BeforeOperand(0);
    for piece in operand {
        let Some(next) = next_place(place, plain(piece.token)) else {
            return false;
        };
        place = next;
    }
    matches!(place, Place::AfterOperand(0))
}
