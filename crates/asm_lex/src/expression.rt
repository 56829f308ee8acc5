//! Expressions, read by precedence climbing.
ghost use Rattle.std.specs.Prelude.{◌≡◌, ◌≤◌, ◌+◌, ◌<◌, IfSome, option_map};
ghost use Rattle.asm_expr.specs.Tree.{Prefix, Infix, Parens};
ghost use Rattle.asm_syntax.specs.Lexemes.{pieces_of};
ghost use Rattle.asm_syntax.specs.Outcome.{LineGives};
ghost use Rattle.asm_lex.specs.Operators.{symbols};
ghost use Rattle.asm_lex.specs.Climb.{fault_at, expression_and_rest, tree_or_nesting, after_parenthesis};
ghost use Rattle.asm_lex.specs.Climb.{operand_at, infix_at, expr_at};
ghost use Rattle.asm_lex.specs.Climb.{first_column, expression};
ghost use Rattle.asm_syntax.specs.declared.fault.LineFault.TheVariants as line;
ghost use Rattle.asm_syntax.specs.declared.fault.FaultKind.TheVariants as kind;

use crate::operators::{
    atom, infix_of, infix_strength, is_sign, plain, prefix_of, prefix_strength,
};
use crate::shape::is_expression;
use asm_expr::expression::{Binary, Expr, TreeFault, Unary};
use asm_syntax::fault::{FaultKind, LineFault};
use asm_syntax::statement::Operand;
use asm_syntax::token::Placed;
use std::alloc::Global;

// The greatest depth of an expression.
const MOST_DEPTH: usize = 64;

fn fault_at(column: usize, fault: TreeFault) -> LineFault
    ensures { result ≡ fault_at column fault }
{
    match fault {
        TreeFault::OutOfMemory => LineFault::OutOfMemory,
        TreeFault::Nesting => LineFault::At {
            column,
            kind: FaultKind::Nesting,
        },
    }
}

#[tactic(auto, unfolding(crate::specs::Climb::tree_or_nesting))]
fn infix(alloc: Global, first: usize, operator: Binary, a: Expr, b: Expr) -> Result<Expr, LineFault>
    ensures { LineGives (λ e. e) result (tree_or_nesting first (Infix operator a b)) }
{
    match Expr::infix(alloc, operator, a, b) {
        Ok(expr) => {
            expr.depth();
            Ok(expr)
        }
        Err(fault) => Err(fault_at(first, fault)),
    }
}

#[tactic(auto, unfolding(crate::specs::Climb::tree_or_nesting))]
fn prefix(alloc: Global, first: usize, operator: Unary, a: Expr) -> Result<Expr, LineFault>
    ensures { LineGives (λ e. e) result (tree_or_nesting first (Prefix operator a)) }
{
    match Expr::prefix(alloc, operator, a) {
        Ok(expr) => {
            expr.depth();
            Ok(expr)
        }
        Err(fault) => Err(fault_at(first, fault)),
    }
}

#[tactic(auto, unfolding(crate::specs::Climb::tree_or_nesting))]
fn parens(alloc: Global, first: usize, a: Expr) -> Result<Expr, LineFault>
    ensures { LineGives (λ e. e) result (tree_or_nesting first (Parens a)) }
{
    match Expr::parens(alloc, a) {
        Ok(expr) => {
            expr.depth();
            Ok(expr)
        }
        Err(fault) => Err(fault_at(first, fault)),
    }
}

fn shape_fault(first: usize) -> LineFault
    ensures { result ≡ line.At first kind.Operands }
{
    LineFault::At {
        column: first,
        kind: FaultKind::Operands,
    }
}

fn too_deep(first: usize) -> LineFault
    ensures { result ≡ line.At first kind.Nesting }
{
    LineFault::At {
        column: first,
        kind: FaultKind::Nesting,
    }
}

// The operator at the front and the tokens after it, if it is at least as strong as the level.
fn infix_at<'a>(level: u8, tokens: &'a [Placed<'a>]) -> Option<(Binary, &'a [Placed<'a>])>
    ensures { option_map (λ x. (x.0, symbols (pieces_of x.1.now))) result
        ≡ infix_at level (symbols (pieces_of tokens.now)) }
{
    let (piece, rest) = tokens.split_first()?;
    let operator = infix_of(plain(piece.token))?;
    if infix_strength(operator) < level {
        return None;
    }
    Some((operator, rest))
}

// The expression in parentheses, if the closing one is at the front.
#[tactic(auto, unfolding(crate::specs::Climb::after_parenthesis))]
fn close<'a>(
    alloc: Global,
    first: usize,
    a: Expr,
    tokens: &'a [Placed<'a>],
) -> Result<(Expr, &'a [Placed<'a>]), LineFault>
    ensures { LineGives expression_and_rest result
        (after_parenthesis first a (symbols (pieces_of tokens.now))) }
{
    let Some((piece, rest)) = tokens.split_first() else {
        return Err(shape_fault(first));
    };
    if !is_sign(b')', plain(piece.token)) {
        return Err(shape_fault(first));
    }
    Ok((parens(alloc, first, a)?, rest))
}

#[cycle(climb)]
#[tactic(auto, unfolding(crate::specs::Climb::operand_at))]
fn operand_at<'a>(
    alloc: Global,
    first: usize,
    n: usize,
    tokens: &'a [Placed<'a>],
) -> Result<(Expr, &'a [Placed<'a>]), LineFault>
    requires { n ≤ 64 }
    ensures { LineGives expression_and_rest result
        (operand_at first (expr_at first n) (symbols (pieces_of tokens.now))) }
{
    let Some((piece, rest)) = tokens.split_first() else {
        return Err(shape_fault(first));
    };
    let token = plain(piece.token);
    if let Some(operator) = prefix_of(token) {
        let (a, after) = expr_at(alloc, first, n, prefix_strength(operator) + 1, rest)?;
        return Ok((prefix(alloc, first, operator, a)?, after));
    }
    if is_sign(b'(', token) {
        let (a, after) = expr_at(alloc, first, n, 0, rest)?;
        return close(alloc, first, a, after);
    }
    match atom(alloc, token)? {
        Some(atom) => Ok((Expr::atom(atom), rest)),
        None => Err(shape_fault(first)),
    }
}

// The expression at the front whose operators are at least as strong as the level, with at most `n`
// expressions nested in it. More than 64 operators that associate to the left are deeper than 64.
#[cycle(climb)]
#[tactic(auto, unfolding(crate::specs::Climb::expr_at))]
fn expr_at<'a>(
    alloc: Global,
    first: usize,
    n: usize,
    level: u8,
    tokens: &'a [Placed<'a>],
) -> Result<(Expr, &'a [Placed<'a>]), LineFault>
    requires small { n ≤ 64 }
    requires strong { level ≤ 8 }
    ensures { LineGives expression_and_rest result (expr_at first n level (symbols (pieces_of tokens.now))) }
{
    if n == 0 {
        return Err(too_deep(first));
    }
    let (mut left, mut rest) = operand_at(alloc, first, n - 1, tokens)?;
    for _ in 0..MOST_DEPTH + 1 {
        let Some((operator, operand)) = infix_at(level, rest) else {
            return Ok((left, rest));
        };
        let (right, after) = expr_at(alloc, first, n - 1, infix_strength(operator) + 1, operand)?;
        left = infix(alloc, first, operator, left, right)?;
        rest = after;
    }
    Err(too_deep(first))
}

/// The expression of an operand, for an operation at this column. If it is no expression, the fault
/// is `Operands` at the operation; if its tree would be deeper than 64, `Nesting` at the operand's
/// first character. HIGH and LOW bind strongest, then `*`, `/`, MOD, SHL and SHR, then `+` and `-`,
/// also before an operand, then EQ to GE, then NOT, then AND, then OR and XOR (8080/8085 Assembly
/// Language Programming Manual, chapter 2, "Operand field"). Operators between operands associate
/// to the left; the operand of one before an operand extends over stronger operators.
#[tactic(auto, unfolding(crate::specs::Climb::expression))]
pub fn expression(
    alloc: Global,
    column: usize,
    operand: &[Placed<'_>],
) -> Result<Operand, LineFault>
    ensures { LineGives (λ o. o) result (expression column (pieces_of operand.now)) }
{
    if !is_expression(operand) {
        return Err(shape_fault(column));
    }
    let first = first_column(operand);
    let (expr, rest) = expr_at(alloc, first, MOST_DEPTH, 0, operand)?;
    if !rest.is_empty() {
        return Err(shape_fault(column));
    }
    Ok(Operand {
        column: first,
        expr,
    })
}

fn first_column(operand: &[Placed<'_>]) -> usize
    ensures { result ≡ first_column (pieces_of operand.now) }
{
    match operand.first() {
        None => 0,
        Some(piece) => piece.column,
    }
}
