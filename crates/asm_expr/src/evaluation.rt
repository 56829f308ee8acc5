//! The value of an expression.
ghost use Rattle.std.specs.Prelude.{◌≡◌};
ghost use Rattle.asm_expr.specs.Tree.{tree_of};
ghost use Rattle.asm_expr.specs.Value.{value_of, unary_of, binary_of, combine};

use crate::env::Env;
use crate::expression::{Atom, Binary, Expr, Node, Unary};
use thiserror::Error;

/// Why an expression has no value.
#[derive(Clone, Copy, Debug, PartialEq, Eq, Error)]
pub enum ExprFault {
    /// A name in it has no value.
    #[error("Undefined")]
    Undefined,
    /// A part of it divides by zero.
    #[error("Divisor")]
    Divisor,
}

/// The value of an expression, where `env` has the values of names and `here` is that of `$`. All
/// parts are evaluated: an `Undefined` anywhere comes before a `Divisor`.
pub fn value<E: Env>(expression: &Expr, env: &E, here: u16) -> Result<u16, ExprFault>
    ensures { result ≡ value_of (E.values env.now) here expression.now }
{
    node_value(expression.node(), env, here)
}

fn node_value<E: Env>(node: &Node, env: &E, here: u16) -> Result<u16, ExprFault>
    ensures { result ≡ value_of (E.values env.now) here (tree_of node.now) }
{
    match node {
        Node::Atom(Atom::Number(n)) => Ok(*n),
        Node::Atom(Atom::Here) => Ok(here),
        Node::Atom(Atom::Named(name)) => env.get(name.as_str()).ok_or(ExprFault::Undefined),
        Node::Prefix(op, operand) => Ok(unary(*op, node_value(operand, env, here)?)),
        Node::Infix(op, left, right) => {
            both(
                *op,
                node_value(left, env, here),
                node_value(right, env, here),
            )
        }
        Node::Parens(inner) => node_value(inner, env, here),
    }
}

fn unary(op: Unary, x: u16) -> u16
    ensures { result ≡ unary_of op x }
{
    match op {
        Unary::Plus => x,
        Unary::Minus => 0u16.wrapping_sub(x),
        Unary::Not => u16::MAX - x,
        Unary::High => x / 256,
        Unary::Low => x % 256,
    }
}

fn both(op: Binary, x: Result<u16, ExprFault>, y: Result<u16, ExprFault>) -> Result<u16, ExprFault>
    ensures { result ≡ combine (binary_of op) x y }
{
    match (x, y) {
        (Ok(x), Ok(y)) => binary(op, x, y).ok_or(ExprFault::Divisor),
        (Err(ExprFault::Undefined), _) => Err(ExprFault::Undefined),
        (_, Err(ExprFault::Undefined)) => Err(ExprFault::Undefined),
        (Err(ExprFault::Divisor), _) => Err(ExprFault::Divisor),
        (Ok(_), Err(ExprFault::Divisor)) => Err(ExprFault::Divisor),
    }
}

fn binary(op: Binary, x: u16, y: u16) -> Option<u16>
    ensures { result ≡ binary_of op x y }
{
    match op {
        Binary::Multiply => Some(x.wrapping_mul(y)),
        Binary::Divide => if y == 0 { None } else { Some(x / y) },
        Binary::Modulo => if y == 0 { None } else { Some(x % y) },
        Binary::ShiftLeft => Some(if y >= 16 { 0 } else { x.wrapping_mul(1 << y) }),
        Binary::ShiftRight => Some(if y >= 16 { 0 } else { x >> y }),
        Binary::Add => Some(x.wrapping_add(y)),
        Binary::Subtract => Some(x.wrapping_sub(y)),
        Binary::Equal => Some(if x == y { u16::MAX } else { 0 }),
        Binary::NotEqual => Some(if x == y { 0 } else { u16::MAX }),
        Binary::Less => Some(if x < y { u16::MAX } else { 0 }),
        Binary::LessOrEqual => Some(if x <= y { u16::MAX } else { 0 }),
        Binary::Greater => Some(if y < x { u16::MAX } else { 0 }),
        Binary::GreaterOrEqual => Some(if y <= x { u16::MAX } else { 0 }),
        Binary::And => Some(x & y),
        Binary::Or => Some(x | y),
        Binary::Xor => Some(x ^ y),
    }
}
