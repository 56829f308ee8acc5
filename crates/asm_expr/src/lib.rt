// Expressions of the 8080 assembly language: their trees and values. `Expr` is a tree at most 64 deep;
// `atom`, `prefix`, `infix` and `parens` build one, and refuse exactly the trees that would be deeper.
// `value` returns the value of a tree, given those of names and of `$`: the fault is Undefined if a name in
// it has no value, else Divisor if a part of it divides by zero.
#![tactic(auto)]

pub mod env;
pub mod evaluation;
pub mod expression;
pub mod name;
