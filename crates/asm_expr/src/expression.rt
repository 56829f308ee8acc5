//! Expression trees (8080/8085 Assembly Language Programming Manual, chapter 2, "Operand field").
ghost use Rattle.std.specs.Prelude.{◌≡◌, ◌≤◌, ◌<◌, ◌+◌, ◌++◌, ℕ, List, max, map, IfOk, OnOk, MatchResult};
ghost use Rattle.asm_expr.specs.Tree.{Tree, Prefix, Infix, Parens};
ghost use Rattle.asm_expr.specs.Tree.{tree_of, depth_of, names_of, atom_of, Refuses};

use crate::name::Name;
use std::alloc::{AllocError, AllocFailed, Global};
use std::marker::Model;
use thiserror::Error;

/// An operator with one operand.
#[derive(Clone, Copy, PartialEq, Eq)]
pub enum Unary {
    Plus,
    Minus,
    Not,
    High,
    Low,
}

/// An operator between two operands.
#[derive(Clone, Copy, PartialEq, Eq)]
pub enum Binary {
    Multiply,
    Divide,
    Modulo,
    ShiftLeft,
    ShiftRight,
    Add,
    Subtract,
    Equal,
    NotEqual,
    Less,
    LessOrEqual,
    Greater,
    GreaterOrEqual,
    And,
    Or,
    Xor,
}

/// An operand without operators.
#[derive(Drop)]
pub enum Atom {
    /// A number, or the one or two characters of a string as a number.
    Number(u16),
    /// `$`, the address of the statement.
    Here,
    /// A name.
    Named(Name),
}

// One level of a tree.
#[derive(Drop)]
pub(crate) enum Node {
    Atom(Atom),
    Prefix(Unary, Box<Node>),
    Infix(Binary, Box<Node>, Box<Node>),
    Parens(Box<Node>),
}

/// Why there is no tree.
#[derive(Clone, Copy, Debug, PartialEq, Eq, Error)]
pub enum TreeFault {
    /// Memory ran out.
    #[error("OutOfMemory")]
    OutOfMemory,
    /// The tree would be deeper than 64.
    #[error("Nesting")]
    Nesting,
}

impl<T: Drop> From<AllocFailed<T>> for TreeFault {
    ghost use Rattle.asm_expr.specs.declared.expression.TreeFault.TheVariants.{OutOfMemory};

    ghost from_gives = { λ _ fault. fault ≡ OutOfMemory };

    fn from(_: AllocFailed<T>) -> TreeFault {
        TreeFault::OutOfMemory
    }
}

/// An expression at most 64 deep, seen as its tree. An atom is 1 deep, an operator with its operands
/// 1 deeper than the deepest of them, and so is a pair of parentheses.
#[derive(Drop)]
pub struct Expr {
    node: Node,
    depth: u8,
}

impl Model for Expr {
    ghost use Rattle.std.specs.Prelude.{◌≡◌, ◌≤◌};
    ghost use Rattle.asm_expr.specs.Tree.{Tree, tree_of, depth_of};
    ghost use Rattle.asm_expr.specs.TreeCode.{tree_code};

    ghost Value = { Tree };

    ghost coded = { tree_code };

    ghost view = { λ e. tree_of e.node };

    ghost invariant = { λ e. (e.depth ≡ depth_of (tree_of e.node)) × (e.depth ≤ 64) };
}

impl Expr {
    /// The depth of the tree, from 1 to 64.
    pub fn depth(&self) -> u8
        ensures depth { result ≡ depth_of self.now }
        ensures within { result ≤ 64 }
    {
        self.depth
    }

    /// The tree of an atom.
    pub fn atom(atom: Atom) -> Expr
        ensures { result ≡ atom_of atom }
    {
        Expr {
            node: Node::Atom(atom),
            depth: 1,
        }
    }

    /// An operator before an operand.
    pub fn prefix(alloc: Global, operator: Unary, operand: Expr) -> Result<Expr, TreeFault>
        ensures { MatchResult result (λ e. e ≡ Prefix operator operand)
            (λ fault. Refuses fault (depth_of operand + 1)) }
    {
        if operand.depth >= 64 {
            return Err(TreeFault::Nesting);
        }
        let depth = operand.depth + 1;
        let node = Node::Prefix(operator, Box::new(alloc, operand.node)?);
        Ok(Expr { node, depth })
    }

    /// An operator between two operands.
    pub fn infix(
        alloc: Global,
        operator: Binary,
        left: Expr,
        right: Expr,
    ) -> Result<Expr, TreeFault>
        ensures { MatchResult result (λ e. e ≡ Infix operator left right)
            (λ fault. Refuses fault (max (depth_of left) (depth_of right) + 1)) }
    {
        let deepest = left.depth.max(right.depth);
        if deepest >= 64 {
            return Err(TreeFault::Nesting);
        }
        let depth = deepest + 1;
        let left = Box::new(alloc, left.node)?;
        let node = Node::Infix(operator, left, Box::new(alloc, right.node)?);
        Ok(Expr { node, depth })
    }

    /// An expression in parentheses.
    pub fn parens(alloc: Global, inner: Expr) -> Result<Expr, TreeFault>
        ensures { MatchResult result (λ e. e ≡ Parens inner)
            (λ fault. Refuses fault (depth_of inner + 1)) }
    {
        if inner.depth >= 64 {
            return Err(TreeFault::Nesting);
        }
        let depth = inner.depth + 1;
        let node = Node::Parens(Box::new(alloc, inner.node)?);
        Ok(Expr { node, depth })
    }

    // The root of the tree.
    pub(crate) fn node(&self) -> &Node
        ensures { tree_of result.now ≡ self.now }
    {
        &self.node
    }

    /// The names in the expression, from the left.
    pub fn names(&self, alloc: Global) -> Result<Vec<&Name>, AllocError>
        ensures { IfOk result (λ names. map (λ n. n.now) names.items ≡ names_of self.now) }
    {
        let mut names = Vec::new(alloc);
        add_names(&self.node, &mut names)?;
        Ok(names)
    }
}

// Appends the names of a tree.
fn add_names<'a>(node: &'a Node, names: &mut Vec<&'a Name>) -> Result<(), AllocError>
    ensures { OnOk result (map (λ n. n.now) names.new.items
        ≡ map (λ n. n.now) names.old.items ++ names_of (tree_of node.now)) }
{
    match node {
        Node::Atom(Atom::Named(name)) => {
            names.push(name)?;
            Ok(())
        }
        Node::Atom(_) => Ok(()),
        Node::Prefix(_, operand) => add_names(operand, names),
        Node::Infix(_, left, right) => {
            add_names(left, names)?;
            add_names(right, names)
        }
        Node::Parens(inner) => add_names(inner, names),
    }
}
