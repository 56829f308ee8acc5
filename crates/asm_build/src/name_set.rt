//! Sets of names.
ghost use Rattle.std.specs.Prelude.{◌≡◌, [], ◌∷◌, OnOk};

use asm_expr::expression::Expr;
use std::alloc::{AllocError, Global};
use std::collections::HashSet;
use std::marker::Model;

/// Names, borrowed from statements.
pub(crate) struct NameSet<'a> {
    names: HashSet<&'a str>,
}

// One function for all places where a set is dropped.
impl Drop for NameSet<'_> {
    fn drop(self) {
        let Self { names: _ } = self;
    }
}

impl<'a> Model for NameSet<'a> {
    ghost use Rattle.std.specs.Prelude.{List, ℕ, map};

    ghost Value = { List (List ℕ) };

    ghost view = { λ s. map (λ n. n.now) s.names.keys };
}

impl<'a> NameSet<'a> {
    ghost use Rattle.asm_expr.specs.Tree.{names_of};
    ghost use Rattle.asm_build.specs.Layout.{is_among, Notes};

    pub(crate) fn new(alloc: Global) -> Self
        ensures { result ≡ [] }
    {
        NameSet {
            names: HashSet::new(alloc),
        }
    }

    pub(crate) fn contains(&self, name: &str) -> bool
        ensures { result ≡ is_among name.now self.now }
    {
        self.names.contains(name)
    }

    pub(crate) fn insert(&mut self, name: &'a str) -> Result<(), AllocError>
        ensures { OnOk result (Notes (name.now ∷ []) self.old self.new) }
    {
        self.names.insert(name)?;
        Ok(())
    }

    // Adds the names of an expression.
    pub(crate) fn insert_all(&mut self, alloc: Global, expr: &'a Expr) -> Result<(), AllocError>
        ensures { OnOk result (Notes (names_of expr.now) self.old self.new) }
    {
        let names = expr.names(alloc)?;
        for name in &names {
            self.insert(name.as_str())?;
        }
        Ok(())
    }
}
