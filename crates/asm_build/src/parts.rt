//! The open IFs around a statement.
ghost use Rattle.std.specs.Prelude.{◌≡◌, [], ◌∷◌, OnOk};
ghost use Rattle.std.specs.List.{list_all};
ghost use Rattle.asm_build.specs.Reading.{switch_innermost, outer};

use std::alloc::{AllocError, Global};
use std::marker::Model;

/// For each open IF whether this is its selected part, the innermost first.
#[derive(Drop)]
pub(crate) struct Parts {
    selected: Vec<bool>,
}

impl Model for Parts {
    ghost use Rattle.std.specs.Prelude.{List, Bool, reverse};

    ghost Value = { List Bool };

    ghost view = { λ p. reverse p.selected.items };
}

impl Parts {
    pub(crate) fn new(alloc: Global) -> Parts
        ensures { result ≡ [] }
    {
        Parts {
            selected: Vec::new(alloc),
        }
    }

    // Enters an IF.
    pub(crate) fn open(&mut self, is_selected: bool) -> Result<(), AllocError>
        ensures { OnOk result (self.new ≡ is_selected ∷ self.old) }
    {
        self.selected.push(is_selected)?;
        Ok(())
    }

    // Switches the innermost IF to its other part, at an ELSE.
    pub(crate) fn switch(&mut self)
        ensures { self.new ≡ switch_innermost self.old }
    {
        let open = self.selected.len();
        if open > 0 {
            self.selected[open - 1] = !self.selected[open - 1];
        }
    }

    // Leaves the innermost IF, at an ENDIF.
    pub(crate) fn close(&mut self)
        ensures { self.new ≡ outer self.old }
    {
        let _ = self.selected.pop();
    }

    // Whether each IF selects this part.
    pub(crate) fn all(&self) -> bool
        ensures { result ≡ list_all (λ b. b) self.now }
    {
        are_true(&self.selected)
    }

    // Whether each IF but the innermost does.
    pub(crate) fn all_outer(&self) -> bool
        ensures { result ≡ list_all (λ b. b) (outer self.now) }
    {
        let open = self.selected.len();
        if open == 0 {
            return true;
        }
        are_true(self.selected.as_slice().split_at(open - 1).0)
    }
}

fn are_true(parts: &[bool]) -> bool
    ensures { result ≡ list_all (λ b. b) parts.now }
{
    parts.iter().all(|b| *b)
}
