//! Names.
ghost use Rattle.std.specs.Prelude.{◌≡◌, ◌<◌, map, IfOk, EachIndex, slice_index};
ghost use Rattle.std.specs.Char.{to_ascii_uppercase};

use std::alloc::{AllocError, Global};
use std::marker::Model;

/// A name in upper case, seen as its bytes.
#[derive(Drop)]
pub struct Name {
    text: String,
}

impl Model for Name {
    ghost use Rattle.std.specs.Prelude.{List, ℕ};
    ghost use Rattle.std.specs.String.{string_bytes};

    ghost Value = { List ℕ };

    ghost view = { λ n. string_bytes n.text };
}

impl Name {
    /// The name that these ASCII bytes are, in upper case.
    pub fn fold_case(alloc: Global, bytes: &[u8]) -> Result<Name, AllocError>
        requires { EachIndex bytes.now (λ k. slice_index bytes.now k < 128) }
        ensures { IfOk result (λ name. name ≡ map to_ascii_uppercase bytes.now) }
    {
        let mut text = String::with_capacity(alloc, bytes.len())?;
        for b in bytes {
            text.push(char::from(b.to_ascii_uppercase()))?;
        }
        Ok(Name { text })
    }

    /// A copy of the name.
    pub fn copy(&self, alloc: Global) -> Result<Name, AllocError>
        ensures { IfOk result (λ name. name ≡ self.now) }
    {
        let text = String::from_str(alloc, self.text.as_str())?;
        Ok(Name { text })
    }

    /// The text of the name.
    pub fn as_str(&self) -> &str
        ensures { result.now ≡ self.now }
    {
        self.text.as_str()
    }
}
