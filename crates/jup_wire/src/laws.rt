//! Laws of the definitions.
ghost use Rattle.std.specs.Prelude.{◌≡◌, ℕ};
ghost use Rattle.base_text.specs.Bytes.{Text};
ghost use Rattle.jup_wire.specs.Dates.{IsDate};

/// A moment has at most one date.
pub fn has_one_date()
    ensures { (unix_seconds : ℕ) (a b : Text) → IsDate unix_seconds a → IsDate unix_seconds b → a ≡ b }
{}
