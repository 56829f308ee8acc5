//! The values of names.
ghost use Rattle.std.specs.Prelude.{◌≡◌, List, ℕ, Option};

/// A finite map from names, in upper case, to 16-bit values.
pub trait Env {
    /// The value of each name that has one.
    ghost values: { Self → List ℕ → Option ℕ };

    /// The value of a name, if it has one.
    fn get(&self, name: &str) -> Option<u16>
        ensures { result ≡ values self.now name.now };
}
