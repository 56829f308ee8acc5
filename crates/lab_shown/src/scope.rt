//! The scopes of variables.
ghost use Rattle.std.specs.Prelude.{◌≡◌};

/// A scope of each frame (Debug Adapter Protocol, `Scope`).
#[derive(Clone, Copy)]
pub enum Scope {
    Registers,
    Flags,
    Devices,
    Symbols,
    Memory,
}

impl Scope {
    ghost use Rattle.lab_shown.specs.Scopes.{reference_of, scope_with};

    /// The number by which the variables of the scope are asked for, its `variablesReference`.
    pub fn reference(self) -> u32
        ensures { result ≡ reference_of self }
    {
        match self {
            Scope::Registers => 1,
            Scope::Flags => 2,
            Scope::Devices => 3,
            Scope::Symbols => 4,
            Scope::Memory => 5,
        }
    }

    /// The scope with this number, if there is one.
    pub fn with_reference(reference: u32) -> Option<Scope>
        ensures { result ≡ scope_with reference }
    {
        match reference {
            1 => Some(Scope::Registers),
            2 => Some(Scope::Flags),
            3 => Some(Scope::Devices),
            4 => Some(Scope::Symbols),
            5 => Some(Scope::Memory),
            _ => None,
        }
    }
}
