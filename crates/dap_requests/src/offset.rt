//! Offsets that may be negative.
ghost use Rattle.std.specs.Prelude.{◌≡◌};
ghost use Rattle.dap_requests.specs.Offsets.{address_at};

/// A signed offset, in bytes or in instructions.
#[derive(Clone, Copy)]
pub enum SignedOffset {
    Forward(u32),
    Back(u32),
}

impl SignedOffset {
    /// The address at this distance from another, if there is one.
    pub fn after(self, address: u16) -> Option<u16>
        ensures { result ≡ address_at address self }
    {
        match self {
            SignedOffset::Forward(n) => address.checked_add(u16::try_from(n).ok()?),
            SignedOffset::Back(n) => address.checked_sub(u16::try_from(n).ok()?),
        }
    }
}
