//! A set of addresses.
ghost use Rattle.std.specs.Prelude.{◌≡◌, ◌==◌, ◌||◌, ℕ, false, length, IfOk};
ghost use Rattle.lab_image.specs.Addresses.{IsEmpty};

use std::alloc::{AllocError, Global};
use std::marker::Model;

/// The number of addresses.
const ADDRESS_COUNT: usize = 65_536;

/// A set of addresses: whether each is in it. One byte for each is looked up faster than one bit, which
/// matters since a slice looks after each step.
#[derive(Drop)]
pub struct AddressSet {
    members: Vec<bool>,
    /// Whether no address is in it.
    is_empty: bool,
}

impl Model for AddressSet {
    ghost use Rattle.std.specs.Prelude.{◌≡◌, List, Bool, length};
    ghost use Rattle.lab_image.specs.Addresses.{TellsEmpty};

    ghost Value = { List Bool };

    ghost view = { λ s. s.members.items };

    ghost invariant = { λ s. (length s.members.items ≡ 65536) × TellsEmpty s.is_empty s.members.items };
}

impl AddressSet {
    ghost use Rattle.lab_image.specs.Addresses.{has, TellsEmpty};

    /// The empty set.
    pub fn new(alloc: Global) -> Result<AddressSet, AllocError>
        ensures { IfOk result (λ set. (a : ℕ) → has set a ≡ false) }
    {
        let members = none(alloc, ADDRESS_COUNT)?;
        Ok(AddressSet {
            members,
            is_empty: true,
        })
    }

    /// Whether no address is in the set.
    #[inline(always)]
    pub(crate) fn is_empty(&self) -> bool
        ensures { TellsEmpty result self.now }
    {
        self.is_empty
    }

    /// Whether an address is in the set.
    #[inline(always)]
    pub fn contains(&self, address: u16) -> bool
        ensures { result ≡ has self.now address }
    {
        self.members[usize::from(address)]
    }

    /// Adds an address.
    pub fn insert(&mut self, address: u16)
        ensures { (a : ℕ) → has self.new a ≡ (has self.old a || address == a) }
    {
        self.members[usize::from(address)] = true;
        self.is_empty = false;
    }

    /// Removes all addresses.
    pub fn clear(&mut self)
        ensures { (a : ℕ) → has self.new a ≡ false }
    {
        take_out(&mut self.members);
        self.is_empty = true;
    }
}

// That many entries, all of them false.
fn none(alloc: Global, count: usize) -> Result<Vec<bool>, AllocError>
    ensures count { IfOk result (λ members. length members.items ≡ count) }
    ensures empty { IfOk result (λ members. IsEmpty members.items) }
{
    vec![in alloc; false; count]
}

// Makes all entries false.
fn take_out(members: &mut [bool])
    ensures { IsEmpty members.new }
{
    members.fill(false);
}
