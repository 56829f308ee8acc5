//! The breakpoints of a board.
ghost use Rattle.std.specs.Prelude.{◌≡◌, ◌<◌, ◌||◌, ℕ, [], List, IfOk, OnOk, OnErr};
ghost use Rattle.lab_image.specs.Loads.{Load};
ghost use Rattle.lab_image.specs.Loads as image;
ghost use Rattle.lab_image.specs.Addresses.{has};
ghost use Rattle.lab_image.specs.Breakpoints.{is_met, is_met_among};

use crate::address_set::AddressSet;
use crate::lists::{self, BreakpointList};
use crate::mapped::MappedAddresses;
use crate::origins::Origins;
use std::alloc::{AllocError, Global};
use std::marker::Model;

/// The breakpoints, and the addresses at which they are met.
///
/// Sources are numbered as in the loads. `set` and `refresh` go over the statements in memory once,
/// and search the lists for the source of each.
#[derive(Drop)]
pub struct Breakpoints {
    lists: Vec<BreakpointList>,
    addresses: AddressSet,
    alloc: Global,
}

impl Model for Breakpoints {
    ghost use Rattle.lab_image.specs.Breakpoints.{BreakpointState};

    ghost Value = { BreakpointState };

    ghost view = { λ b. record { lists = b.lists.items; members = b.addresses } };
}

impl Breakpoints {
    ghost use Rattle.lab_image.specs.Breakpoints.{with_lines, is_set, CanBeMet, MarksBreakpoints};

    /// No breakpoints. Allocates the room that the addresses need.
    pub fn new(alloc: Global) -> Result<Breakpoints, AllocError>
        ensures lists { IfOk result (λ b. b.lists ≡ []) }
        ensures represents { IfOk result (λ b. (loads : List Load) → MarksBreakpoints b loads) }
    {
        let addresses = AddressSet::new(alloc)?;
        Ok(Breakpoints {
            lists: Vec::new(alloc),
            addresses,
            alloc,
        })
    }

    /// The sources that have breakpoints, each with its lines. A source stands behind those that had
    /// breakpoints when it last got its first ones.
    pub fn lists(&self) -> &[BreakpointList]
        ensures { result.now ≡ self.now.lists }
    {
        &self.lists
    }

    /// Whether a breakpoint is met at an address.
    #[inline]
    pub fn is_at(&self, address: u16) -> bool
        ensures set { result ≡ is_set self.now address }
        ensures met { (loads : List Load) → MarksBreakpoints self.now loads
            → result ≡ is_met self.now.lists loads address }
    {
        self.addresses.contains(address)
    }

    /// Whether there is an address at which a breakpoint is met.
    #[inline]
    pub fn can_be_met(&self) -> bool
        ensures { CanBeMet result self.now }
    {
        !self.addresses.is_empty()
    }

    /// Replaces the lines of a source by these, which may be none.
    pub fn set(&mut self, source: u32, lines: &[u32], origins: &Origins) -> Result<(), AllocError>
        ensures lists { OnOk result (self.new.lists ≡ with_lines source lines.now self.old.lists) }
        ensures represents { OnOk result ((loads : List Load) → image.GivesOrigins origins.now loads
            → MarksBreakpoints self.new loads) }
        ensures err { OnErr result (self.new ≡ self.old) }
    {
        lists::set_lines(self.alloc, &mut self.lists, source, lines)?;
        mark(&mut self.addresses, &self.lists, origins);
        Ok(())
    }

    /// Finds out again where breakpoints are met, after a load.
    pub fn refresh(&mut self, origins: &Origins)
        ensures lists { self.new.lists ≡ self.old.lists }
        ensures represents { (loads : List Load) → image.GivesOrigins origins.now loads
            → MarksBreakpoints self.new loads }
    {
        mark(&mut self.addresses, &self.lists, origins);
    }

    /// Removes all breakpoints.
    pub fn clear(&mut self)
        ensures lists { self.new.lists ≡ [] }
        ensures represents { (loads : List Load) → MarksBreakpoints self.new loads }
    {
        self.lists.clear();
        self.addresses.clear();
    }
}

// Makes the set of the addresses at which a breakpoint of these lists is met.
fn mark(addresses: &mut AddressSet, lists: &[BreakpointList], origins: &Origins)
    ensures { (loads : List Load) → image.GivesOrigins origins.now loads
        → (a : ℕ) → a < 65536 → has addresses.new a ≡ is_met lists.now loads a }
{
    addresses.clear();
    mark_among(addresses, lists, origins.mapped_addresses());
}

// Adds those of the mapped addresses at which a breakpoint of these lists is met.
fn mark_among(addresses: &mut AddressSet, lists: &[BreakpointList], all: MappedAddresses<'_>)
    ensures { (a : ℕ) → has addresses.new a ≡ (has addresses.old a || is_met_among lists.now all.entry a) }
{
    for mapped in all {
        if lists::has_breakpoint(lists, mapped.source, mapped.line) {
            addresses.insert(mapped.address);
        }
    }
}
