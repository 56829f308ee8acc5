//! Marks: where a slice may end.
ghost use Rattle.std.specs.Prelude.{◌≡◌, ◌||◌, ◌==◌, ◌++◌, ◌∷◌, [], ℕ, map, IfOk, OnOk, OnErr};
ghost use Rattle.std.specs.List.{list_any};
ghost use Rattle.lab_image.specs.Addresses.{has};
ghost use Rattle.lab_core.specs.Marks.{IsClear, register_at, value_at, differs, is_at, watch_of, with_values};
ghost use Rattle.lab_core.specs.Marks.{with_after, with_end};

use i80_exec::machine::Machine;
use i80_exec::registers::Registers;
use lab_image::address_set::AddressSet;
use lab_shown::place::Place;
use std::alloc::{AllocError, Global};
use std::marker::Model;

/// A watched place, with its values before and after the last step of the last slice.
#[derive(Clone, Copy)]
pub struct Watch {
    pub place: Place,
    pub before: u16,
    pub after: u16,
}

/// Where `Lab::slice_to` ends a slice: at addresses that PC reaches, and places that a step changes.
#[derive(Drop)]
pub struct Marks {
    addresses: AddressSet,
    watches: Vec<Watch>,
    is_met: bool,
    stepped_from: u16,
}

impl Model for Marks {
    ghost use Rattle.lab_core.specs.Marks.{MarksState};

    ghost Value = { MarksState };

    ghost view = { λ m. record {
      addresses = m.addresses;
      watches = m.watches.items;
      is_met = m.is_met;
      stepped_from = m.stepped_from;
    } };
}

impl Marks {
    /// No marks.
    pub fn new(alloc: Global) -> Result<Marks, AllocError>
        ensures { IfOk result IsClear }
    {
        let addresses = AddressSet::new(alloc)?;
        Ok(Marks {
            addresses,
            watches: Vec::new(alloc),
            is_met: false,
            stepped_from: 0,
        })
    }

    /// Marks an address.
    pub fn add_address(&mut self, address: u16)
        ensures addresses { (a : ℕ) → has self.new.addresses a ≡ (has self.old.addresses a || address == a) }
        ensures rest { self.new ≡ record self.old { addresses = self.new.addresses } }
    {
        self.addresses.insert(address);
    }

    /// Watches a place: a step that changes its value reaches a mark.
    pub fn watch(&mut self, place: Place) -> Result<(), AllocError>
        ensures ok { OnOk result (self.new ≡ record self.old {
          watches = self.old.watches ++ record { place = place; before = 0; after = 0 } ∷ [];
        }) }
        ensures err { OnErr result (self.new ≡ self.old) }
    {
        self.watches.push(Watch {
            place,
            before: 0,
            after: 0,
        })?;
        Ok(())
    }

    /// The watched places, in the order in which they were added.
    pub fn watches(&self) -> &[Watch]
        ensures { result.now ≡ self.now.watches }
    {
        &self.watches
    }

    /// Whether the last slice ended at a mark.
    pub fn is_met(&self) -> bool
        ensures { result ≡ self.now.is_met }
    {
        self.is_met
    }

    /// Where PC was before the last step of the last slice, or at its beginning if it made no step.
    pub fn stepped_from(&self) -> u16
        ensures { result ≡ self.now.stepped_from }
    {
        self.stepped_from
    }

    /// Records the values at the beginning of a slice.
    pub(crate) fn begin(&mut self, machine: &Machine)
        ensures { self.new ≡ with_values machine.now self.old }
    {
        keep_values(&mut self.watches, machine);
        self.is_met = false;
    }

    /// Whether the last step reached a mark, if the recorded values are those before it.
    #[inline(always)]
    pub(crate) fn is_at(&self, machine: &Machine) -> bool
        ensures { result ≡ is_at machine.now self.now }
    {
        self.addresses.contains(machine.pc()) || is_any_changed(&self.watches, machine)
    }

    /// Records the values after a slice of `executed` steps, and of its last one whether it reached a mark,
    /// and where PC was before it.
    pub(crate) fn finish(&mut self, machine: &Machine, executed: u16, site: u16)
        ensures { self.new ≡ with_end executed site machine.now self.old }
    {
        self.is_met = executed > 0 && self.is_at(machine);
        self.stepped_from = site;
        keep_values_after(&mut self.watches, machine);
    }
}

#[inline(always)]
fn value_at(machine: &Machine, place: Place) -> u16
    ensures { result ≡ value_at place machine.now }
{
    match place {
        Place::Memory(address) => machine.peek(address).into(),
        _ => register_at(machine.regs(), place),
    }
}

// Kept out of line: most watches are of memory, whose path then has no jump table.
#[cold]
#[inline(never)]
fn register_at(registers: Registers, place: Place) -> u16
    ensures { result ≡ register_at place registers }
{
    match place {
        Place::A => registers.a.into(),
        Place::B => registers.b.into(),
        Place::C => registers.c.into(),
        Place::D => registers.d.into(),
        Place::E => registers.e.into(),
        Place::H => registers.h.into(),
        Place::L => registers.l.into(),
        Place::Sp => registers.sp,
        Place::Pc => registers.pc,
        Place::Memory(_) => 0,
    }
}

// Whether the value of some place differs from the recorded one.
#[inline(always)]
fn is_any_changed(watches: &[Watch], machine: &Machine) -> bool
    ensures { result ≡ list_any (differs machine.now) watches.now }
{
    watches
        .iter()
        .any(|watch| watch.before != value_at(machine, watch.place))
}

fn keep_values(watches: &mut [Watch], machine: &Machine)
    ensures { watches.new ≡ map (watch_of machine.now machine.now) watches.old }
{
    for watch in watches.iter_mut() {
        let value = value_at(machine, watch.place);
        watch.before = value;
        watch.after = value;
    }
}

fn keep_values_after(watches: &mut [Watch], machine: &Machine)
    ensures { watches.new ≡ map (with_after machine.now) watches.old }
{
    for watch in watches.iter_mut() {
        watch.after = value_at(machine, watch.place);
    }
}
