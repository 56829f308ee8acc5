//! Loads into the machine, and the origins that they leave.
ghost use Rattle.std.specs.Prelude.{◌≡◌, [], List, OnOk, OnErr};
ghost use Rattle.i80_exec.specs.State.{with_image_bytes};

use crate::mapped::MappedAddresses;
use crate::origin::Origin;
use crate::spans::{self, Span};
use asm_build::built::Built;
use i80_exec::machine::Machine;
use std::alloc::{AllocError, Global};
use std::marker::Model;

/// The origin of each address that has one.
#[derive(Drop)]
pub struct Origins {
    spans: Vec<Span>,
    alloc: Global,
}

impl Model for Origins {
    ghost use Rattle.std.specs.Prelude.{List};
    ghost use Rattle.lab_image.specs.declared.spans.Span.{Span};
    ghost use Rattle.lab_image.specs.Spans.{AreSpans};

    ghost Value = { List Span };

    ghost view = { λ o. o.spans.items };

    ghost invariant = { λ o. AreSpans 0 o.spans.items 65536 };
}

impl Origins {
    ghost use Rattle.lab_image.specs.Loads.{Load, load_of, origin_of, GivesOrigins, Appends};
    ghost use Rattle.lab_image.specs.Mapped.{AreMapped};

    /// The origins before any load: no address has one.
    pub fn new(alloc: Global) -> Origins
        ensures { GivesOrigins result [] }
    {
        Origins {
            spans: Vec::new(alloc),
            alloc,
        }
    }

    /// Writes the bytes of a cell to the machine, in order, and takes its rows as origins.
    ///
    /// The caller numbers the sources. A row covers as many addresses as it has bytes, from its own on,
    /// up to FFFFH. An address that no row covers keeps the origin that it had.
    pub fn load(
        &mut self,
        machine: &mut Machine,
        source: u32,
        built: &Built,
    ) -> Result<(), AllocError>
        ensures machine { OnOk result (machine.new ≡ with_image_bytes machine.old built.now.image.items) }
        ensures past { OnOk result (Appends (load_of source built.now) self.old self.new) }
        ensures machine_err { OnErr result (machine.new ≡ machine.old) }
        ensures err { OnErr result (self.new ≡ self.old) }
    {
        let own = spans::spans_of_rows(self.alloc, source, &built.rows)?;
        let spans = spans::overlaid(self.alloc, &self.spans, &own)?;
        store_all(machine, &built.image);
        self.spans = spans;
        Ok(())
    }

    /// The origin of an address: that of the last row that covers it, among those of all loads
    /// since the last `clear`, or since `new`.
    pub fn at(&self, address: u16) -> Option<Origin>
        ensures { (loads : List Load) → GivesOrigins self.now loads
            → result ≡ origin_of loads address }
    {
        spans::origin_in(&self.spans, address)
    }

    /// The mapped addresses: those whose byte is the first of its statement.
    pub fn mapped_addresses(&self) -> MappedAddresses<'_>
        ensures { (loads : List Load) → GivesOrigins self.now loads → AreMapped loads result }
    {
        MappedAddresses::new(&self.spans)
    }

    /// Forgets all loads. The bytes in the machine stay.
    pub fn clear(&mut self)
        ensures { GivesOrigins self.new [] }
    {
        self.spans.clear();
    }
}

// Puts each byte at its address, in order.
fn store_all(machine: &mut Machine, image: &[(u16, u8)])
    ensures { machine.new ≡ with_image_bytes machine.old image.now }
{
    for (address, byte) in image {
        machine.poke(*address, *byte);
    }
}
