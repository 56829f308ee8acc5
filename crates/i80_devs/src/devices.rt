//! The devices: a console (ports 0, 1 and 3), switches and lamps (port 2), and a request button.
ghost use Rattle.std.specs.Prelude.{◌≡◌, ◌+◌, ◌≤◌, ◌++◌, ◌∷◌, [], List, length, OnOk, OnErr, IfOk, IfSome};

use crate::panel::Panel;
use crate::traffic::Traffic;
use i80_base::ports::{PortOperation, Ports};
use std::alloc::{AllocError, Global};
use std::marker::Model;
use std::mem;
use thiserror::Error;

/// Why a press of the request button is refused.
#[derive(Clone, Copy, PartialEq, Eq, Debug, Error)]
pub enum PressFault {
    #[error("a request is latched already")]
    Latched,
    #[error("there are the buttons 0 to 7")]
    Vector,
}

/// The devices, the port operations since the last take, and room for more of these.
#[derive(Drop)]
pub struct Devices {
    panel: Panel,
    operations: Vec<PortOperation>,
    alloc: Global,
}

impl Model for Devices {
    ghost use Rattle.std.specs.Prelude.{◌-◌, vec_len, vec_capacity};
    ghost use Rattle.i80_devs.specs.Past.{DeviceState};

    ghost Value = { DeviceState };

    ghost view = { λ d. record {
      panel = d.panel;
      operations = d.operations.items;
      spare = vec_capacity d.operations - vec_len d.operations;
    } };
}

impl Ports for Devices {
    ghost use Rattle.i80_devs.specs.Past.{answer, after};

    type State = Panel;

    ghost operations = { λ d. d.operations };

    ghost state = { λ d. d.panel };

    ghost spare = { λ d. d.spare };

    ghost answer = { answer };

    ghost after = { after };

    fn input(&mut self, port: u8) -> u8 {
        let byte = match port {
            0 => self.panel.status(),
            1 => self.panel.take_input(),
            2 => self.panel.switches(),
            _ => 0xff,
        };
        self.append(PortOperation::In { port, byte });
        byte
    }

    fn output(&mut self, port: u8, byte: u8) {
        if port == 2 {
            self.panel.set_lamps(byte);
        }
        self.append(PortOperation::Out { port, byte });
    }
}

impl Devices {
    ghost use Rattle.i80_devs.specs.Past.{panel_after, Operation, Typed, Switches, Taken};
    ghost use Rattle.i80_devs.specs.Past.{RepresentsPast, Appends, SamePorts};
    ghost use Rattle.i80_devs.specs.Presses.{Presses};

    /// Devices after power-on: no input, switches and lamps 0, no request.
    pub fn new(alloc: Global) -> Devices
        ensures past { RepresentsPast result [] }
        ensures operations { result.operations ≡ [] }
        ensures spare { result.spare ≡ 0 }
    {
        Devices {
            panel: Panel::new(alloc),
            operations: Vec::new(alloc),
            alloc,
        }
    }

    /// A copy of the devices, with the same past but no port operations and no room for any.
    pub fn copy(&self) -> Result<Devices, AllocError>
        ensures { IfOk result (λ d. d ≡ record { panel = self.now.panel; operations = []; spare = 0 }) }
    {
        let panel = self.panel.copy()?;
        Ok(Devices {
            panel,
            operations: Vec::new(self.alloc),
            alloc: self.alloc,
        })
    }

    /// Types bytes at the console, where they wait as input.
    pub fn type_bytes(&mut self, bytes: &[u8]) -> Result<(), AllocError>
        ensures ok { OnOk result (Appends (Typed bytes.now) self.old self.new) }
        ensures ports { SamePorts self.old self.new }
        ensures err { OnErr result (self.new ≡ self.old) }
    {
        self.panel.type_bytes(bytes)?;
        Ok(())
    }

    /// The number of typed bytes that wait.
    pub fn bytes_waiting(&self) -> usize
        ensures { (past : List Operation) → RepresentsPast self.now past
            → result ≡ length (panel_after past).waiting }
    {
        self.panel.bytes_waiting()
    }

    /// Sets the eight switches.
    pub fn set_switches(&mut self, byte: u8)
        ensures past { Appends (Switches byte) self.old self.new }
        ensures ports { SamePorts self.old self.new }
    {
        self.panel.set_switches(byte);
    }

    /// The switches, one bit each.
    pub fn switches(&self) -> u8
        ensures { (past : List Operation) → RepresentsPast self.now past
            → result ≡ (panel_after past).switches }
    {
        self.panel.switches()
    }

    /// The lamps, one bit each.
    pub fn lamps(&self) -> u8
        ensures { (past : List Operation) → RepresentsPast self.now past
            → result ≡ (panel_after past).lamps }
    {
        self.panel.lamps()
    }

    /// Presses button n of 0 to 7, which latches a request for RST n. Fails with `Vector` if there is no such
    /// button, and otherwise with `Latched` if a request is latched already.
    pub fn press(&mut self, n: u8) -> Result<(), PressFault>
        ensures { Presses n self.old self.new result }
    {
        if n > 7 {
            return Err(PressFault::Vector);
        }
        if self.panel.latched_request().is_some() {
            return Err(PressFault::Latched);
        }
        self.panel.set_latched(Some(n));
        Ok(())
    }

    /// The request that is latched: n of 0 to 7, for RST n.
    #[inline]
    pub fn request(&self) -> Option<u8>
        ensures value { (past : List Operation) → RepresentsPast self.now past
            → result ≡ (panel_after past).latched }
        ensures vector { IfSome result (λ n. n ≤ 7) }
    {
        self.panel.latched_request()
    }

    /// Removes the latched request, as its acceptance does. Without one, nothing changes.
    pub fn take_request(&mut self)
        ensures past { Appends Taken self.old self.new }
        ensures ports { SamePorts self.old self.new }
    {
        self.panel.set_latched(None);
    }

    /// Makes room for n more port operations.
    pub fn reserve_out(&mut self, n: usize) -> Result<(), AllocError>
        ensures panel { self.new.panel ≡ self.old.panel }
        ensures operations { self.new.operations ≡ self.old.operations }
        ensures ok { OnOk result (n ≤ self.new.spare) }
        ensures err { OnErr result (self.new ≡ self.old) }
    {
        self.operations.reserve(n)
    }

    /// Takes the port operations since the last call, and leaves no room for more.
    pub fn take_out(&mut self) -> Traffic
        ensures taken { result ≡ self.old.operations }
        ensures rest { self.new ≡ record { panel = self.old.panel; operations = []; spare = 0 } }
    {
        Traffic::from(mem::replace(&mut self.operations, Vec::new(self.alloc)))
    }

    /// Resets the devices to their state after power-on. Allocates nothing, and leaves no room for port
    /// operations.
    pub fn clear(&mut self)
        ensures past { RepresentsPast self.new [] }
        ensures operations { self.new.operations ≡ [] }
        ensures spare { self.new.spare ≡ 0 }
    {
        self.panel = Panel::new(self.alloc);
        self.operations = Vec::new(self.alloc);
    }

    fn append(&mut self, operation: PortOperation)
        requires { 1 ≤ self.old.spare }
        ensures appended { self.new ≡ record {
          panel = self.old.panel;
          operations = self.old.operations ++ operation ∷ [];
          spare = self.new.spare;
        } }
        ensures spare { self.new.spare + 1 ≡ self.old.spare }
    {
        self.operations.push_reserved(operation);
    }
}
