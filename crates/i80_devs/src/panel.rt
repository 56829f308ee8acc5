//! The state that the answers of the devices depend on.
ghost use Rattle.std.specs.Prelude.{◌≡◌, ◌≤◌, ◌+◌, ◌++◌, [], drop, length, OnOk, OnErr, IfOk, IfSome};
ghost use Rattle.i80_devs.specs.Past.{first_or_zero, one_if_any};

use std::alloc::{AllocError, Global};
use std::collections::VecDeque;
use std::marker::Model;

/// The waiting input bytes, the switches, the lamps and the latched request.
#[derive(Drop)]
pub struct Panel {
    waiting: VecDeque<u8>,
    switches: u8,
    lamps: u8,
    latched: Option<u8>,
}

impl Model for Panel {
    ghost use Rattle.i80_devs.specs.Past.{PanelState};

    ghost Value = { PanelState };

    ghost view = { λ p. record {
      waiting = p.waiting.items;
      switches = p.switches;
      lamps = p.lamps;
      latched = p.latched;
    } };

    ghost use Rattle.std.specs.Prelude.{◌≤◌, IfSome};

    ghost invariant = { λ p. IfSome p.latched (λ n. n ≤ 7) };
}

impl Panel {
    ghost use Rattle.i80_devs.specs.Past.{panel_after};

    /// The panel after power-on.
    pub fn new(alloc: Global) -> Panel
        ensures { result ≡ panel_after [] }
    {
        Panel {
            waiting: VecDeque::new(alloc),
            switches: 0,
            lamps: 0,
            latched: None,
        }
    }

    /// A copy of the panel.
    pub fn copy(&self) -> Result<Panel, AllocError>
        ensures { IfOk result (λ panel. panel ≡ self.now) }
    {
        let waiting = self.waiting.clone()?;
        Ok(Panel {
            waiting,
            switches: self.switches,
            lamps: self.lamps,
            latched: self.latched,
        })
    }

    pub fn type_bytes(&mut self, bytes: &[u8]) -> Result<(), AllocError>
        ensures ok { OnOk result (self.new ≡ record self.old { waiting = self.old.waiting ++ bytes.now }) }
        ensures err { OnErr result (self.new ≡ self.old) }
    {
        self.waiting.reserve(bytes.len())?;
        for byte in bytes {
            self.waiting.push_back_reserved(*byte);
        }
        Ok(())
    }

    /// IN 0: whether an input byte waits, and bit 1 set.
    pub fn status(&self) -> u8
        ensures { result ≡ 2 + one_if_any self.now.waiting }
    {
        if self.waiting.is_empty() { 2 } else { 3 }
    }

    /// IN 1: the next input byte, or 0.
    pub fn take_input(&mut self) -> u8
        ensures value { result ≡ first_or_zero self.old.waiting }
        ensures taken { self.new ≡ record self.old { waiting = drop 1 self.old.waiting } }
    {
        match self.waiting.pop_front() {
            Some(byte) => byte,
            None => 0,
        }
    }

    pub fn bytes_waiting(&self) -> usize
        ensures { result ≡ length self.now.waiting }
    {
        self.waiting.len()
    }

    pub fn switches(&self) -> u8
        ensures { result ≡ self.now.switches }
    {
        self.switches
    }

    pub fn set_switches(&mut self, byte: u8)
        ensures { self.new ≡ record self.old { switches = byte } }
    {
        self.switches = byte;
    }

    pub fn lamps(&self) -> u8
        ensures { result ≡ self.now.lamps }
    {
        self.lamps
    }

    pub fn set_lamps(&mut self, byte: u8)
        ensures { self.new ≡ record self.old { lamps = byte } }
    {
        self.lamps = byte;
    }

    #[inline]
    pub fn latched_request(&self) -> Option<u8>
        ensures value { result ≡ self.now.latched }
        ensures vector { IfSome result (λ n. n ≤ 7) }
    {
        self.latched
    }

    pub fn set_latched(&mut self, latched: Option<u8>)
        requires { IfSome latched (λ n. n ≤ 7) }
        ensures { self.new ≡ record self.old { latched = latched } }
    {
        self.latched = latched;
    }
}
