//! The inlet and the outlet of a connection.

use crate::served::signals::{Counts, Signals};
use base_streams::ports::{Inlet, IoFault, Outlet};
use kern_net_kit::bytes::{IDLE, count_of};
use std::rt::Clock;

/// An inlet that gives nothing before there were so many signals.
#[derive(Drop)]
pub struct HeldInlet<'a, I: Inlet + Drop, C: Clock> {
    pub from: I,
    pub signals: &'a Signals,
    pub after: Counts,
    pub clock: &'a C,
}

impl<'a, I: Inlet + Drop, C: Clock> Inlet for HeldInlet<'a, I, C> {
    ghost state = { λ s. I.state s.from };

    fn read(&mut self, buffer: &mut [u8]) -> Result<usize, IoFault> {
        self.signals.wait_for(self.clock, self.after);
        self.from.read(buffer)
    }
}

/// An outlet that signals requests that are done.
#[derive(Drop)]
pub struct ToldOutlet<'a, W: Outlet + Drop> {
    pub to: W,
    pub signals: &'a Signals,
}

impl<'a, W: Outlet + Drop> Outlet for ToldOutlet<'a, W> {
    ghost state = { λ s. W.state s.to };

    // Each call writes all its bytes, since the outlet below takes any number.
    fn write(&mut self, bytes: &[u8]) -> Result<usize, IoFault> {
        let written = self.to.write(bytes);
        self.signals.done.give(count_of(bytes, IDLE));
        written
    }
}
