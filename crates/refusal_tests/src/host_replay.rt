//! The guests, and what a journal's calls give for them if they are made again on a new kernel.

use crate::again::fail;
use anyhow::{Result, bail};
use jup_wire::channel::Channel;
use kern_desk::seated::Seated;
use kern_net_kit::bytes::{ASKS_BOTH, ATTACHES, DEALER, HEARS, SUB};
use kern_net_kit::replay;
use kern_net_kit::replay::{Posts, Replay, ReplayFault};
use kern_net_kit::script::{Ask, Scripted};
use std::alloc::Global;

/// A guest: its channel, what it writes for its handshake and then, and the requests in that.
#[derive(Clone, Copy)]
pub struct Script {
    pub channel: Channel,
    pub hello: &'static [u8],
    pub bytes: &'static [u8],
    pub asks: &'static [Ask],
}

impl Scripted for Script {
    fn channel(&self) -> Channel {
        self.channel
    }

    fn asks(&self) -> &'static [Ask] {
        self.asks
    }
}

/// The guests.
pub const SCRIPTS: &[Script] = &[
    Script {
        channel: Channel::Iopub,
        hello: SUB,
        bytes: HEARS,
        asks: &[],
    },
    Script {
        channel: Channel::Shell,
        hello: DEALER,
        bytes: ASKS_BOTH,
        asks: &[
            Ask("m-1", "kernel_info_request", "{}"),
            Ask("m-1", "comm_info_request", "{}"),
        ],
    },
    Script {
        channel: Channel::Control,
        hello: DEALER,
        bytes: ATTACHES,
        asks: &[Ask(
            "m-1",
            "debug_request",
            "{'type':'request','seq':1,'command':'attach'}",
        )],
    },
];

/// The most entries that are looked at.
pub const MOST: usize = 100;

/// The handshake with a guest, and what its Fetches in the journal give on a new kernel.
pub fn sent_to(alloc: Global, seated: &Seated, guest: usize) -> Result<Vec<u8>> {
    let replay = Replay {
        seated,
        scripts: SCRIPTS,
        guest,
        posts: Posts::Fetched,
    };
    match replay::sent_to(alloc, &replay) {
        Ok(sent) => Ok(sent),
        Err(ReplayFault::OutOfMemory) => fail("out of memory"),
        Err(ReplayFault::OtherCall(place)) => bail!("another call at {place}"),
        Err(ReplayFault::Long) => fail("there are too many entries"),
        Err(ReplayFault::NoGuest) => fail("there is no such guest"),
    }
}
