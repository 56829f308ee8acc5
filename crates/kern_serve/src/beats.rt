//! The heartbeat.
use crate::connection::Shared;
use crate::host::Host;
use base_streams::std_io::{StdInlet, StdOutlet};
use kern_pace::eviction::Stage;
use kern_waits::beat_stream::BeatStream;
use kern_waits::peer_stream::Watch;
use kern_waits::slots::{PortSlot, Slots};
use std::alloc::Global;
use std::io;
use std::io::Write;
use std::net::TcpStream;
use std::rt::Clock;
use std::sync::Wait;
use std::sync::atomic::{AtomicBool, Ordering};
use zmtp_wire::heartbeat::heartbeat;

// The socket of a connection of the heartbeat, to which it is written. What is sent once the peer has asked
// for something is a beat, which is noted in the slots: half a message is none, however often more of it
// comes.
#[derive(Drop)]
struct BeatSink<'a, R: Wait + Clock> {
    stream: &'a TcpStream,
    is_asked: &'a AtomicBool,
    rt: &'a R,
    slots: &'a Slots,
    slot: PortSlot,
}

impl<'a, R: Wait + Clock> BeatSink<'a, R> {
    fn new(
        rt: &'a R,
        slots: &'a Slots,
        slot: PortSlot,
        is_asked: &'a AtomicBool,
        stream: &'a TcpStream,
    ) -> BeatSink<'a, R> {
        BeatSink {
            stream,
            is_asked,
            rt,
            slots,
            slot,
        }
    }
}

impl<'a, R: Wait + Clock> Write for BeatSink<'a, R> {
    fn write(&mut self, bytes: &[u8]) -> io::Result<usize> {
        let count = self.stream.write(bytes)?;
        if self.is_asked.load(Ordering::SeqCst) {
            self.slots.reach(self.rt, self.slot, Stage::Beats);
        }
        Ok(count)
    }

    fn flush(&mut self) -> io::Result<()> {
        self.stream.flush()
    }
}

/// Serves a connection of the heartbeat until it ends.
pub fn serve_heartbeat<R: Host>(
    rt: &R,
    alloc: Global,
    shared: &Shared,
    slot: PortSlot,
    stream: &TcpStream,
) {
    // Nothing is signed on the heartbeat.
    let (has_met, is_heard) = (AtomicBool::new(false), AtomicBool::new(false));
    let is_asked = AtomicBool::new(false);
    let watch = Watch {
        rt,
        throttles: &shared.throttles,
        has_met: &has_met,
        is_heard: &is_heard,
    };
    let sink = BeatSink::new(watch.rt, &shared.slots, slot, &is_asked, stream);
    let mut from = StdInlet::new(BeatStream::new(watch, &is_asked, stream));
    let mut to = StdOutlet::new(sink);
    let _ = heartbeat(alloc, &mut from, &mut to);
}
