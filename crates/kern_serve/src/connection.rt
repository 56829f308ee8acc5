//! One connection: its socket, its gates, and what is done while it is served.
ghost use Rattle.std.specs.Prelude.{◌≡◌, Some};
ghost use Rattle.kern_host.specs.Guests.{AreOf, IsComing};
ghost use Rattle.kern_host.specs.Visits.{VisitsEach, VisitsOne};
ghost use Rattle.kern_serve.specs.Houses.{house_of};

use crate::gates::{InGate, OutGate};
use crate::host::Host;
use crate::listeners::Listeners;
use base_streams::std_io::{StdInlet, StdOutlet};
use base_text::text::Text;
use kern_core::fault::KernelFault;
use kern_desk::seated::Desk;
use kern_host::end::VisitEnd;
use kern_host::guest::{Guest, Passes};
use kern_host::hooks::Hooks;
use kern_host::server::{Seal, Server};
use kern_host::visiting::visit;
use kern_net::end::PumpEnd;
use kern_pace::eviction::Stage;
use kern_waits::event_count::EventCount;
use kern_waits::peer_stream::{PeerStream, Watch, lift_timeout};
use kern_waits::port::Port;
use kern_waits::slots::{PortSlot, Slots};
use kern_waits::sockets::close;
use kern_waits::throttles::Throttles;
use kern_waits::wakeups::{Slot, Wakeups};
use std::alloc::Global;
use std::net::TcpStream;
use std::sync::atomic::{AtomicBool, AtomicU64, Ordering};
use std::sync::{Arc, Wait};
use std::time::Duration;

/// What the threads of a server share.
#[derive(Drop)]
pub struct Shared {
    pub desk: Desk,
    pub wakeups: Wakeups,
    /// How long peers wait that haven't shown the key.
    pub throttles: Throttles,
    /// Which connection has which slot.
    pub slots: Slots,
    /// The key of the signatures.
    pub key: Text,
    /// The session's identifier in the headers of what the kernel sends.
    pub session: Text,
    pub listeners: Listeners,
}

// How often the writer checks whether the reader has begun, and how long it waits each time: three seconds in
// all, for a machine that is short of processors.
const CHECKS: u32 = 300;

const CHECK_MILLIS: u64 = 10;

// A connection in a slot, with its socket.
#[derive(Drop)]
struct Connection<'a, R> {
    rt: &'a R,
    shared: &'a Shared,
    slot: Slot,
    stream: Arc<TcpStream>,
    // Whether the handshake is made.
    has_met: AtomicBool,
    // Whether a signed message has opened.
    is_heard: AtomicBool,
    // The writer's event count before the connection joined.
    seen: AtomicU64,
    // Where its writer waits for its reader to begin.
    begun: EventCount,
    // Whether its reader has closed it.
    is_closed: AtomicBool,
}

/// A channel's slot among those of all ports.
pub fn port_slot(slot: Slot) -> PortSlot {
    PortSlot {
        port: Port::Channel(slot.channel),
        number: slot.number,
    }
}

// A connection as it is served.
type SocketGuest<'a, R> = Guest<
    StdInlet<PeerStream<'a, R>>,
    StdOutlet<&'a TcpStream>,
    InGate<'a, R>,
    OutGate<'a>,
>;

impl<'a, R: Host> Connection<'a, R> {
    fn new(rt: &'a R, shared: &'a Shared, slot: Slot, stream: Arc<TcpStream>) -> Connection<'a, R>
        ensures shared { result.shared.now ≡ shared.now }
        ensures slot { result.slot ≡ slot }
    {
        Connection {
            rt,
            shared,
            slot,
            stream,
            has_met: AtomicBool::new(false),
            is_heard: AtomicBool::new(false),
            seen: AtomicU64::new(0),
            begun: EventCount::new(),
            is_closed: AtomicBool::new(false),
        }
    }

    fn guest(&self) -> SocketGuest<'_, R>
        ensures coming { IsComing result }
        ensures channel { result.channel ≡ self.now.slot.channel }
    {
        let (shared, slot) = (self.shared, self.slot);
        let stream: &TcpStream = &self.stream;
        let watch = Watch {
            rt: self.rt,
            throttles: &shared.throttles,
            has_met: &self.has_met,
            is_heard: &self.is_heard,
        };
        let inlet = PeerStream::new(watch, Port::Channel(slot.channel), stream);
        let gate = InGate::new(
            &shared.wakeups,
            &shared.slots,
            self.rt,
            slot,
            &self.is_heard,
        );
        Guest::new(
            slot.channel,
            StdInlet::new(inlet),
            StdOutlet::new(stream),
            gate,
            OutGate::new(&shared.wakeups, slot, &self.is_closed),
        )
    }

    // A peer that couldn't join was unauthenticated.
    fn note_end(&self, end: Option<VisitEnd>) {
        let Some(VisitEnd::NoJoin(fault)) = end else {
            return;
        };
        if fault == KernelFault::JournalFull {
            self.shared.wakeups.wake_all();
        }
        self.shared
            .throttles
            .add_unauthenticated(self.rt, self.slot.channel);
    }
}

// Whether the reader begins. If no thread could be started for it, it would only begin once the writer has
// ended.
fn has_reader<R: Wait>(rt: &R, begun: &EventCount) -> bool {
    for _ in 0..CHECKS {
        let most = Duration::from_millis(CHECK_MILLIS);
        if begun.wait_timeout(rt, 0, most) != 0 {
            return true;
        }
    }
    false
}

impl<'a, 'c, R: Host> Hooks<InGate<'c, R>, OutGate<'c>> for Connection<'a, R> {
    // While many unauthenticated peers come, the connection waits for its turn to join.
    fn before_join<Q: Wait>(&self, _rt: &Q) {
        self.has_met.store(true, Ordering::SeqCst);
        lift_timeout(&self.stream);
        self.shared
            .slots
            .reach(self.rt, port_slot(self.slot), Stage::Silent);
        self.shared.throttles.admit(self.rt, self.slot.channel);
        let seen = self.shared.wakeups.event_count(self.slot).count();
        self.seen.store(seen, Ordering::SeqCst);
        self.shared.wakeups.count_entries(1);
    }

    fn before_reading<Q: Wait>(&self, _rt: &Q, gate: &mut InGate<'c, R>) {
        gate.begin();
        self.begun.notify();
    }

    // Without a reader nothing is written.
    fn before_writing<Q: Wait>(&self, rt: &Q, gate: &mut OutGate<'c>, _from: u64) -> bool {
        let seen = self.seen.load(Ordering::SeqCst);
        if has_reader(rt, &self.begun) && gate.open(rt, seen) {
            return true;
        }
        gate.count_no(rt);
        false
    }

    // Closes both halves of the socket. If the journal is full, it leaves them open, and the writer writes
    // what was posted. A peer from which nothing was accepted was unauthenticated.
    fn after_reading<Q: Wait>(&self, _rt: &Q, gate: &InGate<'c, R>, end: PumpEnd) {
        let wakeups = &self.shared.wakeups;
        if end == PumpEnd::JournalFull {
            wakeups.wake_all();
            return;
        }
        if !gate.was_used() {
            self.shared
                .throttles
                .add_unauthenticated(self.rt, self.slot.channel);
        }
        self.is_closed.store(true, Ordering::SeqCst);
        close(&self.stream);
        wakeups.event_count(self.slot).wake();
    }

    fn after_writing<Q: Wait>(&self, rt: &Q, gate: &OutGate<'c>) {
        close(&self.stream);
        gate.end(rt);
    }

    fn before_leave<Q: Wait>(&self, _rt: &Q) {
        self.shared.wakeups.count_entries(1);
    }
}

// Visits a connection with a thread's passes, and returns them.
fn visit_socket<R: Host>(alloc: Global, connection: &Connection<'_, R>, passes: Passes) -> Passes
    requires { AreOf connection.now.shared.now.desk (Some passes) }
    ensures { VisitsOne (house_of connection.now.shared.now) connection.now.slot.channel passes result }
{
    let shared = connection.shared;
    let server = Server {
        desk: &shared.desk,
        seal: Seal {
            key: shared.key.as_str().as_bytes(),
            session: shared.session.as_str(),
        },
    };
    let mut guest = connection.guest();
    guest.sit(passes);
    visit(connection.rt, alloc, &server, connection, &mut guest);
    connection.note_end(guest.end());
    let Some(passes) = guest.rise() else {
        unreachable!()
    };
    passes
}

/// Serves a connection in a slot until it ends, and returns the thread's passes. Closes it if its handshake
/// or its Join fails, or if there is no memory for it.
pub fn serve_connection<R: Host>(
    rt: &R,
    alloc: Global,
    shared: &Shared,
    slot: Slot,
    stream: Arc<TcpStream>,
    passes: Passes,
) -> Passes
    requires { AreOf shared.now.desk (Some passes) }
    ensures { VisitsEach (house_of shared.now) slot.channel passes result }
{
    let connection = Connection::new(rt, shared, slot, stream);
    visit_socket(alloc, &connection, passes)
}
