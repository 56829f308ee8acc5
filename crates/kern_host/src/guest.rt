//! The connections that a kernel serves.
ghost use Rattle.std.specs.Prelude.{◌≡◌, Some, None};

use crate::end::VisitEnd;
use base_streams::ports::{Inlet, Outlet};
use jup_wire::channel::Channel;
use kern_desk::seated::Pass;
use kern_net::gate::{ReaderGate, WriterGate};
use std::marker::Model;

/// The passes of a connection's two threads.
#[derive(Drop)]
pub struct Passes {
    /// For the Join, the calls that messages ask for, and the Leave.
    pub reading: Pass,
    /// For the Fetches.
    pub writing: Pass,
}

/// A connection: its channel, inlet and outlet, the gates of its two threads, their passes while it has them,
/// and how its visit ended once it has.
#[derive(Drop)]
pub struct Guest<I: Inlet + Drop, W: Outlet + Drop, G: ReaderGate + Drop, H: WriterGate + Drop> {
    pub(crate) channel: Channel,
    pub(crate) inlet: I,
    pub(crate) outlet: W,
    pub(crate) reader: G,
    pub(crate) writer: H,
    pub(crate) passes: Option<Passes>,
    pub(crate) end: Option<VisitEnd>,
}

impl<I: Inlet + Drop, W: Outlet + Drop, G: ReaderGate + Drop, H: WriterGate + Drop> Model
    for Guest<I, W, G, H> {
    ghost use Rattle.kern_host.specs.Guests.{GuestState};

    ghost Value = { GuestState };

    ghost view = { λ g. record {
      channel = g.channel;
      inlet = I.state g.inlet;
      outlet = W.state g.outlet;
      reader = G.polls g.reader;
      writer = H.polls g.writer;
      passes = g.passes;
      end = g.end;
    } };
}

impl<I: Inlet + Drop, W: Outlet + Drop, G: ReaderGate + Drop, H: WriterGate + Drop> Guest<
    I,
    W,
    G,
    H,
> {
    /// A connection that hasn't been visited yet, without passes.
    pub fn new(channel: Channel, inlet: I, outlet: W, reader: G, writer: H) -> Guest<I, W, G, H>
        ensures { result ≡ record {
          channel = channel;
          inlet = I.state inlet;
          outlet = W.state outlet;
          reader = G.polls reader;
          writer = H.polls writer;
          passes = None;
          end = None;
        } }
    {
        Guest {
            channel,
            inlet,
            outlet,
            reader,
            writer,
            passes: None,
            end: None,
        }
    }

    /// How its visit ended, if it has.
    pub fn end(&self) -> Option<VisitEnd>
        ensures { result ≡ self.now.end }
    {
        self.end
    }

    /// Its outlet, with what was written.
    pub fn outlet(&self) -> &W
        ensures { W.state result.now ≡ self.now.outlet }
    {
        &self.outlet
    }

    /// Gives it the passes of its two threads.
    pub fn sit(&mut self, passes: Passes)
        ensures { self.new ≡ record self.old { passes = Some passes } }
    {
        self.passes = Some(passes);
    }

    /// Takes its passes, if it has them.
    pub fn rise(&mut self) -> Option<Passes>
        ensures passes { result ≡ self.old.passes }
        ensures guest { self.new ≡ record self.old { passes = None } }
    {
        self.passes.take()
    }

    /// Notes how its visit ended, and gives it its passes again.
    pub(crate) fn finish(&mut self, passes: Passes, end: VisitEnd)
        ensures { self.new ≡ record self.old { passes = Some passes; end = Some end } }
    {
        self.passes = Some(passes);
        self.end = Some(end);
    }
}
