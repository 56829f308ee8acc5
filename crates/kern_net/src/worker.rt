//! The worker, which runs the kernel's cells.
ghost use Rattle.std.specs.Prelude.{◌≡◌, ◌+◌, length, Some, IsSome, IfOk, IfErr, OnOk};
ghost use Rattle.kern_net.specs.declared.worker.Progress.TheVariants as progress;
ghost use Rattle.kern_net.specs.Gates.{no_polls, IsOpen};
ghost use Rattle.kern_net.specs.Work.{progress_of, untaken, OneSlice, SawShutdown, SliceEnds, Sliced};
ghost use Rattle.kern_net.specs.Work.{WorkEnds, MakesSlices};

use crate::end::PumpEnd;
use crate::gate::WorkerGate;
use kern_core::call::{Call, Reply};
use kern_core::fault::KernelFault;
use kern_desk::seated::{Desk, Pass};
use std::sync::Wait;

/// What a Slice was answered.
#[derive(Clone, Copy, PartialEq, Eq)]
pub(crate) enum Progress {
    /// There may be more to do at once.
    More,
    /// There is nothing to do now.
    Idle,
    /// A shutdown has come.
    ShutDown,
}

// What the answer to a Slice says, or how it ends the work.
fn progress_of(answer: Result<Reply, KernelFault>) -> Result<Progress, PumpEnd>
    requires { IsSome (progress_of answer) }
    ensures { progress_of answer ≡ Some result }
{
    match answer {
        Ok(Reply::More) => Ok(Progress::More),
        Ok(Reply::Idle) => Ok(Progress::Idle),
        Ok(Reply::Ended) => Ok(Progress::ShutDown),
        Err(KernelFault::OutOfMemory) => Err(PumpEnd::OutOfMemory),
        Err(KernelFault::JournalFull) => Err(PumpEnd::JournalFull),
        Ok(
            Reply::Joined { .. }
            | Reply::Left
            | Reply::Subscribed
            | Reply::Arrived
            | Reply::Fetched { .. },
        )
        | Err(KernelFault::Full | KernelFault::Lagged { .. } | KernelFault::NoConnection) => {
            unreachable!()
        }
    }
}

// Makes one Slice, and wakes others if it was taken.
fn slice<R: Wait, G: WorkerGate>(
    rt: &R,
    desk: &Desk,
    pass: &mut Pass,
    gate: &mut G,
) -> Result<Progress, PumpEnd>
    requires pass { pass.old.turnstile ≡ desk.now }
    requires gate { (G.polls gate.old).before.yes ≡ (G.polls gate.old).wakes + 1 }
    ensures same { (pass.new.turnstile ≡ desk.now) × (pass.new.seat ≡ pass.old.seat) }
    ensures before { (G.polls gate.new).before ≡ (G.polls gate.old).before }
    ensures idle { (G.polls gate.new).idle ≡ (G.polls gate.old).idle }
    ensures woke { (G.polls gate.new).wakes + length pass.old.calls
        ≡ (G.polls gate.old).wakes + length pass.new.calls }
    ensures ok { OnOk result (OneSlice pass.old.calls pass.new.calls) }
    ensures shut_down { IfOk result (λ p. p ≡ progress.ShutDown → SawShutdown pass.new) }
    ensures err { IfErr result (SliceEnds pass.old pass.new) }
{
    let unix_seconds = gate.unix_seconds(rt);
    let Ok(answer) = desk.turn(rt, pass, Call::Slice { unix_seconds }) else {
        return Err(PumpEnd::OutOfTickets);
    };
    match progress_of(answer) {
        Ok(progress) => {
            gate.wake(rt);
            Ok(progress)
        }
        Err(end) => Err(end),
    }
}

// One round: `before`, a Slice, and `idle` if the Slice found nothing to do.
fn round<R: Wait, G: WorkerGate>(
    rt: &R,
    desk: &Desk,
    pass: &mut Pass,
    gate: &mut G,
    slices: u64,
) -> Result<(), PumpEnd>
    requires pass { pass.old.turnstile ≡ desk.now }
    requires gate { IsOpen (G.polls gate.old) }
    requires slices { slices ≡ (G.polls gate.old).before.yes }
    requires woke { slices ≡ (G.polls gate.old).wakes }
    ensures same { (pass.new.turnstile ≡ desk.now) × (pass.new.seat ≡ pass.old.seat) }
    ensures ok { OnOk result
        (Sliced pass.old.calls pass.new.calls (G.polls gate.old) (G.polls gate.new) 0) }
    ensures once { OnOk result ((G.polls gate.new).before.yes ≡ slices + 1) }
    ensures woke { OnOk result ((G.polls gate.new).wakes ≡ slices + 1) }
    ensures gate { OnOk result (IsOpen (G.polls gate.new)) }
    ensures err { IfErr result (λ end. Sliced pass.old.calls pass.new.calls
        (G.polls gate.old) (G.polls gate.new) (untaken end)) }
    ensures ends { IfErr result (WorkEnds pass.new (G.polls gate.new)) }
{
    if !gate.before(rt, slices) {
        return Err(PumpEnd::Ended);
    }
    match slice(rt, desk, pass, gate) {
        Ok(Progress::More) => Ok(()),
        Ok(Progress::Idle) => {
            if gate.idle(rt) {
                return Ok(());
            }
            Err(PumpEnd::Ended)
        }
        Ok(Progress::ShutDown) => Err(PumpEnd::Ended),
        Err(end) => Err(end),
    }
}

/// Makes Slices, each at the gate's time. Before each it polls the gate's `before` with the number of Slices
/// made so far, after each it wakes others, and if there was nothing to do it polls `idle`.
///
/// Returns when the gate says no, when a shutdown has come, or when a Slice is refused. It may wait, or never
/// return, as its gate does.
pub fn worker<R: Wait, G: WorkerGate>(rt: &R, desk: &Desk, pass: &mut Pass, gate: &mut G) -> PumpEnd
    requires pass { pass.old.turnstile ≡ desk.now }
    requires gate { G.polls gate.old ≡ no_polls }
    ensures { MakesSlices desk.now (record { pass = pass.old; polls = G.polls gate.old })
        (record { pass = pass.new; polls = G.polls gate.new }) result }
{
    for slices in 0..u64::MAX {
        match round(rt, desk, pass, gate, slices) {
            Ok(()) => {}
            Err(end) => return end,
        }
    }
    for _ in rt.forever() {}
    unreachable!()
}
