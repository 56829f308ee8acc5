//! Running a cell in a kernel.
ghost use Rattle.std.specs.Prelude.{◌≡◌, ◌≤◌, IfOk, IfErr, OnOk};
ghost use Rattle.zmtp_wire.specs.Writing.{message_bytes};
ghost use Rattle.base_streams.specs.Told.{Took, TookPrefix};
ghost use Rattle.jup_wire.specs.Dates.{last_moment};
ghost use Rattle.zmtp_wire.specs.Receiving.{Received};
ghost use Rattle.zmtp_wire.specs.Sending.{WrotePrefix, WroteWhole};
ghost use Rattle.lab_term.specs.Causes.{Ungreeted, Unsent};
ghost use Rattle.lab_term.specs.Cells.{RunsCell};
ghost use Rattle.lab_term.specs.Connections.{IsGood, IsGoodClient, client_of, ports_of};
ghost use Rattle.lab_term.specs.Running.{subscription, Requested};
ghost use Rattle.lab_term.specs.Stopping.{RequestedPrefix};

use crate::cell::{Cell, CellEnd, Request, request_of};
use crate::fault::{TermFault, term_fault_of};
use crate::follow::{await_status, follow};
use crate::subscriber::subscriber_of;
use base_streams::ports::{Inlet, Outlet};
use base_streams::writing::write_all;
use base_text::sequence::{Bytes, Frames};
use std::alloc::{AllocError, Global};
use zmtp_wire::handshake::{Peer, handshake};
use zmtp_wire::role::Role;
use zmtp_wire::writing::put_message;

/// The two directions of a connection.
#[derive(Drop)]
pub struct Connection<I: Inlet + Drop, W: Outlet + Drop> {
    pub from: I,
    pub to: W,
}

// Makes the handshake of a connection.
fn greet<I: Inlet + Drop, W: Outlet + Drop>(
    alloc: Global,
    connection: &mut Connection<I, W>,
    role: Role,
) -> Result<Peer, TermFault>
    requires { IsGood (ports_of I.state W.state connection.old) }
    ensures received { IfOk result
        (Received (I.state connection.old.from) (I.state connection.new.from)) }
    ensures good { OnOk result (IsGood (ports_of I.state W.state connection.new)) }
    ensures whole { OnOk result (WroteWhole (W.state connection.old.to) (W.state connection.new.to) role) }
    ensures front { WrotePrefix (W.state connection.old.to) (W.state connection.new.to) role }
    ensures ungreeted { IfErr result (Ungreeted role
        (ports_of I.state W.state connection.old) (ports_of I.state W.state connection.new)) }
{
    match handshake(alloc, &mut connection.from, &mut connection.to, role) {
        Ok(peer) => Ok(peer),
        Err(fault) => Err(term_fault_of(fault)),
    }
}

// The message that subscribes to everything (RFC 23, "The Publish-Subscribe Pattern").
fn subscription(alloc: Global) -> Result<Frames, AllocError>
    ensures { IfOk result (λ frames. frames ≡ subscription) }
{
    let frame = Bytes::copy_of(alloc, &[1])?;
    let mut frames = Frames::new(alloc);
    frames.push(frame)?;
    Ok(frames)
}

// Writes a message.
fn send<W: Outlet>(alloc: Global, to: &mut W, frames: &Frames) -> Result<(), TermFault>
    ensures whole { OnOk result (Took (W.state to.old) (W.state to.new) (message_bytes frames.now)) }
    ensures front { TookPrefix (W.state to.old) (W.state to.new) (message_bytes frames.now) }
    ensures unsent { IfErr result (Unsent (W.state to.new)) }
{
    if frames.len() == 0 {
        return Ok(());
    }
    let Ok(bytes) = put_message(alloc, frames.as_slice()) else {
        return Err(TermFault::OutOfMemory);
    };
    match write_all(to, bytes.as_slice()) {
        Ok(()) => Ok(()),
        Err(_) => Err(TermFault::WriteFailed),
    }
}

// Subscribes to everything.
fn subscribe<W: Outlet>(alloc: Global, to: &mut W) -> Result<(), TermFault>
    ensures whole { OnOk result (Took (W.state to.old) (W.state to.new) (message_bytes subscription)) }
    ensures front { TookPrefix (W.state to.old) (W.state to.new) (message_bytes subscription) }
    ensures unsent { IfErr result (Unsent (W.state to.new)) }
{
    let Ok(frames) = subscription(alloc) else {
        return Err(TermFault::OutOfMemory);
    };
    send(alloc, to, &frames)
}

// Sends the request of a cell, and returns its header.
fn request<W: Outlet>(alloc: Global, to: &mut W, cell: &Cell<'_>) -> Result<Bytes, TermFault>
    requires { cell.now.unix_seconds ≤ last_moment }
    ensures whole { IfOk result (λ header. Requested cell.now header (W.state to.old) (W.state to.new)) }
    ensures front { IfErr result (RequestedPrefix cell.now (W.state to.old) (W.state to.new)) }
    ensures unsent { IfErr result (Unsent (W.state to.new)) }
{
    let Ok(Request { header, frames }) = request_of(alloc, cell) else {
        return Err(TermFault::OutOfMemory);
    };
    match send(alloc, to, &frames) {
        Ok(()) => Ok(header),
        Err(fault) => Err(fault),
    }
}

/// Runs a cell in the kernel at the other end of two connections, prints its streams and its errors, and
/// returns how it ended. Only the handshake is read from shell: the reply isn't. On an error at most one
/// request, the cell's, has been sent, and a prefix of the texts that the kernel published for it has been
/// printed.
pub fn run_cell<I: Inlet + Drop, W: Outlet + Drop, O: Outlet>(
    alloc: Global,
    shell: &mut Connection<I, W>,
    iopub: &mut Connection<I, W>,
    output: &mut O,
    cell: &Cell<'_>,
) -> Result<CellEnd, TermFault>
    requires unix_seconds { cell.now.unix_seconds ≤ last_moment }
    requires good { IsGoodClient (client_of I.state W.state O.state shell.old iopub.old output.old) }
    ensures { RunsCell cell.now (client_of I.state W.state O.state shell.old iopub.old output.old)
        (client_of I.state W.state O.state shell.new iopub.new output.new) result }
{
    match greet(alloc, shell, Role::Dealer) {
        Ok(peer) => drop(peer),
        Err(fault) => return Err(fault),
    }
    let peer = match greet(alloc, iopub, Role::Sub) {
        Ok(peer) => peer,
        Err(fault) => return Err(fault),
    };
    match subscribe(alloc, &mut iopub.to) {
        Ok(()) => {}
        Err(fault) => {
            drop(peer);
            return Err(fault);
        }
    }
    let mut subscriber = match subscriber_of(alloc, peer) {
        Ok(subscriber) => subscriber,
        Err(fault) => return Err(fault),
    };
    match await_status(alloc, &mut iopub.from, &mut subscriber, cell.key) {
        Ok(()) => {}
        Err(fault) => return Err(fault),
    }
    let header = match request(alloc, &mut shell.to, cell) {
        Ok(header) => header,
        Err(fault) => return Err(fault),
    };
    follow(
        alloc,
        &mut iopub.from,
        output,
        &mut subscriber,
        cell.key,
        header.as_slice(),
    )
}
