//! The subcommand `kernel`.
use crate::file::read_file;
use crate::line::say;
use cli_io::status::Status;
use jup_wire::connection_file::ConnectionFile;
use kern_serve::fault::ServerFault;
use kern_serve::listeners::Listeners;
use kern_serve::server::{ServerEnd, serve};
use std::io;
use std::net::{Net, TcpListener, TcpStream};
use std::random::RandomSource;
use std::rt::{Clock, Files};
use std::sync::Wait;
use std::thread::Threads;

// Prints why the ports can't be bound, and returns the status.
fn tell_unbound(rt: &impl Print, kind: io::ErrorKind) -> Status {
    match kind {
        io::ErrorKind::AddrInUse => say(rt, "port in use", Status::Failed),
        _ => say(rt, "bind failed", Status::Failed),
    }
}

// Binds the ports of a connection file.
fn listen<R: Print + Net<Listener = TcpListener, Stream = TcpStream>>(
    rt: &R,
    file: &ConnectionFile,
) -> Result<Listeners, Status> {
    match Listeners::bind(rt, file) {
        Ok(listeners) => Ok(listeners),
        Err(error) => {
            let kind = error.kind();
            drop(error);
            Err(tell_unbound(rt, kind))
        }
    }
}

// Prints how serving ended, where that needs a line, and returns the status.
fn tell_end(rt: &(impl Print + Eprint), end: Result<ServerEnd, ServerFault>) -> Status {
    match end {
        Ok(ServerEnd::ShutDown) => Status::Success,
        // A full journal has the status of out of memory, since there is no room for another call.
        Ok(ServerEnd::JournalFull) => say(rt, "journal full", Status::OutOfMemory),
        Err(fault) => {
            let _ = eprintln!(rt; "{fault}");
            status_of(fault)
        }
    }
}

// The status of a server that can't start or go on.
fn status_of(fault: ServerFault) -> Status {
    match fault {
        ServerFault::OutOfMemory | ServerFault::NoThreads => Status::OutOfMemory,
        ServerFault::NoRandom | ServerFault::WriteFailed | ServerFault::Refused => Status::Failed,
    }
}

// Reads a connection file and binds its ports.
fn prepare<R: Files + Print + AllocGlobal + Net<Listener = TcpListener, Stream = TcpStream>>(
    rt: &R,
    file: &str,
) -> Result<(Listeners, ConnectionFile), Status> {
    let file = read_file(rt, file)?;
    match listen(rt, &file) {
        Ok(listeners) => Ok((listeners, file)),
        Err(status) => {
            drop(file);
            Err(status)
        }
    }
}

/// Serves as the kernel of a connection file, until a client asks for a shutdown.
pub fn run_kernel<
    R: Files
        + Print
        + Eprint
        + AllocGlobal
        + Net<Listener = TcpListener, Stream = TcpStream>
        + RandomSource
        + Wait
        + Clock
        + Threads
        + Clone
        + Send
        + Sync
        + Drop
        + 'static,
>(rt: &R, file: &str) -> Status {
    match prepare(rt, file) {
        Ok((listeners, file)) => tell_end(rt, serve(rt, rt.alloc(), listeners, file)),
        Err(Status::OutOfMemory) => tell_end(rt, Err(ServerFault::OutOfMemory)),
        Err(status) => status,
    }
}
