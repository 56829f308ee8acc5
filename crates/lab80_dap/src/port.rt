//! One editor over TCP.
ghost use Rattle.std.specs.Prelude.{◌≡◌, IfErr};

use crate::end::tell_end;
use base_streams::std_io::StdInlet;
use cli_io::status::Status;
use dap_serve::server::{Host, serve};
use std::io;
use std::net::{Ipv4Addr, Net, TcpListener, TcpStream};

// Writes to standard error why the port can't be bound.
fn tell_unbound(rt: &impl Eprint, kind: io::ErrorKind) -> Status
    ensures { result ≡ Status.Failed }
{
    let _ = match kind {
        io::ErrorKind::AddrInUse => rt.eprintln("port in use"),
        _ => rt.eprintln("bind failed"),
    };
    Status::Failed
}

// Binds the port. If it can't, standard error says why.
fn listen<R: Eprint + Net<Listener = TcpListener, Stream = TcpStream>>(
    rt: &R,
    port: u16,
) -> Result<TcpListener, Status>
    ensures { IfErr result (λ status. status ≡ Status.Failed) }
{
    match TcpListener::bind(rt, (Ipv4Addr::LOCALHOST, port)) {
        Ok(listener) => Ok(listener),
        Err(error) => {
            let kind = error.kind();
            drop(error);
            Err(tell_unbound(rt, kind))
        }
    }
}

// The connection of the first editor, twice: to read from and to write to.
fn accept(rt: &impl Print, listener: TcpListener) -> io::Result<(TcpStream, TcpStream)> {
    rt.println("listening")?;
    let (stream, _) = listener.accept()?;
    stream.set_nodelay(true)?;
    let other = stream.try_clone()?;
    Ok((stream, other))
}

/// Serves the first editor that connects to this port of 127.0.0.1.
pub fn serve_port<
    R: Host + Print + Eprint + AllocGlobal + Net<Listener = TcpListener, Stream = TcpStream>,
>(rt: &R, port: u16) -> Status {
    let listener = match listen(rt, port) {
        Ok(listener) => listener,
        Err(status) => return status,
    };
    match accept(rt, listener) {
        Ok((from, to)) => tell_end(rt, serve(rt, rt.alloc(), StdInlet::new(from), to)),
        Err(error) => {
            drop(error);
            Status::Failed
        }
    }
}
