//! The ports of a server.
use crate::host::TcpNet;
use jup_wire::connection_file::ConnectionFile;
use kern_waits::port::{ByPort, Port};
use std::io;
use std::net::{Ipv4Addr, TcpListener};

// Two bound ports.
#[derive(Drop)]
struct Pair(TcpListener, TcpListener);

fn bind_port<R: TcpNet>(rt: &R, ip: Ipv4Addr, port: u16) -> io::Result<TcpListener> {
    TcpListener::bind(rt, (ip, port))
}

fn bind_pair<R: TcpNet>(rt: &R, ip: Ipv4Addr, first: u16, second: u16) -> io::Result<Pair> {
    let first = bind_port(rt, ip, first)?;
    match bind_port(rt, ip, second) {
        Ok(second) => Ok(Pair(first, second)),
        Err(error) => {
            drop(first);
            Err(error)
        }
    }
}

/// The five bound ports of a kernel.
#[derive(Drop)]
pub struct Listeners(ByPort<TcpListener>);

// Binds the ports of the channels: shell and iopub, stdin and control.
fn bind_channels<R: TcpNet>(rt: &R, file: &ConnectionFile) -> io::Result<(Pair, Pair)> {
    let first = bind_pair(rt, file.ip, file.shell_port, file.iopub_port)?;
    match bind_pair(rt, file.ip, file.stdin_port, file.control_port) {
        Ok(second) => Ok((first, second)),
        Err(error) => {
            drop(first);
            Err(error)
        }
    }
}

impl Listeners {
    /// Binds the ports of a connection file at its address. From then on clients can connect, but they are
    /// answered only once the listeners are served. A port is free again as soon as its server has ended.
    pub fn bind<R: TcpNet>(rt: &R, file: &ConnectionFile) -> io::Result<Listeners> {
        let heartbeat = bind_port(rt, file.ip, file.hb_port)?;
        match bind_channels(rt, file) {
            Ok((Pair(shell, iopub), Pair(stdin, control))) => Ok(Listeners(ByPort {
                shell,
                iopub,
                stdin,
                control,
                heartbeat,
            })),
            Err(error) => {
                drop(heartbeat);
                Err(error)
            }
        }
    }

    /// The listener of a port.
    pub fn of(&self, port: Port) -> &TcpListener {
        self.0.of(port)
    }
}
