//! Closing sockets, and system calls on them that the standard library lacks.
use crate::port::PORTS;
use libc::net as c;
use libc::types::pollfd;
use std::net::{Shutdown, TcpListener, TcpStream};
use std::os::fd::AsRawFd;

// How long a connection may be silent before it is probed, the time between two probes, and their number. So
// a peer that vanished is detected within two minutes.
const IDLE_SECONDS: u32 = 60;

const PROBE_SECONDS: u32 = 10;

const PROBES: u32 = 6;

// How long sent bytes may stay unacknowledged.
const UNACKNOWLEDGED_MILLIS: u32 = 60_000;

// An option's value as the system reads it.
fn option_bytes(value: u32) -> [u8; 16] {
    let mut bytes = [0u8; 16];
    bytes[..4].copy_from_slice(&value.to_ne_bytes());
    bytes
}

/// Has the system detect a peer that vanishes, within two minutes. An option that can't be set is left as it
/// is.
pub fn keep_alive(stream: &TcpStream) {
    let fd = stream.as_raw_fd();
    let (on, unacknowledged) = (option_bytes(1), option_bytes(UNACKNOWLEDGED_MILLIS));
    let (idle, probe, probes) = (
        option_bytes(IDLE_SECONDS),
        option_bytes(PROBE_SECONDS),
        option_bytes(PROBES),
    );
    let _ = unsafe { c::setsockopt(fd, c::SOL_SOCKET, c::SO_KEEPALIVE, &on, 4) };
    let _ = unsafe { c::setsockopt(fd, c::IPPROTO_TCP, c::TCP_KEEPIDLE, &idle, 4) };
    let _ = unsafe { c::setsockopt(fd, c::IPPROTO_TCP, c::TCP_KEEPINTVL, &probe, 4) };
    let _ = unsafe { c::setsockopt(fd, c::IPPROTO_TCP, c::TCP_KEEPCNT, &probes, 4) };
    let _ = unsafe { c::setsockopt(fd, c::IPPROTO_TCP, c::TCP_USER_TIMEOUT, &unacknowledged, 4) };
}

// What a poll looks for on a socket, if there is one.
fn polled(fd: Option<i32>, events: i16) -> pollfd {
    pollfd {
        // The system ignores a negative number.
        fd: fd.unwrap_or(-1),
        events,
        revents: 0,
    }
}

/// Waits until there is a connection to accept on one of these listeners, but no longer than so many
/// milliseconds, if a number is given. Returns on which there are some.
pub fn await_connections(
    listeners: [Option<&TcpListener>; PORTS],
    millis: Option<u16>,
) -> [bool; PORTS] {
    let mut fds = listeners.map(|listener| polled(
        listener.map(|listener| listener.as_raw_fd()),
        c::POLLIN,
    ));
    let most = match millis {
        Some(millis) => i32::from(millis),
        None => -1,
    };
    let _ = c::poll(&mut fds, most);
    fds.map(|fd| fd.revents != 0)
}

/// Waits for so many milliseconds, a second at most, but no longer than until the peer has closed its side.
/// Returns whether it has.
pub fn await_end(stream: &TcpStream, millis: u64) -> bool {
    let mut fds = [polled(Some(stream.as_raw_fd()), c::POLLRDHUP)];
    let _ = c::poll(&mut fds, millis.min(1_000) as i32);
    fds[0].revents & (c::POLLRDHUP | c::POLLHUP | c::POLLERR) != 0
}

/// Ends all reads and writes on a socket, in whatever thread.
pub fn close(stream: &TcpStream) {
    let _ = stream.shutdown(Shutdown::Both);
}
