//! What a server needs from its runtime.
use std::net::{Net, TcpListener, TcpStream};
use std::rt::Clock;
use std::sync::Wait;
use std::thread::Threads;

/// Waiting, the clock, both outputs and threads, in a runtime that can be handed to threads.
pub trait Host: Wait + Clock + Print + Eprint + Threads + Clone + Send + Sync + Drop + 'static {}

impl<R: Wait + Clock + Print + Eprint + Threads + Clone + Send + Sync + Drop + 'static> Host
    for R {}

/// TCP sockets of the system.
pub trait TcpNet: Net<Listener = TcpListener, Stream = TcpStream> {}

impl<R: Net<Listener = TcpListener, Stream = TcpStream>> TcpNet for R {}
