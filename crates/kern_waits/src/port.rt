//! The sockets of a kernel.
ghost use Rattle.std.specs.Prelude.{◌≡◌, ◌<◌, slice_get, Some};
ghost use Rattle.kern_waits.specs.declared.port.TheConstants.{ALL_PORTS};

use jup_wire::channel::Channel;

/// A socket of the kernel: a channel's, or the heartbeat's.
#[derive(Clone, Copy)]
pub enum Port {
    Channel(Channel),
    Heartbeat,
}

/// How many ports a kernel has.
pub const PORTS: usize = 5;

/// The ports of a kernel.
pub const ALL_PORTS: [Port; PORTS] = [
    Port::Channel(Channel::Shell),
    Port::Channel(Channel::Iopub),
    Port::Channel(Channel::Stdin),
    Port::Channel(Channel::Control),
    Port::Heartbeat,
];

impl Port {
    /// Its place among all ports.
    pub fn place(self) -> usize
        ensures place { slice_get ALL_PORTS result ≡ Some self }
        ensures bound { result < 5 }
    {
        match self {
            Port::Channel(Channel::Shell) => 0,
            Port::Channel(Channel::Iopub) => 1,
            Port::Channel(Channel::Stdin) => 2,
            Port::Channel(Channel::Control) => 3,
            Port::Heartbeat => 4,
        }
    }
}

/// A value for each port.
#[derive(Drop)]
pub struct ByPort<T: Drop> {
    pub shell: T,
    pub iopub: T,
    pub stdin: T,
    pub control: T,
    pub heartbeat: T,
}

impl<T: Drop> ByPort<T> {
    /// The value of a port.
    pub fn of(&self, port: Port) -> &T {
        match port {
            Port::Channel(Channel::Shell) => &self.shell,
            Port::Channel(Channel::Iopub) => &self.iopub,
            Port::Channel(Channel::Stdin) => &self.stdin,
            Port::Channel(Channel::Control) => &self.control,
            Port::Heartbeat => &self.heartbeat,
        }
    }
}
